// The search for a victim and for what it gives up. Reads only.
ghost use Rattle.std.specs.Prelude.{◌≡◌, ◌+◌, ◌<◌, ◌≤◌, length, get_or, if◌then◌else◌};
ghost use Rattle.columns.specs.Common.{All};
ghost use Rattle.percpu.specs.Places.{queue_count};
ghost use Rattle.machine.specs.Machine.{Machine, cpu_at};
ghost use Rattle.machine.specs.Encode.{encode, cpu_place};
ghost use Rattle.machine.specs.Shape.{EntryFits, Image, Fits};
ghost use Rattle.model.specs.State.{state_of};
ghost use Rattle.model.specs.Steal.{my_load, can_steal_from, want, can_be_stolen, take_candidate};
ghost use Rattle.steal_judge.specs.Names.{locked_of, entries_of};
ghost use Rattle.steal.specs.Search.{Searched};

use entries::Entry;
use machine::CpuPlace;
use steal_judge::{Candidates, Locked};

// a CPU and the entries that are stolen from it, one at least
#[derive(Clone, Copy)]
pub struct Victim {
    pub cpu: usize,
    pub got: Candidates,
}

fn my_load(m: &[u64], cpu: CpuPlace) -> usize
    requires image { Image cpu.c cpu.n m.now }
    ensures { (result ≤ 65) × ((M : Machine) → m.now ≡ encode M → Fits cpu.c cpu.n M → result ≡ my_load (state_of cpu.k M)) }
{
    let b = stages::load_block(m, cpu);
    let len = stages::queue_len(m, cpu);
    if b.sched_ctxt == b.idle_ctxt {
        return len;
    }
    len + 1
}

fn can_steal_from(m: &[u64], cpu: CpuPlace, t: usize) -> bool
    requires image { Image cpu.c cpu.n m.now }
    requires bounded { t < cpu.c }
    ensures { (M : Machine) → m.now ≡ encode M → Fits cpu.c cpu.n M → result ≡ can_steal_from (state_of cpu.k M) (cpu_at M t) }
{
    let Some(v) = machine::get_percpu_block(m, cpu.c, cpu.n, numbers::word(t)) else {
        return false;
    };
    let victim = CpuPlace {
        c: cpu.c,
        n: cpu.n,
        k: v,
    };
    let b = stages::load_block(m, victim);
    let len = stages::queue_len(m, victim);
    let load = my_load(m, cpu);
    let published = numbers::index(b.queue_len);
    steal_judge::victim::can_steal_from(b.stealable, published, b.queue_locked, len, load)
}

// The number of entries to look at: none where nothing may be stolen.
fn offered(m: &[u64], cpu: CpuPlace, t: usize) -> usize
    requires image { Image cpu.c cpu.n m.now }
    requires bounded { t < cpu.c }
    ensures { (result ≤ get_or m.now (cpu_place cpu.n t + queue_count) 0) × ((M : Machine) → m.now ≡ encode M → Fits cpu.c cpu.n M → result ≡ (if can_steal_from (state_of cpu.k M) (cpu_at M t) then length (cpu_at M t).queue else 0)) }
{
    if can_steal_from(m, cpu, t) {
        let victim = CpuPlace {
            c: cpu.c,
            n: cpu.n,
            k: t,
        };
        return stages::queue_len(m, victim);
    }
    0
}

fn wanted(m: &[u64], cpu: CpuPlace, t: usize) -> usize
    requires image { Image cpu.c cpu.n m.now }
    requires bounded { t < cpu.c }
    ensures { (1 ≤ result) × (result ≤ 2) × ((M : Machine) → m.now ≡ encode M → Fits cpu.c cpu.n M → result ≡ want (state_of cpu.k M) (cpu_at M t)) }
{
    let here = stages::queue_len(m, cpu);
    let victim = CpuPlace {
        c: cpu.c,
        n: cpu.n,
        k: t,
    };
    let there = stages::queue_len(m, victim);
    steal_judge::victim::want(there, here)
}

fn can_be_stolen(
    m: &[u64],
    cpu: CpuPlace,
    w: Option<usize>,
    locked: Locked,
    got: Candidates,
    e: Entry,
) -> bool
    requires image { Image cpu.c cpu.n m.now }
    requires bounded { e.context_ref < cpu.n }
    ensures { (M : Machine) → m.now ≡ encode M → Fits cpu.c cpu.n M → result ≡ can_be_stolen cpu.k (locked_of locked) M.contexts w (entries_of got) e }
{
    let Some(x) = machine::look_up(m, cpu.c, cpu.n, e.context_ref) else {
        return false;
    };
    let q = machine::load(m, cpu.c, cpu.n, x);
    steal_judge::stolen::can_be_stolen(q, numbers::word(cpu.k), w, locked, got, x)
}

// w and locked stay two parameters: the definitions' take_candidate has both, and a struct of them would be taken apart for each.
fn take_candidate(
    m: &[u64],
    cpu: CpuPlace,
    w: Option<usize>,
    locked: Locked,
    want: usize,
    got: Candidates,
    e: Entry,
) -> Candidates
    requires image { Image cpu.c cpu.n m.now }
    requires bounded { EntryFits cpu.n e }
    requires want_bound { (want ≤ 2) × (length (entries_of got) < want) × (All (EntryFits cpu.n) (entries_of got)) }
    ensures all { All (EntryFits cpu.n) (entries_of result) }
    ensures result_value { (M : Machine) → m.now ≡ encode M → Fits cpu.c cpu.n M → entries_of result ≡ take_candidate cpu.k (locked_of locked) M.contexts w want (entries_of got) e }
{
    if can_be_stolen(m, cpu, w, locked, got, e) {
        return got.with(e);
    }
    got
}

// Round from the next CPU; the first that gives up anything is the victim, and what it gives up is found once enough is.
pub fn search(m: &[u64], cpu: CpuPlace, w: Option<usize>, locked: Locked) -> Option<Victim>
    requires image { Image cpu.c cpu.n m.now }
    ensures { Searched cpu.c cpu.n cpu.k m.now w locked result }
{
    let others = cpu.c - 1;
    for i in 0..others {
        let t = (cpu.k + (i + 1)) % cpu.c;
        let len = offered(m, cpu, t);
        let want = wanted(m, cpu, t);
        let victim = CpuPlace {
            c: cpu.c,
            n: cpu.n,
            k: t,
        };
        let mut got = Candidates::Nothing;
        for j in 0..len {
            let e = stages::entry(m, victim, j);
            got = take_candidate(m, cpu, w, locked, want, got, e);
            if want <= got.len() {
                return Some(Victim { cpu: t, got });
            }
        }
        if 0 < got.len() {
            return Some(Victim { cpu: t, got });
        }
    }
    None
}
