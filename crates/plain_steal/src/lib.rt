// Stealing of the plain engine, by value: every other CPU is tried in its turn, and a flag says when it is enough.
#![tactic(auto)]

mod counter;
mod cpus;

ghost use Rattle.std.specs.Prelude.{◌≡◌, ◌<◌, ◌≤◌, false};
ghost use Rattle.columns.specs.Common.{fold, All};
ghost use Rattle.machine.specs.Shape.{EntryFits};
ghost use Rattle.plain_model.specs.State.{placed};
ghost use Rattle.plain_model.specs.Steal.{targets, steal_entries, steal_from, steal};
ghost use Rattle.plain_lists.specs.Lists.{entries_of, Sized};
ghost use Rattle.plain_state.specs.States.{cpu_in, state_in, Sound};
ghost use Rattle.plain_state.specs.Fits.{StateFits};
ghost use Rattle.plain_candidates.specs.Stolen.{locked_of};
ghost use Rattle.plain_moves.specs.Moves.{CpuSound, MovedBelow};
ghost use Rattle.stages.specs.Stage.{StateBelow};
ghost use Rattle.stages.specs.Bounds.{t_timed, b_charged};
ghost use Rattle.plain_steal.specs.Stealing.{cpus_in, CpusSound, CpusFit, stealing_in, StealingSound, StealingTracks, Robs, some_stolen};

pub use cpus::Cpus;
use plain_candidates::{Locked, Thief};
use plain_lists::Queue;
use plain_moves::Moving;
use plain_state::{Cpu, State};

// What does not change in a call: the CPU k that decides, of c CPUs and n contexts, and its time.
#[derive(Clone, Copy)]
pub struct Caller {
    pub n: usize,
    pub c: usize,
    pub k: usize,
    pub time: u64,
}

// What does not change while it steals: whether its holder is runnable, and the contexts that the decision keeps locked.
#[derive(Clone, Copy)]
pub struct Theft {
    pub runs: bool,
    pub locked: Locked,
}

// the state, every CPU (this one as it was), who won, and whether a victim was found
#[derive(Clone, Copy)]
pub struct Stealing {
    pub state: State,
    pub cpus: Cpus,
    pub winner: Option<usize>,
    // a flag as in the definitions: no turn is left out
    pub done: bool,
}

// Entries of CPU t, which is v, are moved; a victim that gives nothing up does not count.
fn steal_entries(l: Stealing, by: Caller, runs: bool, t: usize, v: Cpu, es: Queue) -> Stealing
    requires stealing_sound { (StealingSound by.n by.c l) × (CpuSound v) × (Sized es) × (es.len ≤ 2) × (t < by.c) }
    requires all { (All (EntryFits by.n) (entries_of es)) × (MovedBelow by.n 0 (state_in by.n l.state)) }
    ensures { StealingTracks by.n by.c result (steal_entries runs (stealing_in by.n by.c l) t (cpu_in v) (entries_of es)) }
{
    if es.len == 0 {
        return l;
    }
    let start = Moving {
        state: l.state,
        victim: v,
        winner: l.winner,
    };
    let m = plain_moves::move_entries(start, by.n, runs, es);
    Stealing {
        state: cpus::publish(m.state, by.n),
        cpus: l.cpus.put(by.c, t, cpus::publish_victim(m.victim)),
        winner: m.winner,
        done: true,
    }
}

// CPU t, which is v, has enough.
fn steal_some(l: Stealing, by: Caller, theft: Theft, t: usize, v: Cpu) -> Stealing
    requires stealing_sound { (StealingSound by.n by.c l) × (CpuSound v) × (t < by.c) × (by.k < 64) }
    requires all { (All (EntryFits by.n) (entries_of v.queue)) × (MovedBelow by.n 0 (state_in by.n l.state)) }
    ensures { StealingTracks by.n by.c result (some_stolen by.k theft.runs (locked_of theft.locked) (stealing_in by.n by.c l) t (cpu_in v)) }
{
    let thief = Thief {
        cpu: by.k,
        locked: theft.locked,
        winner: l.winner,
        want: plain_candidates::want(l.state, by.n, v),
    };
    let es = plain_candidates::candidates_sized(l.state, by.n, thief, v.queue);
    steal_entries(l, by, theft.runs, t, v, es)
}

// Unless a victim was found before.
fn steal_from(l: Stealing, by: Caller, theft: Theft, t: usize) -> Stealing
    requires stealing_sound { (StealingSound by.n by.c l) × (t < by.c) × (by.k < 64) }
    requires robs { l.done ≡ false → Robs by.n (stealing_in by.n by.c l) }
    ensures { StealingTracks by.n by.c result (steal_from by.k theft.runs (locked_of theft.locked) (stealing_in by.n by.c l) t) }
{
    if l.done {
        return l;
    }
    let v = l.cpus.cpu(by.c, t);
    if plain_candidates::can_steal_from(l.state, by.n, v) {
        steal_some(l, by, theft, t, v)
    } else {
        l
    }
}

// Each other CPU in its turn, round from the next.
fn steal_round(l: Stealing, by: Caller, theft: Theft) -> Stealing
    requires stealing_sound { (StealingSound by.n by.c l) × (by.k < by.c) × (l.state.no_room ≡ false) × (Robs by.n (stealing_in by.n by.c l)) }
    requires done_value { l.done ≡ false }
    ensures { StealingTracks by.n by.c result (fold (steal_from by.k theft.runs (locked_of theft.locked)) (stealing_in by.n by.c l) (targets by.k by.c)) }
{
    let mut out = l;
    for i in 0..by.c - 1 {
        let t = (by.k + (i + 1)) % by.c;
        out = steal_from(out, by, theft, t);
    }
    out
}

pub fn steal(s: State, by: Caller, theft: Theft, cpus: Cpus, winner: Option<usize>) -> Stealing
    requires sound { (Sound by.n s) × (StateFits by.n (state_in by.n s)) × (s.no_room ≡ false) }
    requires cpus_sound { (CpusSound by.c cpus) × (CpusFit by.n (cpus_in by.c cpus)) × (by.k < by.c) }
    requires state_below { StateBelow by.n t_timed b_charged (placed (state_in by.n s)) }
    ensures { StealingTracks by.n by.c result (steal by.k theft.runs (locked_of theft.locked) (cpus_in by.c cpus) winner (state_in by.n s)) }
{
    let start = Stealing {
        state: counter::count_steal(s, by.n),
        cpus,
        winner,
        done: false,
    };
    if counter::should_steal(s, by.n, winner) {
        steal_round(start, by, theft)
    } else {
        start
    }
}
