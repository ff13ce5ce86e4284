// Entries moved from the victim's queue to this CPU. A move says who has won then.
ghost use Rattle.std.specs.Prelude.{◌≡◌, ◌≢◌, ◌<◌, ◌≤◌, is_err};
ghost use Rattle.columns.specs.Common.{fold, All};
ghost use Rattle.machine.specs.Machine.{Machine, cpu_at, context_at};
ghost use Rattle.machine.specs.Encode.{encode};
ghost use Rattle.machine.specs.Shape.{ContextFits, EntryFits, Image, Fits};
ghost use Rattle.model.specs.State.{State, insert_entry, put_context};
ghost use Rattle.model.specs.Steal.{Moving, moved, first_wins, move_entry};
ghost use Rattle.stages.specs.Stage.{Stage, Staged, Ranged};
ghost use Rattle.steal_judge.specs.Names.{entries_of};
ghost use Rattle.steal.specs.Moves.{Moves, Movable, taken_in, winner_in, winner_of, finished};
ghost use Rattle.weights.specs.Weights.{min_weight};
ghost use Rattle.stages.specs.Bounds.{t_timed, b_charged};
ghost use Rattle.context.specs.Key.{with_new_key, entry_of};

use crate::cpu;
use context::Context;
use entries::Entry;
use machine::CpuPlace;
use stages::NoRoom;
use steal_judge::Candidates;

// This CPU, the victim, and whether this CPU's holder is runnable: what a theft does not change.
#[derive(Clone, Copy)]
pub struct Theft {
    pub cpu: CpuPlace,
    pub from: usize,
    pub runs: bool,
    pub ghost present: { from < cpu.c },
    pub ghost other: { from ≢ cpu.k },
}

// The record of context x as it will stand on this CPU.
fn stolen(m: &[u64], theft: Theft, x: usize, weight: u64) -> Context
    requires image { Image theft.cpu.c theft.cpu.n m.now }
    requires bounded { (x < theft.cpu.n) × (min_weight ≤ weight) }
    requires movable { Movable theft.cpu.c theft.cpu.n theft.cpu.k m.now }
    ensures { (ContextFits theft.cpu.c result) × ((M : Machine) → m.now ≡ encode M → Fits theft.cpu.c theft.cpu.n M → result ≡ moved (cpu_at M theft.cpu.k).block.v (cpu_at M theft.from).block.v weight (context_at M.contexts x)) }
{
    let q = machine::load(m, theft.cpu.c, theft.cpu.n, x);
    let here = stages::load_block(m, theft.cpu);
    let victim = CpuPlace {
        c: theft.cpu.c,
        n: theft.cpu.n,
        k: theft.from,
    };
    let there = stages::load_block(m, victim);
    steal_judge::stolen::moved(q, here.v, there.v, weight)
}

fn first_wins(runs: bool, w: Option<usize>) -> bool
    ensures { result ≡ first_wins runs w }
{
    w.is_none() && !runs
}

// The stolen record q of context x: the first one wins, or it is queued here.
fn take_in(
    m: &mut [u64],
    theft: Theft,
    w: Option<usize>,
    e: Entry,
    q: Context,
) -> Result<Option<usize>, NoRoom>
    requires image { Image theft.cpu.c theft.cpu.n m.old }
    requires bounded { EntryFits theft.cpu.n e }
    requires context_fits { ContextFits theft.cpu.c q }
    ensures { Stage theft.cpu.c theft.cpu.n theft.cpu.k m.old m.new (is_err result) (winner_of result) (λ (s : State). taken_in theft.runs w e q s) (λ (s : State). winner_in theft.runs w e) }
{
    let x = numbers::index(e.context_ref);
    if first_wins(theft.runs, w) {
        stages::store_context(m, theft.cpu, x, q);
        return Ok(Some(x));
    }
    queue_in(m, theft.cpu, x, e, q)?;
    Ok(w)
}

fn queue_in(m: &mut [u64], cpu: CpuPlace, x: usize, e: Entry, q: Context) -> Result<(), NoRoom>
    requires image { Image cpu.c cpu.n m.old }
    requires bounded { (EntryFits cpu.n e) × (x ≡ e.context_ref) }
    requires context_fits { ContextFits cpu.c q }
    ensures { Staged cpu.c cpu.n cpu.k m.old m.new (is_err result) (λ (s : State). insert_entry (entry_of e.context_ref e.weight q) (put_context e.context_ref (with_new_key q) s)) }
{
    let keyed = q.with_new_key();
    stages::store_context(m, cpu, x, keyed);
    let new = q.entry(e.context_ref, e.weight);
    stages::insert_entry(m, cpu, new)
}

fn move_entry(
    m: &mut [u64],
    theft: Theft,
    w: Option<usize>,
    e: Entry,
) -> Result<Option<usize>, NoRoom>
    requires image { Image theft.cpu.c theft.cpu.n m.old }
    requires bounded { EntryFits theft.cpu.n e }
    requires movable { Movable theft.cpu.c theft.cpu.n theft.cpu.k m.old }
    ensures { Moves theft.cpu.c theft.cpu.n theft.cpu.k theft.from m.old m.new (is_err result) w (winner_of result) (λ (v : Moving). move_entry theft.runs v e) }
{
    let x = numbers::index(e.context_ref);
    let q = stolen(m, theft, x, e.weight);
    let victim = CpuPlace {
        c: theft.cpu.c,
        n: theft.cpu.n,
        k: theft.from,
    };
    cpu::give_up(m, victim, e);
    cpu::add_weight(m, theft.cpu, e.weight);
    take_in(m, theft, w, e, q)
}

fn move_two(
    m: &mut [u64],
    theft: Theft,
    w: Option<usize>,
    a: Entry,
    b: Entry,
) -> Result<Option<usize>, NoRoom>
    requires image { Image theft.cpu.c theft.cpu.n m.old }
    requires bounded { (EntryFits theft.cpu.n a) × (EntryFits theft.cpu.n b) }
    requires ranged { Ranged theft.cpu.c theft.cpu.n t_timed b_charged m.old }
    ensures { Moves theft.cpu.c theft.cpu.n theft.cpu.k theft.from m.old m.new (is_err result) w (winner_of result) (λ (v : Moving). move_entry theft.runs (move_entry theft.runs v a) b) }
{
    let first = move_entry(m, theft, w, a)?;
    move_entry(m, theft, first, b)
}

fn move_entries(
    m: &mut [u64],
    theft: Theft,
    w: Option<usize>,
    got: Candidates,
) -> Result<Option<usize>, NoRoom>
    requires image { Image theft.cpu.c theft.cpu.n m.old }
    requires bounded { All (EntryFits theft.cpu.n) (entries_of got) }
    requires ranged { Ranged theft.cpu.c theft.cpu.n t_timed b_charged m.old }
    ensures { Moves theft.cpu.c theft.cpu.n theft.cpu.k theft.from m.old m.new (is_err result) w (winner_of result) (λ (v : Moving). fold (move_entry theft.runs) v (entries_of got)) }
{
    match got {
        Candidates::Nothing => Ok(w),
        Candidates::Single(a) => move_entry(m, theft, w, a),
        Candidates::Pair(a, b) => move_two(m, theft, w, a, b),
    }
}

// The words that other CPUs read are stored on both CPUs.
pub fn rob(
    m: &mut [u64],
    theft: Theft,
    w: Option<usize>,
    got: Candidates,
) -> Result<Option<usize>, NoRoom>
    requires image { Image theft.cpu.c theft.cpu.n m.old }
    requires bounded { All (EntryFits theft.cpu.n) (entries_of got) }
    requires ranged { Ranged theft.cpu.c theft.cpu.n t_timed b_charged m.old }
    ensures { Moves theft.cpu.c theft.cpu.n theft.cpu.k theft.from m.old m.new (is_err result) w (winner_of result) (λ (v : Moving). finished (fold (move_entry theft.runs) v (entries_of got))) }
{
    let winner = move_entries(m, theft, w, got)?;
    let victim = CpuPlace {
        c: theft.cpu.c,
        n: theft.cpu.n,
        k: theft.from,
    };
    cpu::publish_victim(m, victim);
    cpu::publish(m, theft.cpu);
    Ok(winner)
}
