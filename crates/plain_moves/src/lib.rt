// Entries moved from a victim's queue to the CPU that steals, by value.
#![tactic(auto)]

mod stolen;

ghost use Rattle.std.specs.Prelude.{◌≡◌, false, ◌<◌, ◌≤◌};
ghost use Rattle.columns.specs.Common.{fold, All};
ghost use Rattle.context.specs.Key.{with_new_key, entry_of};
ghost use Rattle.machine.specs.Shape.{EntryFits};
ghost use Rattle.model.specs.State.{put_context};
ghost use Rattle.model.specs.Steal.{first_wins};
ghost use Rattle.plain_model.specs.State.{insert_entry};
ghost use Rattle.plain_model.specs.Steal.{give_up, move_entry};
ghost use Rattle.plain_lists.specs.Lists.{entries_of, Sized};
ghost use Rattle.plain_state.specs.States.{cpu_in, state_in, Sound, Became, Tracks};
ghost use Rattle.stages.specs.Bounds.{b_moving};
ghost use Rattle.weights.specs.Weights.{max_weight};
ghost use Rattle.plain_moves.specs.Moves.{CpuSound, CpuBecame, moving_in, MovingBecame, MovingTracks, Movable, MovedBelow, stolen_record, heavier, weight_moved, taken_in};

use context::Context;
use entries::Entry;
use plain_lists::Queue;
use plain_state::{Cpu, State};

// the state of this CPU, the victim, and who has won
#[derive(Clone, Copy)]
pub struct Moving {
    pub state: State,
    pub victim: Cpu,
    pub winner: Option<usize>,
}

// The record of the entry's context as it will stand on this CPU.
fn stolen_record(m: Moving, n: usize, e: Entry) -> Context
    requires { (Sound n m.state) × (Movable n (state_in n m.state)) × (EntryFits n e) }
    ensures { result ≡ stolen_record (moving_in n m) e }
{
    let x = numbers::index(e.context_ref);
    let q = m.state.context(n, x);
    stolen::moved(q, m.state.cpu.block.v, m.victim.block.v, e.weight)
}

// The entry and its weight leave the victim.
fn give_up(mut v: Cpu, e: Entry) -> Cpu
    requires { CpuSound v }
    ensures { CpuBecame result (give_up e (cpu_in v)) }
{
    v.queue = v.queue.leave_out(e.key);
    v.block.total_weight = v.block.total_weight.saturating_sub(e.weight);
    v
}

// Its weight comes here.
fn add_weight(s: State, n: usize, weight: u64) -> State
    requires { (Sound n s) × (s.cpu.block.total_weight ≤ b_moving) × (weight ≤ max_weight) }
    ensures { Became n result (heavier weight (state_in n s)) }
{
    let mut b = s.cpu.block;
    b.total_weight += weight;
    plain_handover::with_block(s, n, b)
}

// The stolen record q of context x is queued here.
fn queue_in(s: State, n: usize, x: usize, q: Context, weight: u64) -> State
    requires { (Sound n s) × (x < n) }
    ensures { Tracks n result (insert_entry (entry_of x weight q) (put_context x (with_new_key q) (state_in n s))) }
{
    s.put_context(n, x, q.with_new_key())
        .insert_entry(n, q.entry(numbers::word(x), weight))
}

// The first stolen wins where nobody else runs.
fn first_wins(runs: bool, w: Option<usize>) -> bool
    ensures { result ≡ first_wins runs w }
{
    w.is_none() && !runs
}

// The entry leaves the victim, and its weight comes here.
fn move_weight(m: Moving, n: usize, e: Entry) -> Moving
    requires { (Sound n m.state) × (CpuSound m.victim) × (Movable n (state_in n m.state)) × (EntryFits n e) }
    ensures { MovingBecame n result (weight_moved e (moving_in n m)) }
{
    Moving {
        state: add_weight(m.state, n, e.weight),
        victim: give_up(m.victim, e),
        winner: m.winner,
    }
}

// The stolen record q of context x: the first one wins, or it is queued here.
fn take_in(m: Moving, n: usize, runs: bool, x: usize, q: Context, weight: u64) -> Moving
    requires { (Sound n m.state) × (CpuSound m.victim) × (x < n) }
    ensures { MovingTracks n result (taken_in runs x q weight (moving_in n m)) }
{
    if first_wins(runs, m.winner) {
        Moving {
            state: m.state.put_context(n, x, q),
            winner: Some(x),
            ..m
        }
    } else {
        Moving {
            state: queue_in(m.state, n, x, q, weight),
            ..m
        }
    }
}

// `runs`: the holder is runnable. Nothing is done once an insertion found no room.
fn move_entry(m: Moving, n: usize, runs: bool, e: Entry) -> Moving
    requires sound { (Sound n m.state) × (CpuSound m.victim) × (EntryFits n e) }
    requires movable { m.state.no_room ≡ false → Movable n (state_in n m.state) }
    ensures { MovingTracks n result (move_entry runs (moving_in n m) e) }
{
    if m.state.no_room {
        return m;
    }
    let q = stolen_record(m, n, e);
    let t = move_weight(m, n, e);
    let x = numbers::index(e.context_ref);
    take_in(t, n, runs, x, q, e.weight)
}

// At most two entries.
pub fn move_entries(m: Moving, n: usize, runs: bool, es: Queue) -> Moving
    requires sound { (Sound n m.state) × (CpuSound m.victim) × (Sized es) × (es.len ≤ 2) }
    requires all { (All (EntryFits n) (entries_of es)) × (MovedBelow n 0 (state_in n m.state)) }
    ensures { MovingTracks n result (fold (move_entry runs) (moving_in n m) (entries_of es)) }
{
    let mut out = m;
    for e in es.as_slice_sized() {
        out = move_entry(out, n, runs, *e);
    }
    out
}
