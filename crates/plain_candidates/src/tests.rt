// A queue that counts more entries than there are places, as no queue of the engine does.
ghost use Rattle.std.specs.Prelude.{◌≡◌, ◌<◌};
ghost use Rattle.columns.specs.Common.{All};
ghost use Rattle.machine.specs.Shape.{EntryFits};
ghost use Rattle.plain_lists.specs.Lists.{entries_of};
ghost use Rattle.plain_state.specs.States.{Sound};

use crate::{Locked, Thief, candidates};
use context::{Context, load_context};
use entries::{Entry, Key};
use percpu::load_block;
use plain_lists::{FixedVec, Queue};
use plain_state::{Cpu, State};

// Contexts 0 and 1 may run on each CPU, and no lock is held.
fn two_contexts() -> State
    ensures { Sound 2 result }
{
    let context = Context {
        sched_affinity: u64::MAX,
        ..load_context(&[0; 26])
    };
    let queue = crowded(0).cleared();
    let names = FixedVec {
        items: [0; 64],
        len: 0,
    };
    State {
        contexts: [context; 64],
        cpu: Cpu {
            block: load_block(&[0; 21]),
            queue,
            timers: queue,
            local: names,
            ipi: names,
            remainder: 0,
        },
        no_room: false,
    }
}

fn entry_of(context: u64) -> Entry
    requires { context < 2 }
    ensures { EntryFits 2 result }
{
    let key = Key {
        vd: 20,
        rem_slice: 0,
        ctxt_id: context,
    };
    Entry {
        key,
        vtime: 10,
        weight: 1024,
        context_ref: context,
    }
}

// The same entry in each place, and one more counted.
fn crowded(context: u64) -> Queue
    requires { context < 2 }
    ensures { All (EntryFits 2) (entries_of result) }
{
    Queue {
        items: [entry_of(context); 64],
        len: 65,
    }
}

// Behind entries of context 0 alone, one of context 1, and one more counted.
fn of_both() -> Queue
    ensures { All (EntryFits 2) (entries_of result) }
{
    let mut items = [entry_of(0); 64];
    items[63] = entry_of(1);
    Queue { items, len: 65 }
}

// CPU 0 steals, and holds the lock of one context.
fn thief(sched_ctxt: usize, want: usize) -> Thief
    ensures { result.cpu ≡ 0 }
{
    let locked = Locked {
        sched_ctxt,
        best: None,
    };
    Thief {
        cpu: 0,
        locked,
        winner: None,
        want,
    }
}

// The first entry of a context is taken, and holds its lock; none is of one that the decision holds locked.
#[test]
fn one_of_a_context(rt: HostRuntime) {
    let s = two_contexts();
    let got = candidates(s, 2, thief(0, 2), crowded(1));
    assert_eq!(rt; got.as_slice().first().map(|e| e.context_ref), Some(1));
    assert_eq!(rt; got.len, 1);
    assert_eq!(rt; candidates(s, 2, thief(0, 2), crowded(0)).len, 0);
    assert_eq!(rt; candidates(s, 2, thief(0, 2), of_both()).len, 1);
    assert_eq!(rt; candidates(s, 2, thief(2, 2), of_both()).len, 2);
    assert_eq!(rt; candidates(s, 2, thief(2, 1), of_both()).len, 1);
}
