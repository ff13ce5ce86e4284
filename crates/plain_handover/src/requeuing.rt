// A runnable holder that lost goes back to the queue.
ghost use Rattle.std.specs.Prelude.{◌≡◌, ◌<◌};
ghost use Rattle.context.specs.Key.{entry_of};
ghost use Rattle.weights.specs.Weights.{weight};
ghost use Rattle.plain_model.specs.Handover.{requeue};
ghost use Rattle.plain_state.specs.States.{state_in, Sound, Became, Tracks};
ghost use Rattle.plain_handover.specs.Settled.{HolderFits, taken_out_by, requeued_by};

use context::Context;
use entries::Entry;
use plain_state::State;

fn entry_of(x: usize, q: Context) -> Entry
    requires { q.prio < 40 }
    ensures { result ≡ entry_of x (weight q.prio) q }
{
    q.entry(numbers::word(x), weights::weight_of(q.prio))
}

// Its old key leaves.
fn take_out(s: State, n: usize, q: Context) -> State
    requires { Sound n s }
    ensures { Became n result (taken_out_by q (state_in n s)) }
{
    if q.has_queue_key {
        s.remove_key(n, q.queue_key())
    } else {
        s
    }
}

// q is the record of context x.
fn requeue_context(s: State, n: usize, x: usize, q: Context) -> State
    requires { (Sound n s) × (x < n) × (q.prio < 40) }
    ensures { Tracks n result (requeued_by x q (state_in n s)) }
{
    take_out(s, n, q)
        .put_context(n, x, q.with_new_key())
        .insert_entry(n, entry_of(x, q))
}

pub fn requeue(s: State, n: usize) -> State
    requires { (Sound n s) × (HolderFits n (state_in n s)) }
    ensures { Tracks n result (requeue (state_in n s)) }
{
    let x = numbers::index(s.cpu.block.sched_ctxt);
    requeue_context(s, n, x, s.context(n, x))
}
