// What the holder pays for its turn.
ghost use Rattle.std.specs.Prelude.{◌≡◌, false, ◌<◌};
ghost use Rattle.charging.specs.Charge.{Chargeable};
ghost use Rattle.model.specs.State.{at};
ghost use Rattle.plain_model.specs.Turn.{holder_stopped, charge_holder};
ghost use Rattle.plain_state.specs.States.{state_in, Sound, Tracks};
ghost use Rattle.turn.specs.Charged.{weight_left};
ghost use Rattle.plain_turn.specs.Turns.{Held, charged_as, CanPay};

use crate::timing;
use context::Context;
use entries::Timer;
use percpu::PercpuBlock;
use plain_state::State;
use ticks::Spent;

// The total weight without a context that stops.
fn leave_weight(mut b: PercpuBlock, q: Context) -> PercpuBlock
    requires { q.prio < 40 }
    ensures { result ≡ weight_left b q }
{
    if q.is_active {
        b.total_weight = b.total_weight.saturating_sub(weights::weight_of(q.prio));
    }
    b
}

// A holder x that is blocked leaves the weight, and its wake becomes its only timer.
fn stop_holder(s: State, n: usize, x: usize, q: Context) -> State
    requires { (Sound n s) × (Held n (state_in n s) x q) × (q.prio < 40) }
    ensures { Tracks n result (holder_stopped (state_in n s)) }
{
    let after = leave_weight(s.cpu.block, q);
    let t = timing::with_turn(s, n, after, s.cpu.remainder);
    let u = t.put_context(n, x, charging::charge_stopped(q));
    if q.has_wake {
        let timer = Timer {
            wake: q.wake,
            context_ref: s.cpu.block.sched_ctxt,
        };
        u.insert_newest_timer(n, timer)
    } else {
        u
    }
}

// q: the record of the holder x, which is not idle.
fn charge(s: State, n: usize, spent: Spent, x: usize, q: Context) -> State
    requires { (Sound n s) × (Held n (state_in n s) x q) × (Chargeable s.cpu.block.v spent q) }
    ensures { Tracks n result (charged_as spent (state_in n s)) }
{
    if q.status.is_runnable() {
        let charged = charging::charge_runnable(q, s.cpu.block.v, spent);
        s.put_context(n, x, charged)
    } else {
        stop_holder(s, n, x, q)
    }
}

// The idle context pays nothing.
pub fn charge_holder(s: State, n: usize, spent: Spent) -> State
    requires sound { Sound n s }
    requires can_pay { s.no_room ≡ false → CanPay n spent (state_in n s) }
    ensures { Tracks n result (charge_holder spent (state_in n s)) }
{
    let block = s.cpu.block;
    if s.no_room || block.sched_ctxt == block.idle_ctxt {
        return s;
    }
    let x = numbers::index(block.sched_ctxt);
    charge(s, n, spent, x, s.context(n, x))
}
