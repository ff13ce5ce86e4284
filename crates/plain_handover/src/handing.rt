// The slice goes from the holder to another context.
// Its own code and not handover's: the plain engine shares no function of a stage with the fast one.
ghost use Rattle.std.specs.Prelude.{◌≡◌, ◌<◌, ◌≤◌};
ghost use Rattle.numbers.specs.Limits.{max_number};
ghost use Rattle.model.specs.Handover.{hand_over};
ghost use Rattle.handover.specs.Handed.{given_up, taken};
ghost use Rattle.plain_model.specs.State.{placed};
ghost use Rattle.plain_state.specs.States.{state_in, Sound, Became};
ghost use Rattle.plain_state.specs.Fits.{StateFits};
ghost use Rattle.stages.specs.Stage.{StateBelow};
ghost use Rattle.stages.specs.Bounds.{t_timed, b_advanced};
ghost use Rattle.plain_handover.specs.Settled.{taken_over};

use crate::advancing;
use context::Context;
use plain_state::State;

fn give_up(mut q: Context, time: u64, was_idle: bool) -> Context
    requires { (q.sched_cpu_time ≤ t_timed) × (time ≤ max_number) }
    ensures { result ≡ given_up time was_idle q }
{
    q.currently_scheduled = false;
    if !was_idle {
        q.sched_cpu_time += time.saturating_sub(q.schedule_time);
    }
    q
}

fn take(mut q: Context, time: u64) -> Context
    ensures { result ≡ taken time q }
{
    q.currently_scheduled = true;
    q.schedule_time = time;
    q
}

fn take_over(s: State, n: usize, time: u64, x: usize) -> State
    requires { (Sound n s) × (x < n) }
    ensures { Became n result (taken_over time x (state_in n s)) }
{
    let t = s.put_context(n, x, take(s.context(n, x), time));
    let mut b = s.cpu.block;
    b.sched_ctxt = numbers::word(x);
    advancing::with_block(t, n, b)
}

// `was_idle`: the CPU's state was Idle before the decision.
pub fn hand_over(s: State, n: usize, time: u64, was_idle: bool, x: usize) -> State
    requires sound { (Sound n s) × (StateFits n (state_in n s)) × (x < n) × (time ≤ max_number) }
    requires state_below { StateBelow n t_timed b_advanced (placed (state_in n s)) }
    ensures { Became n result (hand_over time was_idle x (state_in n s)) }
{
    let y = numbers::index(s.cpu.block.sched_ctxt);
    let t = s.put_context(n, y, give_up(s.context(n, y), time, was_idle));
    take_over(t, n, time, x)
}
