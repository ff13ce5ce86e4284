// Whether it is the turn to steal, by the CPU's counter.
ghost use Rattle.std.specs.Prelude.{◌≡◌};
ghost use Rattle.model.specs.State.{on_cpu};
ghost use Rattle.model.specs.Steal.{count_steal, should_steal};
ghost use Rattle.plain_state.specs.States.{state_in, Sound, Became};

use plain_state::State;

const STEAL_INTERVAL: u64 = 16;

// of an idle CPU that has no winner
const IDLE_STEAL_INTERVAL: u64 = 2;

// Every 2nd counter value if idle is in charge without a winner, else every 16th.
pub fn should_steal(s: State, n: usize, w: Option<usize>) -> bool
    ensures { result ≡ should_steal (state_in n s) w }
{
    let b = s.cpu.block;
    if b.sched_ctxt == b.idle_ctxt && w.is_none() {
        b.steal_counter % IDLE_STEAL_INTERVAL == 0
    } else {
        b.steal_counter % STEAL_INTERVAL == 0
    }
}

// The counter wraps.
pub fn count_steal(s: State, n: usize) -> State
    requires { Sound n s }
    ensures { Became n result (on_cpu count_steal (state_in n s)) }
{
    let mut b = s.cpu.block;
    b.steal_counter = std::num::wrapping_add_u64(b.steal_counter, 1);
    plain_handover::with_block(s, n, b)
}
