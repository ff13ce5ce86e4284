// Virtual time, and the word that says whether another CPU may steal.
// Its own code and not handover's: the plain engine shares no function of a stage with the fast one.
ghost use Rattle.std.specs.Prelude.{◌≡◌, ◌≤◌};
ghost use Rattle.percpu.specs.With.{cpu_block};
ghost use Rattle.model.specs.State.{on_cpu};
ghost use Rattle.model.specs.Steal.{mark_stealable};
ghost use Rattle.handover.specs.Handed.{advanced_by, advance_by};
ghost use Rattle.plain_state.specs.States.{state_in, Sound, Became};
ghost use Rattle.stages.specs.Bounds.{b_stolen, max_gain};

use percpu::PercpuBlock;
use plain_state::State;

// The state with another block.
pub fn with_block(mut s: State, n: usize, b: PercpuBlock) -> State
    requires { Sound n s }
    ensures { Became n result (on_cpu (cpu_block b) (state_in n s)) }
{
    s.cpu.block = b;
    s
}

fn advanced(mut b: PercpuBlock, elapsed_ticks: u64, somebody: bool) -> PercpuBlock
    requires { (b.v ≤ b_stolen) × (elapsed_ticks ≤ max_gain) }
    ensures { result ≡ advanced_by somebody elapsed_ticks b }
{
    if somebody && b.total_weight != 0 {
        b.v += elapsed_ticks / b.total_weight;
    }
    b
}

// `somebody`: a context won, or a runnable holder stays.
pub fn advance(s: State, n: usize, elapsed_ticks: u64, somebody: bool) -> State
    requires sound { Sound n s }
    requires v_le_b_stolen { (s.cpu.block.v ≤ b_stolen) × (elapsed_ticks ≤ max_gain) }
    ensures { Became n result (advance_by somebody elapsed_ticks (state_in n s)) }
{
    with_block(s, n, advanced(s.cpu.block, elapsed_ticks, somebody))
}

// Another CPU may steal where the queue has an entry.
pub fn mark_stealable(s: State, n: usize) -> State
    requires { Sound n s }
    ensures { Became n result (on_cpu mark_stealable (state_in n s)) }
{
    let mut b = s.cpu.block;
    b.stealable = 0 < s.cpu.queue.len;
    with_block(s, n, b)
}
