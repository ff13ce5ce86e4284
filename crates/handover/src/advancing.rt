// Virtual time, and the word that says whether another CPU may steal.
ghost use Rattle.std.specs.Prelude.{◌≡◌, Bool, false, ℕ, ◌<◌, ◌≤◌};
ghost use Rattle.machine.specs.Shape.{Image};
ghost use Rattle.model.specs.State.{State, on_cpu};
ghost use Rattle.model.specs.Steal.{mark_stealable};
ghost use Rattle.stages.specs.Stage.{Staged, Ranged};
ghost use Rattle.handover.specs.Handed.{advanced_by, advance_by};
ghost use Rattle.stages.specs.Bounds.{t_timed, b_stolen, max_gain};

use machine::CpuPlace;
use percpu::PercpuBlock;

fn advanced(mut b: PercpuBlock, elapsed_ticks: u64, somebody: bool) -> PercpuBlock
    requires { (b.v ≤ b_stolen) × (elapsed_ticks ≤ max_gain) }
    ensures { result ≡ advanced_by somebody elapsed_ticks b }
{
    if somebody && b.total_weight != 0 {
        b.v += elapsed_ticks / b.total_weight;
    }
    b
}

// `somebody`: a context won, or a runnable holder stays.
pub fn advance(m: &mut [u64], cpu: CpuPlace, elapsed_ticks: u64, somebody: bool)
    requires image { Image cpu.c cpu.n m.old }
    requires bounded { elapsed_ticks ≤ max_gain }
    requires ranged { Ranged cpu.c cpu.n t_timed b_stolen m.old }
    ensures { Staged cpu.c cpu.n cpu.k m.old m.new false (λ (s : State). advance_by somebody elapsed_ticks s) }
{
    let b = stages::load_block(m, cpu);
    let after = advanced(b, elapsed_ticks, somebody);
    stages::store_block(m, cpu, after);
}

pub fn mark_stealable(m: &mut [u64], cpu: CpuPlace)
    requires image { Image cpu.c cpu.n m.old }
    ensures { Staged cpu.c cpu.n cpu.k m.old m.new false (λ (s : State). on_cpu mark_stealable s) }
{
    let len = stages::queue_len(m, cpu);
    let mut b = stages::load_block(m, cpu);
    b.stealable = 0 < len;
    stages::store_block(m, cpu, b);
}
