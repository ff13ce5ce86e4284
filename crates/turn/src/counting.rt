// A decision is counted, and the tick count starts again.
ghost use Rattle.std.specs.Prelude.{◌≡◌, Bool, false, ℕ, ◌<◌, ◌≤◌};
ghost use Rattle.cpu_stats.specs.Counted.{CountersBelow, switch_added};
ghost use Rattle.percpu.specs.With.{block_pit_ticks, block_stats};
ghost use Rattle.machine.specs.Shape.{Image};
ghost use Rattle.model.specs.State.{State, on_cpu};
ghost use Rattle.model.specs.Turn.{count_switch};
ghost use Rattle.stages.specs.Stage.{Staged, Ranged};
ghost use Rattle.numbers.specs.Limits.{max_number, half_range};
ghost use Rattle.stages.specs.Bounds.{t_counted};

use machine::CpuPlace;
use percpu::PercpuBlock;

fn counted(mut b: PercpuBlock) -> PercpuBlock
    requires { CountersBelow half_range b.stats }
    ensures { result ≡ block_pit_ticks 0 (block_stats (switch_added b.inside_syscall b.stats) b) }
{
    b.stats.add_context_switch(b.inside_syscall);
    b.pit_ticks = 0;
    b
}

pub fn count_switch(m: &mut [u64], cpu: CpuPlace)
    requires image { Image cpu.c cpu.n m.old }
    requires ranged { Ranged cpu.c cpu.n t_counted max_number m.old }
    ensures { Staged cpu.c cpu.n cpu.k m.old m.new false (λ (s : State). on_cpu count_switch s) }
{
    let b = stages::load_block(m, cpu);
    let after = counted(b);
    stages::store_block(m, cpu, after);
}
