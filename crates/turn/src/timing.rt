// Times: the milliseconds since the CPU's last decision go to the state that it was in, and its ticks are counted.
ghost use Rattle.std.specs.Prelude.{◌≡◌, Bool, false, ℕ, ◌/◌, ◌<◌, ◌≤◌};
ghost use Rattle.cpu_stats.specs.State.{is_idle_state};
ghost use Rattle.cpu_stats.specs.Counted.{CountersBelow, time_added};
ghost use Rattle.percpu.specs.With.{block_schedule_time, block_stats};
ghost use Rattle.machine.specs.Shape.{Image};
ghost use Rattle.model.specs.State.{State, on_cpu};
ghost use Rattle.model.specs.Turn.{times};
ghost use Rattle.stages.specs.Stage.{Stage, Ranged};
ghost use Rattle.turn.specs.Turn.{turn_of, carried, spent_by, InTime};
ghost use Rattle.numbers.specs.Limits.{max_number, max_elapsed, half_range, nanos_per_millisecond};
ghost use Rattle.stages.specs.Bounds.{t_counted, b_woken};

use cpu_stats::CpuState;
use machine::CpuPlace;
use percpu::PercpuBlock;
use ticks::Spent;

// the time since the CPU's last decision, and whether its state was Idle
#[derive(Clone, Copy)]
pub struct Turn {
    pub spent: Spent,
    pub was_idle: bool,
}

fn is_idle(s: CpuState) -> bool
    ensures { result ≡ is_idle_state s }
{
    s == CpuState::Idle
}

fn timed(mut b: PercpuBlock, time: u64, elapsed: u64) -> PercpuBlock
    requires counters_below { CountersBelow half_range b.stats }
    requires elapsed_le_max_number { elapsed ≤ max_number }
    ensures { result ≡ block_schedule_time time (block_stats (time_added (elapsed / nanos_per_millisecond) b.stats) b) }
{
    b.stats.add_time(elapsed / numbers::NANOS_PER_MILLISECOND);
    b.schedule_time = time;
    b
}

// The turn's ticks. What is left over stays for the next decision, whoever is in charge.
fn convert(m: &mut [u64], cpu: CpuPlace, elapsed: u64) -> Spent
    requires image { Image cpu.c cpu.n m.old }
    requires bounded { elapsed ≤ max_elapsed }
    ensures { Stage cpu.c cpu.n cpu.k m.old m.new false result (λ (s : State). on_cpu (carried elapsed) s) (λ (s : State). spent_by elapsed s.cpu) }
{
    let before = stages::remainder(m, cpu);
    let r = ticks::convert(elapsed, before);
    stages::store_remainder(m, cpu, r.remainder);
    Spent {
        elapsed,
        ticks: r.ticks,
    }
}

pub fn times(m: &mut [u64], cpu: CpuPlace, time: u64) -> Turn
    requires image { Image cpu.c cpu.n m.old }
    requires bounded { time ≤ max_number }
    requires ranged { Ranged cpu.c cpu.n t_counted b_woken m.old }
    requires in_time { InTime cpu.c cpu.n cpu.k time m.old }
    ensures { Stage cpu.c cpu.n cpu.k m.old m.new false result (λ (s : State). on_cpu (times time) s) (λ (s : State). turn_of time s.cpu) }
{
    let b = stages::load_block(m, cpu);
    let elapsed = time.saturating_sub(b.schedule_time);
    let after = timed(b, time, elapsed);
    stages::store_block(m, cpu, after);
    let spent = convert(m, cpu, elapsed);
    Turn {
        spent,
        was_idle: is_idle(b.stats.state),
    }
}
