// The decision is counted; the time of the turn goes to the state that the CPU was in, and is converted into ticks.
ghost use Rattle.std.specs.Prelude.{◌≡◌, false, ◌/◌, ◌≤◌};
ghost use Rattle.numbers.specs.Limits.{max_number, max_elapsed, half_range, nanos_per_millisecond};
ghost use Rattle.cpu_stats.specs.State.{is_idle_state};
ghost use Rattle.cpu_stats.specs.Counted.{CountersBelow, time_added, switch_added};
ghost use Rattle.ticks.specs.Ticks.{ticks, max_remainder, max_ticks};
ghost use Rattle.percpu.specs.With.{block_pit_ticks, block_stats, block_schedule_time, cpu_block, cpu_remainder};
ghost use Rattle.model.specs.State.{on_cpu};
ghost use Rattle.model.specs.Turn.{count_switch, times};
ghost use Rattle.plain_state.specs.States.{state_in, Sound, Became, Tracks};
ghost use Rattle.plain_turn.specs.Turns.{with_turn, CanTime};

use cpu_stats::CpuState;
use percpu::PercpuBlock;
use plain_state::State;
use ticks::Spent;

pub fn is_idle(s: CpuState) -> bool
    ensures { result ≡ is_idle_state s }
{
    matches!(s, CpuState::Idle)
}

// The turn as it is charged: its nanoseconds, and its ticks with what the last conversion left.
pub fn turn_spent(elapsed: u64, remainder: u64) -> Spent
    requires { (elapsed ≤ max_elapsed) × (remainder ≤ max_remainder) }
    ensures { (result.elapsed ≡ elapsed) × (result.ticks ≡ ticks elapsed remainder) × (result.ticks ≤ max_ticks) }
{
    let r = ticks::convert(elapsed, remainder);
    Spent {
        elapsed,
        ticks: r.ticks,
    }
}

// The state with another block and another remainder.
pub fn with_turn(mut s: State, n: usize, b: PercpuBlock, remainder: u64) -> State
    requires { Sound n s }
    ensures { Became n result (with_turn b remainder (state_in n s)) }
{
    s.cpu.block = b;
    s.cpu.remainder = remainder;
    s
}

fn counted(mut b: PercpuBlock) -> PercpuBlock
    requires { CountersBelow half_range b.stats }
    ensures { result ≡ block_pit_ticks 0 (block_stats (switch_added b.inside_syscall b.stats) b) }
{
    b.stats.add_context_switch(b.inside_syscall);
    b.pit_ticks = 0;
    b
}

// The tick count starts again.
pub fn count_switch(s: State, n: usize) -> State
    requires { (Sound n s) × (CountersBelow half_range s.cpu.block.stats) }
    ensures { Became n result (on_cpu count_switch (state_in n s)) }
{
    with_turn(s, n, counted(s.cpu.block), s.cpu.remainder)
}

fn timed(mut b: PercpuBlock, time: u64, elapsed: u64) -> PercpuBlock
    requires counters_below { CountersBelow half_range b.stats }
    requires elapsed_le_max_number { elapsed ≤ max_number }
    ensures { result ≡ block_schedule_time time (block_stats (time_added (elapsed / nanos_per_millisecond) b.stats) b) }
{
    b.stats.add_time(elapsed / numbers::NANOS_PER_MILLISECOND);
    b.schedule_time = time;
    b
}

// What the conversion leaves over stays for the next decision, whoever is in charge.
pub fn times(s: State, n: usize, time: u64) -> State
    requires sound { (Sound n s) × (time ≤ max_number) }
    requires can_time { s.no_room ≡ false → CanTime n time (state_in n s) }
    ensures { Tracks n result (on_cpu (times time) (state_in n s)) }
{
    if s.no_room {
        return s;
    }
    let block = s.cpu.block;
    let elapsed = time.saturating_sub(block.schedule_time);
    let after = timed(block, time, elapsed);
    let r = ticks::convert(elapsed, s.cpu.remainder);
    with_turn(s, n, after, r.remainder)
}
