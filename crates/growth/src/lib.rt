// How far the numbers of an image can have grown: bounds of its times and counters, and of its virtual times and weights.
#![tactic(auto)]

ghost use Rattle.std.specs.Prelude.{◌≡◌, ◌+◌, ◌*◌, ◌≤◌};
ghost use Rattle.machine.specs.Machine.{Machine};
ghost use Rattle.machine.specs.Encode.{encode};
ghost use Rattle.machine.specs.Shape.{Image, Fits};
ghost use Rattle.stages.specs.Bounds.{slice_bound};
ghost use Rattle.numbers.specs.Limits.{max_number, max_elapsed};
ghost use Rattle.growth.specs.Growth.{
  max_charged,
  after_theft,
  after_turn,
  InRange,
  is_in_range,
  capped,
  may_steal,
  call_bounds,
};

use machine::CpuPlace;
use operations::Call;
use percpu::PercpuBlock;

// The greatest of the times and counters, and of the virtual times and weights, or more.
#[derive(Clone, Copy)]
pub struct Bounds {
    pub times: u64,
    pub virtual_times: u64,
}

// what a nanosecond is in ticks, or more
pub const TICKS_PER_NANO: u64 = 478;

// what wake-ups and a charge add besides the ticks, or more
pub const SLICES: u64 = 1 << 35;

// what a theft adds besides, or more
pub const SLICE_BOUND: u64 = 1 << 30;

// a CPU may steal at every 16th value of its counter, while idle is in charge at every 2nd
const STEAL_INTERVAL: u64 = 16;

const IDLE_STEAL_INTERVAL: u64 = 2;

// A stolen context's lag is carried over.
fn after_theft(charged: u64, steals: bool) -> u64
    requires { charged ≤ max_charged }
    ensures { (result ≡ after_theft steals charged) × (result ≤ 2 * max_charged + slice_bound) }
{
    if steals {
        return 2 * charged + SLICE_BOUND;
    }
    charged
}

// After an operation of 1 to 3 at that time, so many nanoseconds after the CPU's last decision, that may steal or not.
pub fn after_turn(b: Bounds, time: u64, elapsed: u64, steals: bool) -> Bounds
    requires in_range { InRange b }
    requires time_le_max_number { (time ≤ max_number) × (elapsed ≤ max_elapsed) }
    ensures { result ≡ after_turn b time elapsed steals }
{
    let ticks = TICKS_PER_NANO * elapsed + 1;
    let charged = after_theft(b.virtual_times + SLICES + ticks, steals);
    Bounds {
        times: b.times + 3 * time + 2,
        virtual_times: charged + ticks,
    }
}

#[tactic(auto, unfolding(crate::specs::Growth::is_in_range))]
pub fn is_in_range(b: Bounds) -> bool
    ensures { result ≡ is_in_range b }
{
    b.times <= numbers::MAX_NUMBER && b.virtual_times <= numbers::MAX_NUMBER
}

fn capped(elapsed: u64) -> u64
    ensures { (result ≡ capped elapsed) × (result ≤ max_elapsed) }
{
    elapsed.min(numbers::MAX_ELAPSED)
}

// A decision on the CPU with this block, of c, may be on a stealing turn.
#[tactic(auto, unfolding(crate::specs::Growth::may_steal))]
fn may_steal(c: usize, p: PercpuBlock) -> bool
    ensures { result ≡ may_steal c p }
{
    let interval = if p.sched_ctxt == p.idle_ctxt {
        IDLE_STEAL_INTERVAL
    } else {
        STEAL_INTERVAL
    };
    1 < c && p.steal_counter % interval == 0
}

// After a call, on an image of c CPUs and n contexts.
pub fn call_bounds(m: &[u64], c: usize, n: usize, q: Call, b: Bounds) -> Bounds
    requires image { Image c n m.now }
    requires in_range { InRange b }
    requires time_le_max_number { q.time ≤ max_number }
    ensures { (M : Machine) → m.now ≡ encode M → Fits c n M → result ≡ call_bounds c M q.operation q.cpu q.time b }
{
    let k = numbers::index(q.cpu);
    if c <= k || 3 < q.operation {
        return b;
    }
    let p = stages::load_block(m, CpuPlace { c, n, k });
    let elapsed = capped(q.time.saturating_sub(p.schedule_time));
    after_turn(b, q.time, elapsed, may_steal(c, p))
}
