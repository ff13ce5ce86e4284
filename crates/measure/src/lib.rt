// The greatest numbers of an image that was checked, of those that a call can raise: times and counters, virtual times and weights.
#![tactic(auto)]

ghost use Rattle.std.specs.Prelude.{◌≡◌, ◌+◌, ◌≤◌, length};
ghost use Rattle.context.specs.Words.{record_size};
ghost use Rattle.percpu.specs.Places.{block_size};
ghost use Rattle.machine.specs.Encode.{cpu_place};
ghost use Rattle.measure.specs.Measured.{
  NoneOver,
  Greatest,
  RecordMeasured,
  TimesMeasured,
  VirtualTimesMeasured,
  RecordsMeasured,
  BlocksMeasured,
  Measured,
};

use context::places as record_places;
use growth::Bounds;
use percpu::places;

// The greatest of these words, or `most` if that is greater.
fn greatest(words: &[u64], most: u64) -> u64
    ensures { Greatest words.now 0 (length words.now) most result }
{
    let mut top = most;
    for &word in words {
        top = top.max(word);
    }
    top
}

// The record that begins there.
fn of_record(m: &[u64], at: usize, b: Bounds) -> Bounds
    requires { at + record_size ≤ length m.now }
    ensures { RecordMeasured m.now at b result }
{
    let clock = greatest(
        &m[at + record_places::SCHEDULE_TIME..at + record_places::SCHED_AFFINITY],
        b.times,
    );
    let times = greatest(
        &m[at + record_places::WAKE..at + record_places::USERSPACE],
        clock,
    );
    let virtual_times = greatest(
        &m[at + record_places::VTIME..at + record_places::QUEUE_KEY_REM_SLICE],
        b.virtual_times,
    );
    Bounds {
        times,
        virtual_times,
    }
}

// The times and counters of the block that begins there.
fn block_times(m: &[u64], at: usize, most: u64) -> u64
    requires { at + block_size ≤ length m.now }
    ensures { TimesMeasured m.now at most result }
{
    let clock = greatest(
        &m[at + places::SCHEDULE_TIME..at + places::BEING_SIGKILLED],
        most,
    );
    let counted = greatest(&m[at + places::USER..at + places::QUEUE_LOCKED], clock);
    greatest(
        &m[at + places::TIMER_WAKE..at + places::TIMER_CONTEXT_REF],
        counted,
    )
}

// Its virtual times and weights.
fn block_virtual_times(m: &[u64], at: usize, most: u64) -> u64
    requires { at + block_size ≤ length m.now }
    ensures { VirtualTimesMeasured m.now at most result }
{
    let published = greatest(
        &m[at + places::PUBLISHED_WEIGHT..at + places::STEAL_COUNTER],
        most,
    );
    let v = greatest(&m[at + places::V..at + places::QUEUE_COUNT], published);
    let vd = greatest(&m[at + places::KEY_VD..at + places::KEY_REM_SLICE], v);
    greatest(&m[at + places::ENTRY_VTIME..at + places::ENTRY_WEIGHT], vd)
}

fn records(m: &[u64], n: usize) -> Bounds
    requires { (n ≤ 64) × (cpu_place n 0 ≤ length m.now) }
    ensures { RecordsMeasured m.now n result }
{
    let mut b = Bounds {
        times: 0,
        virtual_times: 0,
    };
    for x in 0..n {
        b = of_record(m, machine::context_place(x), b);
    }
    b
}

fn blocks(m: &[u64], c: usize, n: usize, most: Bounds) -> Bounds
    requires { (c ≤ 4) × (n ≤ 64) × (cpu_place n c ≤ length m.now) }
    ensures { BlocksMeasured m.now c n most result }
{
    let mut b = most;
    for k in 0..c {
        let at = machine::cpu_place(n, k);
        b = Bounds {
            times: block_times(m, at, b.times),
            virtual_times: block_virtual_times(m, at, b.virtual_times),
        };
    }
    b
}

pub fn measure(m: &[u64], c: usize, n: usize) -> Bounds
    requires { (c ≤ 4) × (n ≤ 64) × (cpu_place n c ≤ length m.now) }
    ensures { Measured m.now c n result }
{
    let b = records(m, n);
    blocks(m, c, n, b)
}
