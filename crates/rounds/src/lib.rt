// A round of writer against rival (document 02, No. 13), played on an image of any words.
#![tactic(auto)]

ghost use Rattle.std.specs.Prelude.{◌≡◌, ◌+◌, ◌≤◌, length};
ghost use Rattle.context.specs.Words.{record_size};
ghost use Rattle.machine.specs.Encode.{context_place};
ghost use Rattle.context_ops.specs.Reply.{reply};
ghost use Rattle.calls.specs.Call.{block_call};
ghost use Rattle.numbers.specs.Limits.{half_range};
ghost use Rattle.rounds.specs.Round.{nanos, switched, asleep, played, Plays};

use answer::Answer;
use context::places;
use refusal::refused;

pub const GO_ON_NANOS: u64 = 6_750_000;

pub const YIELD_NANOS: u64 = 1_000_000;

pub const WAKE_NANOS: u64 = 4_500_000;

// what the one in charge does with its round, by the numbers of document 02
#[derive(Clone, Copy)]
pub enum Choice {
    GoOn = 1,
    Yield = 2,
    Block = 3,
}

// When the round's switch comes, from the round's beginning.
pub fn nanos(choice: Choice) -> u64
    ensures { result ≡ nanos choice }
{
    match choice {
        Choice::GoOn => GO_ON_NANOS,
        Choice::Yield | Choice::Block => YIELD_NANOS,
    }
}

fn switched(m: &mut [u64], cpu: u64, time: u64) -> bool
    ensures { Plays (switched cpu time m.old) m.new result }
{
    trial::in_place(m, cpu, time).refusal == 0
}

// Operation 6 on an image of any words.
fn block(m: &mut [u64], cpu: u64, time: u64, x: u64) -> Answer
    ensures { reply result m.new ≡ block_call m.old cpu time x }
{
    match calls::check(m, time) {
        Err(refusal) => refused(refusal),
        Ok((c, n)) => context_ops::block(m, c, n, cpu, x),
    }
}

fn asleep(m: &mut [u64], cpu: u64, x: usize, time: u64) -> bool
    requires { (context_place x + record_size ≤ length m.old) × (x ≤ 64) × (time ≤ half_range) }
    ensures { Plays (asleep cpu x time m.old) m.new result }
{
    let at = machine::context_place(x);
    m[at + places::HAS_WAKE] = 1;
    m[at + places::WAKE] = time + WAKE_NANOS;
    block(m, cpu, time, numbers::word(x)).refusal == 0
}

// Whether every call of the round was accepted. If not, the image may be left half-way.
pub fn play(m: &mut [u64], cpu: u64, x: usize, time: u64, choice: Choice) -> bool
    requires { (context_place x + record_size ≤ length m.old) × (x ≤ 64) × (time ≤ half_range) }
    ensures { Plays (played cpu x time choice m.old) m.new result }
{
    match choice {
        Choice::GoOn => switched(m, cpu, time + GO_ON_NANOS),
        Choice::Yield => switched(m, cpu, time + YIELD_NANOS),
        Choice::Block => asleep(m, cpu, x, time) && switched(m, cpu, time + YIELD_NANOS),
    }
}
