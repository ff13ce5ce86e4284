// A plain call, of any words: the image is checked, decided on by value, and built afresh.
#![tactic(auto)]

ghost use Rattle.std.specs.Prelude.{◌≡◌, ◌<◌, ◌≤◌};
ghost use Rattle.numbers.specs.Limits.{max_number};
ghost use Rattle.machine.specs.Machine.{Machine};
ghost use Rattle.machine.specs.Encode.{encode};
ghost use Rattle.machine.specs.Shape.{Image, Fits};
ghost use Rattle.machine.specs.LookUp.{look_up};
ghost use Rattle.model.specs.Accepted.{by_tick, by_switch};
ghost use Rattle.stages.specs.Stage.{Ranged};
ghost use Rattle.context_ops.specs.Reply.{reply};
ghost use Rattle.switch_ops.specs.Reply.{call_of, refusal, TargetBelow};
ghost use Rattle.calls.specs.Call.{checked};
ghost use Rattle.plain_calls.specs.Call.{decide_on, decide, direct_switch_by, plain_call};
ghost use Rattle.refusal.specs.Number.{refusal_of};

use answer::Answer;
use machine::CpuPlace;
use operations::Call;
use refusal::{Refusal, refused};
use switch_ops::Decision;

fn accepted(res: u64, rule: u64) -> Answer
    ensures { result ≡ record { refusal = 0; result = res; interrupt = 0; rule = rule } }
{
    Answer {
        refusal: 0,
        result: res,
        interrupt: 0,
        rule,
    }
}

// Refusals 6 to 8.
fn check(m: &[u64], cpu: CpuPlace, time: u64, d: Decision) -> Result<(), Refusal>
    requires image { Image cpu.c cpu.n m.now }
    requires bounded { TargetBelow cpu.n d }
    ensures { (M : Machine) → m.now ≡ encode M → Fits cpu.c cpu.n M → refusal_of result ≡ refusal (call_of d) M cpu.k time }
{
    match d {
        Decision::Tick => admission::check_decision(m, cpu, time),
        Decision::Switch => admission::check_decision(m, cpu, time),
        Decision::DirectSwitchTo(x) => admission::check_direct(m, cpu, time, x),
    }
}

// On a CPU that is present. Nothing is written before it is known that there was room.
fn decide_on(m: &mut [u64], cpu: CpuPlace, time: u64, d: Decision) -> Answer
    requires image { Image cpu.c cpu.n m.old }
    requires bounded { (time ≤ max_number) × (TargetBelow cpu.n d) }
    requires ranged { Ranged cpu.c cpu.n max_number max_number m.old }
    ensures { (M : Machine) → m.old ≡ encode M → Fits cpu.c cpu.n M → reply result m.new ≡ decide_on m.old M cpu.k time (call_of d) }
{
    if let Err(refusal) = check(m, cpu, time, d) {
        return refused(refusal);
    }
    let decided = plain_ops::decide(m, cpu, time, d);
    if decided.state.no_room {
        return refused(Refusal::NoRoom);
    }
    plain_ops::store(m, cpu, decided);
    accepted(decided.result, decided.rule)
}

fn decide(m: &mut [u64], c: usize, n: usize, cpu: u64, time: u64, d: Decision) -> Answer
    requires image { Image c n m.old }
    requires time_le_max_number { (time ≤ max_number) × (TargetBelow n d) }
    requires ranged { Ranged c n max_number max_number m.old }
    ensures { (M : Machine) → m.old ≡ encode M → Fits c n M → reply result m.new ≡ decide m.old M cpu time (call_of d) }
{
    match machine::get_percpu_block(m, c, n, cpu) {
        Some(k) => decide_on(m, CpuPlace { c, n, k }, time, d),
        None => refused(Refusal::Name),
    }
}

fn direct_switch_to(m: &mut [u64], c: usize, n: usize, cpu: u64, time: u64, context: u64) -> Answer
    requires image { Image c n m.old }
    requires time_le_max_number { time ≤ max_number }
    requires ranged { Ranged c n max_number max_number m.old }
    ensures { (M : Machine) → m.old ≡ encode M → Fits c n M → reply result m.new ≡ direct_switch_by m.old M cpu time (look_up M context) }
{
    let Some(x) = machine::look_up(m, c, n, context) else {
        return refused(Refusal::Name);
    };
    decide(m, c, n, cpu, time, Decision::DirectSwitchTo(x))
}

// Operation 1.
fn tick_call(image: &mut [u64], cpu: u64, time: u64) -> Answer
    ensures { reply result image.new ≡ checked image.old time (λ (M : Machine). decide image.old M cpu time by_tick) }
{
    match calls::check(image, time) {
        Err(refusal) => refused(refusal),
        Ok((c, n)) => decide(image, c, n, cpu, time, Decision::Tick),
    }
}

// Operation 2.
fn switch_call(image: &mut [u64], cpu: u64, time: u64) -> Answer
    ensures { reply result image.new ≡ checked image.old time (λ (M : Machine). decide image.old M cpu time by_switch) }
{
    match calls::check(image, time) {
        Err(refusal) => refused(refusal),
        Ok((c, n)) => decide(image, c, n, cpu, time, Decision::Switch),
    }
}

// Operation 3.
fn direct_switch_call(image: &mut [u64], cpu: u64, time: u64, context: u64) -> Answer
    ensures { reply result image.new ≡ checked image.old time (λ (M : Machine). direct_switch_by image.old M cpu time (look_up M context)) }
{
    match calls::check(image, time) {
        Err(refusal) => refused(refusal),
        Ok((c, n)) => direct_switch_to(image, c, n, cpu, time, context),
    }
}

// What decides nothing is delegated.
pub fn call(image: &mut [u64], operation: u64, cpu: u64, time: u64, context: u64) -> Answer
    ensures { reply result image.new ≡ plain_call image.old operation cpu time context }
{
    match operation {
        1 => tick_call(image, cpu, time),
        2 => switch_call(image, cpu, time),
        3 => direct_switch_call(image, cpu, time, context),
        _ => {
            let q = Call {
                operation,
                cpu,
                time,
                context,
            };
            operations::call(image, q)
        }
    }
}
