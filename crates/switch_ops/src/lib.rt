// Operations 1 to 3 on an image that was checked: `tick`, `switch` and `direct_switch_to`.
// In every function m is the image of a machine of c CPUs and n contexts (crate machine says why the three stay apart).
#![tactic(auto)]

ghost use Rattle.std.specs.Prelude.{◌≡◌, ℕ, ◌+◌, ◌<◌, ◌≤◌, ltb, length, is_err, Ok};
ghost use Rattle.machine.specs.Machine.{Machine, cpu_at};
ghost use Rattle.machine.specs.Encode.{encode};
ghost use Rattle.machine.specs.Shape.{Image, Fits};
ghost use Rattle.stages.specs.Stage.{Ranged};
ghost use Rattle.model.specs.Turn.{elapsed};
ghost use Rattle.model.specs.Accepted.{by_tick, by_switch, by_direct_switch, outcome};
ghost use Rattle.schedule.specs.Decides.{Decides};
ghost use Rattle.context_ops.specs.Reply.{replied};
ghost use Rattle.switch_ops.specs.Reply.{call_of, refusal, decide_on, decide, direct_switch, Replies, Attempts, TargetBelow};
ghost use Rattle.numbers.specs.Limits.{max_number, max_elapsed};
ghost use Rattle.schedule.specs.Ticked.{decided_rule, ticked_told};
ghost use Rattle.refusal.specs.Number.{refusal_of};

use answer::{Answer, Rule};
use machine::CpuPlace;
use percpu::places;
use refusal::{Refusal, refused};
use schedule::Decided;
use stages::NoRoom;

#[derive(Clone, Copy)]
pub enum Decision {
    Tick,
    Switch,
    DirectSwitchTo(usize),
}

fn rule_number(rule: Option<Rule>) -> u64
    ensures { result ≡ decided_rule rule }
{
    match rule {
        None => 0,
        Some(rule) => u64::from(rule),
    }
}

// The numbers of a call that was made: 0 where nothing was decided.
fn accepted(made: Option<Decided>) -> Answer
    ensures { result ≡ record { refusal = 0; result = (ticked_told (Ok made)).result; interrupt = 0; rule = (ticked_told (Ok made)).rule } }
{
    match made {
        None => Answer {
            refusal: 0,
            result: 0,
            interrupt: 0,
            rule: 0,
        },
        Some(d) => Answer {
            refusal: 0,
            result: u64::from(d.result),
            interrupt: 0,
            rule: rule_number(d.rule),
        },
    }
}

// Follows the source: the switch, where one was due. Where an insertion finds no room the image is left half-way.
fn follow(m: &mut [u64], cpu: CpuPlace, time: u64, d: Decision) -> Result<Option<Decided>, NoRoom>
    requires image { Image cpu.c cpu.n m.old }
    requires bounded { time ≤ max_number }
    requires target_below { TargetBelow cpu.n d }
    requires ranged { Ranged cpu.c cpu.n max_number max_number m.old }
    requires k_bound { (M : Machine) → m.old ≡ encode M → Fits cpu.c cpu.n M → elapsed time (cpu_at M cpu.k) ≤ max_elapsed }
    ensures { Decides cpu.c cpu.n m.old m.new (is_err result) (ticked_told result) (λ (M : Machine). outcome (call_of d) cpu.k time M) }
{
    match d {
        Decision::Tick => schedule::tick(m, cpu, time),
        Decision::Switch => Ok(Some(schedule::switch(m, cpu, time)?)),
        Decision::DirectSwitchTo(x) => Ok(Some(schedule::direct_switch_to(m, cpu, time, x)?)),
    }
}

// Makes the call. Where an insertion finds no room it is refused, and the image is left half-way.
pub fn attempt(m: &mut [u64], cpu: CpuPlace, time: u64, d: Decision) -> Answer
    requires image { Image cpu.c cpu.n m.old }
    requires bounded { time ≤ max_number }
    requires target_below { TargetBelow cpu.n d }
    requires ranged { Ranged cpu.c cpu.n max_number max_number m.old }
    requires k_bound { (M : Machine) → m.old ≡ encode M → Fits cpu.c cpu.n M → elapsed time (cpu_at M cpu.k) ≤ max_elapsed }
    ensures { (M : Machine) → m.old ≡ encode M → Fits cpu.c cpu.n M → Attempts m.new result (replied m.old (outcome (call_of d) cpu.k time M)) (outcome (call_of d) cpu.k time M).machine }
{
    match follow(m, cpu, time, d) {
        Ok(made) => accepted(made),
        Err(_) => refused(Refusal::NoRoom),
    }
}

// The words are kept until it is known that there was room, and put back if not.
fn with_copy(m: &mut [u64], cpu: CpuPlace, time: u64, d: Decision) -> Answer
    requires image { Image cpu.c cpu.n m.old }
    requires bounded { time ≤ max_number }
    requires target_below { TargetBelow cpu.n d }
    requires ranged { Ranged cpu.c cpu.n max_number max_number m.old }
    requires k_bound { (M : Machine) → m.old ≡ encode M → Fits cpu.c cpu.n M → elapsed time (cpu_at M cpu.k) ≤ max_elapsed }
    ensures { (M : Machine) → m.old ≡ encode M → Fits cpu.c cpu.n M → Replies m.new result (replied m.old (outcome (call_of d) cpu.k time M)) (outcome (call_of d) cpu.k time M).machine }
{
    let mut saved = [0u64; machine::MAX_IMAGE_SIZE];
    let len = m.len();
    words::copy(m, &mut saved, len);
    let a = attempt(m, cpu, time, d);
    if a.refusal != 0 {
        words::copy(&saved, m, len);
    }
    a
}

// A decision adds at most one item more than these lists have together.
fn has_room(m: &[u64], cpu: CpuPlace) -> bool
    requires image { Image cpu.c cpu.n m.now }
    ensures { (M : Machine) → m.now ≡ encode M → Fits cpu.c cpu.n M → result ≡ ltb (length (cpu_at M cpu.k).queue + length (cpu_at M cpu.k).timers + length (cpu_at M cpu.k).local_wakeup_list) 64 }
{
    let at = cpu.start();
    m[at + places::QUEUE_COUNT] + m[at + places::TIMERS_COUNT] + m[at + places::LOCAL_COUNT] < 64
}

// Refusals 6 to 8.
fn check(m: &[u64], cpu: CpuPlace, time: u64, d: Decision) -> Result<(), Refusal>
    requires image { Image cpu.c cpu.n m.now }
    requires target_below { TargetBelow cpu.n d }
    ensures { (M : Machine) → m.now ≡ encode M → Fits cpu.c cpu.n M → refusal_of result ≡ refusal (call_of d) M cpu.k time }
{
    match d {
        Decision::Tick | Decision::Switch => admission::check_decision(m, cpu, time),
        Decision::DirectSwitchTo(x) => admission::check_direct(m, cpu, time, x),
    }
}

// On a CPU that is present.
fn decide_on(m: &mut [u64], cpu: CpuPlace, time: u64, d: Decision) -> Answer
    requires image { Image cpu.c cpu.n m.old }
    requires bounded { time ≤ max_number }
    requires target_below { TargetBelow cpu.n d }
    requires ranged { Ranged cpu.c cpu.n max_number max_number m.old }
    ensures { (M : Machine) → m.old ≡ encode M → Fits cpu.c cpu.n M → Replies m.new result (decide_on m.old M cpu.k time (call_of d)) (outcome (call_of d) cpu.k time M).machine }
{
    if let Err(refusal) = check(m, cpu, time, d) {
        return refused(refusal);
    }
    if has_room(m, cpu) {
        return attempt(m, cpu, time, d);
    }
    with_copy(m, cpu, time, d)
}

fn decide(m: &mut [u64], c: usize, n: usize, cpu: u64, time: u64, d: Decision) -> Answer
    requires image { Image c n m.old }
    requires time_le_max_number { time ≤ max_number }
    requires target_below { TargetBelow n d }
    requires ranged { Ranged c n max_number max_number m.old }
    ensures { (M : Machine) → m.old ≡ encode M → Fits c n M → Replies m.new result (decide m.old M cpu time (call_of d)) (outcome (call_of d) cpu time M).machine }
{
    match machine::get_percpu_block(m, c, n, cpu) {
        Some(k) => decide_on(m, CpuPlace { c, n, k }, time, d),
        None => refused(Refusal::Name),
    }
}

// Operation 1.
pub fn tick(m: &mut [u64], c: usize, n: usize, cpu: u64, time: u64) -> Answer
    requires image { Image c n m.old }
    requires time_le_max_number { time ≤ max_number }
    requires ranged { Ranged c n max_number max_number m.old }
    ensures { (M : Machine) → m.old ≡ encode M → Fits c n M → Replies m.new result (decide m.old M cpu time by_tick) (outcome by_tick cpu time M).machine }
{
    decide(m, c, n, cpu, time, Decision::Tick)
}

// Operation 2.
pub fn switch(m: &mut [u64], c: usize, n: usize, cpu: u64, time: u64) -> Answer
    requires image { Image c n m.old }
    requires time_le_max_number { time ≤ max_number }
    requires ranged { Ranged c n max_number max_number m.old }
    ensures { (M : Machine) → m.old ≡ encode M → Fits c n M → Replies m.new result (decide m.old M cpu time by_switch) (outcome by_switch cpu time M).machine }
{
    decide(m, c, n, cpu, time, Decision::Switch)
}

// Operation 3.
pub fn direct_switch_to(
    m: &mut [u64],
    c: usize,
    n: usize,
    cpu: u64,
    time: u64,
    context: u64,
) -> Answer
    requires image { Image c n m.old }
    requires time_le_max_number { time ≤ max_number }
    requires ranged { Ranged c n max_number max_number m.old }
    ensures { (M : Machine) → m.old ≡ encode M → Fits c n M → Replies m.new result (direct_switch m.old M cpu time context) (outcome (by_direct_switch context) cpu time M).machine }
{
    let Some(x) = machine::look_up(m, c, n, context) else {
        return refused(Refusal::Name);
    };
    decide(m, c, n, cpu, time, Decision::DirectSwitchTo(x))
}
