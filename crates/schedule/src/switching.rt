// `switch_inner`: a direct switch back, or a decision and its switch.
ghost use Rattle.std.specs.Prelude.{false, List, ◌<◌, ◌≤◌, is_err};
ghost use Rattle.percpu.specs.Cpu.{Cpu};
ghost use Rattle.machine.specs.Shape.{Image};
ghost use Rattle.model.specs.State.{State};
ghost use Rattle.model.specs.Schedule.{schedule, after_schedule, switch_inner};
ghost use Rattle.stages.specs.Stage.{Stage, Staged, Ranged};
ghost use Rattle.schedule.specs.Begun.{CanBegin};
ghost use Rattle.schedule.specs.Decides.{told, Ends};
ghost use Rattle.schedule.specs.Named.{NamedBelow};
ghost use Rattle.schedule.specs.Switched.{marked_idle, switched_to, switched, switch_result};
ghost use Rattle.numbers.specs.Limits.{max_number};
ghost use Rattle.stages.specs.Bounds.{t_handed, b_advanced};
ghost use Rattle.answer.specs.Number.{result_number, rule_number};
ghost use Rattle.schedule.specs.Ticked.{told_of};

use crate::scheduling;
use answer::{Rule, SwitchResult};
use cpu_stats::CpuState;
use machine::CpuPlace;
use stages::NoRoom;

// What a switch came to, and by which rule: none where nothing was decided.
#[derive(Clone, Copy)]
pub struct Decided {
    pub result: SwitchResult,
    pub rule: Option<Rule>,
}

fn mark_idle(m: &mut [u64], cpu: CpuPlace)
    requires image { Image cpu.c cpu.n m.old }
    ensures { Staged cpu.c cpu.n cpu.k m.old m.new false (λ (s : State). marked_idle s) }
{
    let mut b = stages::load_block(m, cpu);
    b.stats.set_state(CpuState::Idle);
    stages::store_block(m, cpu, b);
}

fn switch_unless_current(m: &mut [u64], cpu: CpuPlace, time: u64, x: usize) -> Result<(), NoRoom>
    requires image { Image cpu.c cpu.n m.old }
    requires bounded { (x < cpu.n) × (time ≤ max_number) }
    requires ranged { Ranged cpu.c cpu.n t_handed b_advanced m.old }
    ensures { Staged cpu.c cpu.n cpu.k m.old m.new (is_err result) (λ (s : State). switched_to cpu.k time x s) }
{
    let b = stages::load_block(m, cpu);
    if b.current_ctxt == numbers::word(x) {
        return Ok(());
    }
    switch_to::switch_to(m, cpu, time, x)
}

// Keeping the holder is AllContextsIdle and marks the CPU Idle, though the holder may run.
fn switch_as(
    m: &mut [u64],
    cpu: CpuPlace,
    time: u64,
    picked: Option<usize>,
    rule: Rule,
) -> Result<Decided, NoRoom>
    requires image { Image cpu.c cpu.n m.old }
    requires bounded { (time ≤ max_number) × NamedBelow cpu.n picked }
    requires ranged { Ranged cpu.c cpu.n t_handed b_advanced m.old }
    ensures { Stage cpu.c cpu.n cpu.k m.old m.new (is_err result) (told_of result) (λ (s : State). switched cpu.k time picked s) (λ (s : State). told (result_number (switch_result picked)) (rule_number rule)) }
{
    match picked {
        None => {
            mark_idle(m, cpu);
            Ok(Decided {
                result: SwitchResult::AllContextsIdle,
                rule: Some(rule),
            })
        }
        Some(x) => {
            switch_unless_current(m, cpu, time, x)?;
            Ok(Decided {
                result: SwitchResult::Switched,
                rule: Some(rule),
            })
        }
    }
}

fn decide(m: &mut [u64], cpu: CpuPlace, time: u64) -> Result<Decided, NoRoom>
    requires image { Image cpu.c cpu.n m.old }
    requires bounded { time ≤ max_number }
    requires can_begin { CanBegin cpu.c cpu.n cpu.k time m.old }
    ensures { Ends cpu.c cpu.n cpu.k m.old m.new (is_err result) (told_of result) (λ (cpus : List Cpu) (s : State). after_schedule cpu.k time (schedule cpu.k time cpus s)) }
{
    let next = scheduling::schedule(m, cpu, time)?;
    switch_as(m, cpu, time, next.context, next.rule)
}

pub fn switch_inner(m: &mut [u64], cpu: CpuPlace, time: u64) -> Result<Decided, NoRoom>
    requires image { Image cpu.c cpu.n m.old }
    requires bounded { time ≤ max_number }
    requires can_begin { CanBegin cpu.c cpu.n cpu.k time m.old }
    ensures { Ends cpu.c cpu.n cpu.k m.old m.new (is_err result) (told_of result) (λ (cpus : List Cpu) (s : State). switch_inner cpu.k time cpus s) }
{
    if switch_to::try_direct_switch_back(m, cpu, time)? {
        return Ok(Decided {
            result: SwitchResult::Switched,
            rule: None,
        });
    }
    decide(m, cpu, time)
}
