// `select_next_context`: who gets the slice.
ghost use Rattle.std.specs.Prelude.{◌≡◌, true, false, List, ◌<◌, ◌≤◌, is_err, IfOk};
ghost use Rattle.percpu.specs.Cpu.{Cpu};
ghost use Rattle.machine.specs.Shape.{Image};
ghost use Rattle.model.specs.State.{State};
ghost use Rattle.model.specs.Schedule.{selected, select_next_context};
ghost use Rattle.stages.specs.Stage.{Ranged};
ghost use Rattle.schedule.specs.Part.{ruled_of, of_selected, Part};
ghost use Rattle.schedule.specs.Named.{NamedBelow};
ghost use Rattle.ticks.specs.Ticks.{max_ticks};
ghost use Rattle.stages.specs.Bounds.{t_timed, b_woken, b_charged, b_advanced};

use crate::choosing;
use answer::Rule;
use machine::CpuPlace;
use stages::NoRoom;
use ticks::Spent;

// Who won or comes next, and by which rule.
#[derive(Clone, Copy)]
pub struct Next {
    // nobody: the holder keeps the slice
    pub context: Option<usize>,
    pub rule: Rule,
}

// After the holder is charged.
fn selected(m: &mut [u64], cpu: CpuPlace, time: u64, spent: Spent) -> Result<Next, NoRoom>
    requires image { Image cpu.c cpu.n m.old }
    requires bounded { spent.ticks ≤ max_ticks }
    requires ranged { Ranged cpu.c cpu.n t_timed b_charged m.old }
    ensures part { Part cpu.c cpu.n cpu.k m.old m.new (is_err result) (ruled_of result) (λ (cpus : List Cpu) (s : State). of_selected (selected cpu.k time spent cpus s)) }
    ensures named_below { IfOk result (λ next. NamedBelow cpu.n next.context × Ranged cpu.c cpu.n t_timed b_advanced m.new) }
{
    let runs = choosing::prev_runnable(m, cpu);
    let won = choosing::choose_and_steal(m, cpu, time, runs)?;
    let winner = won.context;
    handover::settle(m, cpu, spent.ticks, winner.is_some(), runs)?;
    let context = handover::next_context(m, cpu, runs, winner);
    Ok(Next {
        context,
        rule: won.rule,
    })
}

pub fn select_next_context(
    m: &mut [u64],
    cpu: CpuPlace,
    time: u64,
    spent: Spent,
) -> Result<Next, NoRoom>
    requires image { Image cpu.c cpu.n m.old }
    requires bounded { spent.ticks ≤ max_ticks }
    requires ranged { Ranged cpu.c cpu.n t_timed b_woken m.old }
    ensures part { Part cpu.c cpu.n cpu.k m.old m.new (is_err result) (ruled_of result) (λ (cpus : List Cpu) (s : State). of_selected (select_next_context cpu.k time spent cpus s)) }
    ensures named_below { IfOk result (λ next. NamedBelow cpu.n next.context × Ranged cpu.c cpu.n t_timed b_advanced m.new) }
{
    turn::charge_holder(m, cpu, spent)?;
    selected(m, cpu, time, spent)
}
