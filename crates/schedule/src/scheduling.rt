// `schedule`: a decision.
ghost use Rattle.std.specs.Prelude.{◌≡◌, false, List, ◌<◌, ◌≤◌, is_err, IfOk};
ghost use Rattle.percpu.specs.Cpu.{Cpu};
ghost use Rattle.machine.specs.Shape.{Image};
ghost use Rattle.model.specs.State.{State};
ghost use Rattle.model.specs.Schedule.{schedule};
ghost use Rattle.stages.specs.Stage.{Staged, Ranged};
ghost use Rattle.schedule.specs.Begun.{CanBegin};
ghost use Rattle.schedule.specs.Part.{ruled_of, of_scheduled, Part};
ghost use Rattle.schedule.specs.Named.{NamedBelow};
ghost use Rattle.schedule.specs.Switched.{handed};
ghost use Rattle.numbers.specs.Limits.{max_number};
ghost use Rattle.stages.specs.Bounds.{t_timed, t_handed, b_advanced};

use crate::selecting::Next;
use crate::{beginning, selecting};
use machine::CpuPlace;
use stages::NoRoom;

fn hand_over(m: &mut [u64], cpu: CpuPlace, time: u64, was_idle: bool, next: Option<usize>)
    requires image { Image cpu.c cpu.n m.old }
    requires bounded { (time ≤ max_number) × NamedBelow cpu.n next }
    requires ranged { Ranged cpu.c cpu.n t_timed b_advanced m.old }
    ensures staged { Staged cpu.c cpu.n cpu.k m.old m.new false (λ (s : State). handed time was_idle next s) }
    ensures ranged_2 { Ranged cpu.c cpu.n t_handed b_advanced m.new }
{
    match next {
        None => (),
        Some(x) => handover::hand_over(m, cpu, time, was_idle, x),
    }
}

pub fn schedule(m: &mut [u64], cpu: CpuPlace, time: u64) -> Result<Next, NoRoom>
    requires image { Image cpu.c cpu.n m.old }
    requires bounded { time ≤ max_number }
    requires can_begin { CanBegin cpu.c cpu.n cpu.k time m.old }
    ensures part { Part cpu.c cpu.n cpu.k m.old m.new (is_err result) (ruled_of result) (λ (cpus : List Cpu) (s : State). of_scheduled (schedule cpu.k time cpus s)) }
    ensures named_below { IfOk result (λ next. NamedBelow cpu.n next.context × Ranged cpu.c cpu.n t_handed b_advanced m.new) }
{
    let turn = beginning::begin(m, cpu, time)?;
    let next = selecting::select_next_context(m, cpu, time, turn.spent)?;
    hand_over(m, cpu, time, turn.was_idle, next.context);
    Ok(next)
}
