// How a decision begins: it is counted, wake-ups are served, times are kept.
ghost use Rattle.std.specs.Prelude.{◌≡◌, Bool, false, ℕ, ◌<◌, ◌≤◌, is_err, IfOk};
ghost use Rattle.machine.specs.Shape.{Image};
ghost use Rattle.model.specs.State.{State};
ghost use Rattle.model.specs.Turn.{before_selection};
ghost use Rattle.stages.specs.Stage.{Stage, Ranged};
ghost use Rattle.turn.specs.Turn.{turn_of};
ghost use Rattle.schedule.specs.Begun.{CanBegin, turn_in};
ghost use Rattle.ticks.specs.Ticks.{max_ticks};
ghost use Rattle.numbers.specs.Limits.{max_number};
ghost use Rattle.stages.specs.Bounds.{t_timed, b_woken};

use machine::CpuPlace;
use stages::NoRoom;
use turn::Turn;
use wakeup_judge::Wakeup;

// A wake-up may find no room.
pub fn begin(m: &mut [u64], cpu: CpuPlace, time: u64) -> Result<Turn, NoRoom>
    requires image { Image cpu.c cpu.n m.old }
    requires bounded { time ≤ max_number }
    requires can_begin { CanBegin cpu.c cpu.n cpu.k time m.old }
    ensures stage { Stage cpu.c cpu.n cpu.k m.old m.new (is_err result) (turn_in result) (λ (s : State). before_selection time s) (λ (s : State). turn_of time s.cpu) }
    ensures ticks_le_max_ticks { IfOk result (λ turn. (turn.spent.ticks ≤ max_ticks) × Ranged cpu.c cpu.n t_timed b_woken m.new) }
{
    turn::count_switch(m, cpu);
    let none = Wakeup {
        wake: None,
        context_ref: 0,
    };
    let mut wakeups = [none; wakeup_read::MAX_WAKEUPS];
    wakeup::serve_wakeups(m, cpu, time, &mut wakeups)?;
    Ok(turn::times(m, cpu, time))
}
