// After the choice and the stealing: V advances, a runnable holder that lost goes back, and the queue is published as stealable.
ghost use Rattle.std.specs.Prelude.{◌≡◌, Bool, ◌||◌, ℕ, ◌<◌, ◌≤◌, is_err};
ghost use Rattle.machine.specs.Shape.{Image};
ghost use Rattle.model.specs.State.{State};
ghost use Rattle.stages.specs.Stage.{Staged, Ranged};
ghost use Rattle.handover.specs.Handed.{sent_back_by, settled_by};
ghost use Rattle.stages.specs.Bounds.{t_timed, b_stolen, max_gain};

use crate::{advancing, requeuing};
use machine::CpuPlace;
use stages::NoRoom;

fn send_back(m: &mut [u64], cpu: CpuPlace, won: bool, runs: bool) -> Result<(), NoRoom>
    requires image { Image cpu.c cpu.n m.old }
    ensures { Staged cpu.c cpu.n cpu.k m.old m.new (is_err result) (λ (s : State). sent_back_by won runs s) }
{
    if won && runs {
        return requeuing::requeue(m, cpu);
    }
    Ok(())
}

// `won`: a context won; `runs`: the holder is runnable.
pub fn settle(
    m: &mut [u64],
    cpu: CpuPlace,
    elapsed_ticks: u64,
    won: bool,
    runs: bool,
) -> Result<(), NoRoom>
    requires image { Image cpu.c cpu.n m.old }
    requires bounded { elapsed_ticks ≤ max_gain }
    requires ranged { Ranged cpu.c cpu.n t_timed b_stolen m.old }
    ensures { Staged cpu.c cpu.n cpu.k m.old m.new (is_err result) (λ (s : State). settled_by won runs elapsed_ticks s) }
{
    advancing::advance(m, cpu, elapsed_ticks, won || runs);
    send_back(m, cpu, won, runs)?;
    advancing::mark_stealable(m, cpu);
    Ok(())
}
