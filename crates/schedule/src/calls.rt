// Operations 1 to 3 on an image that refusals 1 to 8 let pass.
ghost use Rattle.std.specs.Prelude.{◌≡◌, Bool, false, ℕ, ◌+◌, ◌<◌, ◌≤◌, is_err};
ghost use Rattle.machine.specs.Machine.{Machine, cpu_at};
ghost use Rattle.machine.specs.Encode.{encode};
ghost use Rattle.machine.specs.Shape.{Image, Fits};
ghost use Rattle.model.specs.State.{State};
ghost use Rattle.model.specs.Turn.{elapsed};
ghost use Rattle.model.specs.Schedule.{ticked, tick, switch, direct_switch_to};
ghost use Rattle.stages.specs.Stage.{Stage, Ranged};
ghost use Rattle.schedule.specs.Decides.{Decides};
ghost use Rattle.numbers.specs.Limits.{max_number, max_elapsed};
ghost use Rattle.schedule.specs.Ticked.{told_of, ticked_told};

use crate::switching;
use crate::switching::Decided;
use answer::SwitchResult;
use machine::CpuPlace;
use stages::NoRoom;

// The tick is counted, and the count returned.
fn count_tick(m: &mut [u64], cpu: CpuPlace) -> u64
    requires image { Image cpu.c cpu.n m.old }
    requires ranged { Ranged cpu.c cpu.n max_number max_number m.old }
    ensures { Stage cpu.c cpu.n cpu.k m.old m.new false result (λ (s : State). ticked s) (λ (s : State). s.cpu.block.pit_ticks + 1) }
{
    let mut b = stages::load_block(m, cpu);
    let count = b.pit_ticks + 1;
    b.pit_ticks = count;
    stages::store_block(m, cpu, b);
    count
}

// The switch, where one was due.
pub fn tick(m: &mut [u64], cpu: CpuPlace, time: u64) -> Result<Option<Decided>, NoRoom>
    requires image { Image cpu.c cpu.n m.old }
    requires bounded { time ≤ max_number }
    requires ranged { Ranged cpu.c cpu.n max_number max_number m.old }
    requires k_bound { (M : Machine) → m.old ≡ encode M → Fits cpu.c cpu.n M → elapsed time (cpu_at M cpu.k) ≤ max_elapsed }
    ensures { Decides cpu.c cpu.n m.old m.new (is_err result) (ticked_told result) (λ (M : Machine). tick cpu.k time M) }
{
    let count = count_tick(m, cpu);
    if count < ticks::TICK_INTERVAL {
        return Ok(None);
    }
    let decided = switching::switch_inner(m, cpu, time)?;
    Ok(Some(decided))
}

pub fn switch(m: &mut [u64], cpu: CpuPlace, time: u64) -> Result<Decided, NoRoom>
    requires image { Image cpu.c cpu.n m.old }
    requires bounded { time ≤ max_number }
    requires ranged { Ranged cpu.c cpu.n max_number max_number m.old }
    requires k_bound { (M : Machine) → m.old ≡ encode M → Fits cpu.c cpu.n M → elapsed time (cpu_at M cpu.k) ≤ max_elapsed }
    ensures { Decides cpu.c cpu.n m.old m.new (is_err result) (told_of result) (λ (M : Machine). switch cpu.k time M) }
{
    switching::switch_inner(m, cpu, time)
}

pub fn direct_switch_to(
    m: &mut [u64],
    cpu: CpuPlace,
    time: u64,
    x: usize,
) -> Result<Decided, NoRoom>
    requires image { Image cpu.c cpu.n m.old }
    requires bounded { (x < cpu.n) × (time ≤ max_number) }
    requires ranged { Ranged cpu.c cpu.n max_number max_number m.old }
    requires k_bound { (M : Machine) → m.old ≡ encode M → Fits cpu.c cpu.n M → elapsed time (cpu_at M cpu.k) ≤ max_elapsed }
    ensures { Decides cpu.c cpu.n m.old m.new (is_err result) (told_of result) (λ (M : Machine). direct_switch_to cpu.k time x M) }
{
    let b = stages::load_block(m, cpu);
    let name = numbers::word(x);
    let own = b.sched_ctxt == name;
    if b.current_ctxt == name || switch_to::direct_switch_by(m, cpu, time, x, own)? {
        return Ok(Decided {
            result: SwitchResult::Switched,
            rule: None,
        });
    }
    switching::switch_inner(m, cpu, time)
}
