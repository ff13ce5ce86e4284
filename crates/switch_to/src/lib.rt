// `switch_to`: the current context leaves the CPU and another comes.
// In every function m is an image (crate machine says why it stays apart), and cpu the place in it of the CPU that decides.
#![tactic(auto)]

mod direct;
mod records;

ghost use Rattle.std.specs.Prelude.{◌≡◌, Bool, false, ℕ, ◌<◌, ◌≤◌, is_err};
ghost use Rattle.machine.specs.Shape.{ContextFits, Image};
ghost use Rattle.model.specs.State.{State};
ghost use Rattle.model.specs.SwitchTo.{switch_to};
ghost use Rattle.stages.specs.Stage.{Staged, Ranged};
ghost use Rattle.stages.specs.Read.{BlockFits};
ghost use Rattle.switch_to.specs.Switched.{saved_by, entered, switched_by};
ghost use Rattle.numbers.specs.Limits.{max_number};
ghost use Rattle.stages.specs.Bounds.{t_handed, b_advanced};

use context::Context;
pub use direct::{direct_switch_by, try_direct_switch_back};
use machine::CpuPlace;
use percpu::PercpuBlock;
use stages::NoRoom;

// There may be no room on the local list.
fn save(m: &mut [u64], cpu: CpuPlace, y: usize, b: PercpuBlock, q: Context) -> Result<(), NoRoom>
    requires image { Image cpu.c cpu.n m.old }
    requires bounded { y < cpu.n }
    ensures { Staged cpu.c cpu.n cpu.k m.old m.new (is_err result) (λ (s : State). saved_by y b q s) }
{
    if records::would_be_lost(b, q) {
        return stages::push_local(m, cpu, y);
    }
    Ok(())
}

fn enter(m: &mut [u64], cpu: CpuPlace, time: u64, x: usize, b: PercpuBlock)
    requires image { Image cpu.c cpu.n m.old }
    requires bounded { x < cpu.n }
    requires block_fits { BlockFits cpu.n b }
    ensures { Staged cpu.c cpu.n cpu.k m.old m.new false (λ (s : State). entered cpu.k time x b s) }
{
    let q = machine::load(m, cpu.c, cpu.n, x);
    let after = records::come(q, cpu.k, time);
    stages::store_context(m, cpu, x, after);
    let block = records::become_current(b, x, after);
    stages::store_block(m, cpu, block);
}

// From y, whose record is q, to x. There may be no room for y on the local list.
fn switch_from(
    m: &mut [u64],
    cpu: CpuPlace,
    time: u64,
    x: usize,
    y: usize,
    b: PercpuBlock,
    q: Context,
) -> Result<(), NoRoom>
    requires image { Image cpu.c cpu.n m.old }
    requires bounded { (x < cpu.n) × (y < cpu.n) }
    requires block_fits { BlockFits cpu.n b }
    requires context_fits { ContextFits cpu.c q }
    requires active_cpu_time_bound { (q.active_cpu_time ≤ t_handed) × (time ≤ max_number) }
    ensures { Staged cpu.c cpu.n cpu.k m.old m.new (is_err result) (λ (s : State). switched_by cpu.k time x y b q s) }
{
    save(m, cpu, y, b, q)?;
    let after = records::leave(q, b, time);
    stages::store_context(m, cpu, y, after);
    enter(m, cpu, time, x, b);
    Ok(())
}

// There may be no room for the context that is left on the local list.
pub fn switch_to(m: &mut [u64], cpu: CpuPlace, time: u64, x: usize) -> Result<(), NoRoom>
    requires image { Image cpu.c cpu.n m.old }
    requires bounded { (x < cpu.n) × (time ≤ max_number) }
    requires ranged { Ranged cpu.c cpu.n t_handed b_advanced m.old }
    ensures { Staged cpu.c cpu.n cpu.k m.old m.new (is_err result) (λ (s : State). switch_to cpu.k time x s) }
{
    let b = stages::load_block(m, cpu);
    let y = numbers::index(b.current_ctxt);
    let q = machine::load(m, cpu.c, cpu.n, y);
    switch_from(m, cpu, time, x, y, b, q)
}
