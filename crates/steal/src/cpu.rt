// What stealing changes in one CPU's block, in the image.
ghost use Rattle.std.specs.Prelude.{false, ◌+◌, ◌<◌, ◌≤◌, get_or};
ghost use Rattle.percpu.specs.Cpu.{Cpu};
ghost use Rattle.percpu.specs.With.{cpu_total_weight};
ghost use Rattle.machine.specs.Encode.{cpu_place};
ghost use Rattle.machine.specs.Shape.{Image};
ghost use Rattle.model.specs.State.{State, on_cpu};
ghost use Rattle.model.specs.Steal.{give_up, published, mark_stealable};
ghost use Rattle.stages.specs.Stage.{Staged};
ghost use Rattle.weights.specs.Weights.{max_weight};
ghost use Rattle.stages.specs.Bounds.{b_moving};
ghost use Rattle.percpu.specs.Places.{total_weight_place};

use crate::block;
use entries::Entry;
use machine::CpuPlace;
use percpu::places::BLOCK_SIZE;

pub fn give_up(m: &mut [u64], cpu: CpuPlace, e: Entry)
    requires image { Image cpu.c cpu.n m.old }
    ensures { Staged cpu.c cpu.n cpu.k m.old m.new false (λ (s : State). on_cpu (λ (p : Cpu). give_up e p) s) }
{
    let at = cpu.start();
    let end = at + BLOCK_SIZE;
    block::give_up(&mut m[at..end], e);
}

pub fn add_weight(m: &mut [u64], cpu: CpuPlace, weight: u64)
    requires image { Image cpu.c cpu.n m.old }
    requires bounded { (weight ≤ max_weight) × (get_or m.old (cpu_place cpu.n cpu.k + total_weight_place) 0 ≤ b_moving) }
    ensures { Staged cpu.c cpu.n cpu.k m.old m.new false (λ (s : State). on_cpu (λ (p : Cpu). cpu_total_weight (p.block.total_weight + weight) p) s) }
{
    let at = cpu.start();
    let end = at + BLOCK_SIZE;
    block::add_weight(&mut m[at..end], weight);
}

pub fn publish(m: &mut [u64], cpu: CpuPlace)
    requires image { Image cpu.c cpu.n m.old }
    ensures { Staged cpu.c cpu.n cpu.k m.old m.new false (λ (s : State). on_cpu (λ (p : Cpu). published p) s) }
{
    let at = cpu.start();
    let end = at + BLOCK_SIZE;
    block::publish(&mut m[at..end]);
}

pub fn publish_victim(m: &mut [u64], cpu: CpuPlace)
    requires image { Image cpu.c cpu.n m.old }
    ensures { Staged cpu.c cpu.n cpu.k m.old m.new false (λ (s : State). on_cpu (λ (p : Cpu). mark_stealable (published p)) s) }
{
    let at = cpu.start();
    let end = at + BLOCK_SIZE;
    block::publish_victim(&mut m[at..end]);
}
