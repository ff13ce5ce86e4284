// What is read before the scan: the holder, and what the scan goes by.
ghost use Rattle.std.specs.Prelude.{◌≡◌, ◌<◌};
ghost use Rattle.machine.specs.Machine.{Machine, cpu_at};
ghost use Rattle.machine.specs.Encode.{encode};
ghost use Rattle.machine.specs.Shape.{Fits, Image};
ghost use Rattle.model.specs.State.{State, state_of};
ghost use Rattle.select_judge.specs.Holding.{Holding, Scanning};

use machine::CpuPlace;
use percpu::PercpuBlock;
use select_judge::{Holder, Scanner};

// The holder of CPU k, whose block is b.
pub fn holder(m: &[u64], cpu: CpuPlace, b: PercpuBlock) -> Holder
    requires image { Image cpu.c cpu.n m.now }
    requires sched_ctxt_bound { b.sched_ctxt < cpu.n }
    ensures { (M : Machine) → m.now ≡ encode M → Fits cpu.c cpu.n M → b ≡ (cpu_at M cpu.k).block → Holding result (state_of cpu.k M) }
{
    let x = numbers::index(b.sched_ctxt);
    let q = machine::load(m, cpu.c, cpu.n, x);
    select_judge::holder_of(b, q)
}

// What the scan of CPU k, whose block is b, goes by.
pub fn scanner(k: usize, time: u64, b: PercpuBlock, h: Holder) -> Scanner
    ensures scanning { (s : State) → b ≡ s.cpu.block → Holding h s → Scanning k time result s }
    ensures cpu_id_value { result.cpu_id ≡ k }
{
    let cpu_id = numbers::word(k);
    Scanner {
        cpu_id,
        time,
        idle_ctxt: b.idle_ctxt,
        sched_ctxt: b.sched_ctxt,
        current_ctxt: b.current_ctxt,
        v: b.v,
        ineligible_holder: select_judge::ineligible_holder(h),
    }
}
