// The holder as the choice sees it, by value.
ghost use Rattle.std.specs.Prelude.{◌≡◌};
ghost use Rattle.model.specs.State.{State, holder};
ghost use Rattle.model.specs.Choice.{ineligible_holder};
ghost use Rattle.select_judge.specs.Holding.{Holding};

use crate::Holder;
use context::Context;
use percpu::PercpuBlock;

// The holder, whose record is q, of a CPU whose block is b.
pub fn holder_of(b: PercpuBlock, q: Context) -> Holder
    ensures { (s : State) → b ≡ s.cpu.block → q ≡ holder s → Holding result s }
{
    let runnable = b.sched_ctxt != b.idle_ctxt && q.status.is_runnable();
    Holder {
        runnable,
        eligible: runnable && q.vtime <= b.v,
        vtime: q.vtime,
        vd: q.vd,
        rem_slice: q.rem_slice,
        v: b.v,
    }
}

// The vtime of a runnable holder that is not eligible.
pub fn ineligible_holder(h: Holder) -> Option<u64>
    ensures { (s : State) → Holding h s → result ≡ ineligible_holder s }
{
    if h.runnable && !h.eligible {
        Some(h.vtime)
    } else {
        None
    }
}
