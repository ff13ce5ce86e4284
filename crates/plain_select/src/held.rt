// The holder as the choice sees it.
// Its own code and not select_judge's: the plain engine shares no function of a stage with the fast one.
ghost use Rattle.std.specs.Prelude.{◌≡◌};
ghost use Rattle.model.specs.State.{State, holder};
ghost use Rattle.model.specs.Choice.{ineligible_holder};
ghost use Rattle.select_judge.specs.Holding.{Holding};

use context::Context;
use percpu::PercpuBlock;
use select_judge::Holder;

// The holder's record is q, its CPU's block b.
pub fn holder_in(b: PercpuBlock, q: Context) -> Holder
    ensures { (s : State) → b ≡ s.cpu.block → q ≡ holder s → Holding result s }
{
    let runnable = b.sched_ctxt != b.idle_ctxt && q.status.is_runnable();
    Holder {
        runnable,
        eligible: runnable && q.vtime <= b.v,
        vtime: q.vtime,
        vd: q.vd,
        rem_slice: q.rem_slice,
        v: b.v,
    }
}

// The vtime of a runnable holder that is late.
pub fn late_holder(h: Holder) -> Option<u64>
    ensures { (s : State) → Holding h s → result ≡ ineligible_holder s }
{
    if h.runnable && !h.eligible {
        Some(h.vtime)
    } else {
        None
    }
}
