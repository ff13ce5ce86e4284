// An entry judged, by value.
ghost use Rattle.std.specs.Prelude.{◌≡◌, false, ◌&&◌, not, ◌<◌, ◌≤◌, if◌then◌else◌, is_some};
ghost use Rattle.model.specs.Scan.{above, below, is_of, ineligible_min_vtime, is_eligible, judge};
ghost use Rattle.select_judge.specs.Values.{visit_of, scanner_cpu, deactivated, picked};
ghost use Rattle.context.specs.Key.{without_key};

use crate::{Scanned, Scanner, Visit};
use context::Context;
use entries::Entry;
use runnable::UpdateResult;

fn above(l: Option<u64>, n: u64) -> bool
    ensures { result ≡ above l n }
{
    match l {
        None => false,
        Some(m) => m < n,
    }
}

fn below(l: Option<u64>, n: u64) -> bool
    ensures { result ≡ below l n }
{
    match l {
        None => true,
        Some(m) => n < m,
    }
}

pub fn is_of(p: Option<Entry>, x: u64) -> bool
    ensures { result ≡ is_of p x }
{
    match p {
        None => false,
        Some(e) => e.context_ref == x,
    }
}

pub fn is_found(p: Option<Entry>) -> bool
    ensures { result ≡ is_some p }
{
    p.is_some()
}

fn ineligible_min_vtime(p: Option<Entry>, h: Option<u64>) -> Option<u64>
    ensures { result ≡ ineligible_min_vtime p h }
{
    match p {
        None => h,
        Some(e) => Some(e.vtime),
    }
}

// A blocked context leaves the queue: no slice, not active, no key.
fn deactivated(mut c: Context) -> Context
    ensures { result ≡ deactivated c }
{
    c.rem_slice = 0;
    c.is_active = false;
    c.without_key()
}

// An entry that is passed over for a late vtime.
pub fn too_late(t: Scanner, late: Option<Entry>, e: Entry) -> bool
    ensures { result ≡ (above (ineligible_min_vtime late t.ineligible_holder) e.vtime && not (is_eligible (scanner_cpu t) e)) }
{
    above(ineligible_min_vtime(late, t.ineligible_holder), e.vtime) && t.v < e.vtime
}

// A live context's entry, judged by itself.
#[tactic(auto, unfolding(model::specs::Scan::judge))]
pub fn judged(t: Scanner, q: Context, e: Entry) -> Visit
    requires cpu_id_bound { t.cpu_id < 64 }
    requires gone_value { q.gone ≡ false }
    ensures { visit_of result ≡ judge t.cpu_id t.time (scanner_cpu t) q e }
{
    if e.context_ref == t.idle_ctxt || e.context_ref == t.sched_ctxt || q.lock != 0 {
        return Visit::Pass;
    }
    let current = e.context_ref == t.current_ctxt;
    match runnable::update_runnable(q, t.cpu_id, t.time, false, current) {
        UpdateResult::Skip => Visit::Pass,
        UpdateResult::Blocked => Visit::Blocked(deactivated(q)),
        UpdateResult::CanSwitch(a) => {
            if q.addr_space == 2 {
                Visit::NoAddrSpace(a)
            } else {
                Visit::Ready(a)
            }
        }
    }
}

// The weight of an entry whose context was active.
pub fn active_weight(active: bool, weight: u64) -> u64
    ensures { (result ≡ if active then weight else 0) × (result ≤ weight) }
{
    if active { weight } else { 0 }
}

// A ready entry: the best if it is eligible, or the one of least vtime that is not.
#[tactic(auto, unfolding(crate::specs::Values::picked))]
pub fn pick(t: Scanner, mut w: Scanned, e: Entry) -> Scanned
    ensures { result ≡ picked t w e }
{
    if e.vtime <= t.v {
        w.eligible_best = Some(e);
    } else if below(
        ineligible_min_vtime(w.ineligible_best, t.ineligible_holder),
        e.vtime,
    ) {
        w.ineligible_best = Some(e);
    }
    w
}
