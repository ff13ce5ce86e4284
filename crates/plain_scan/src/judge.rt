// An entry judged by itself, and against the best ones so far.
// Its own code and not select_judge's: the plain engine shares no function of a stage with the fast one.
ghost use Rattle.std.specs.Prelude.{◌≡◌, false, ◌&&◌, not, ◌<◌, ◌≤◌, if◌then◌else◌, is_some};
ghost use Rattle.model.specs.Scan.{above, below, is_of, ineligible_min_vtime, is_eligible, by_update, judge};
ghost use Rattle.select_judge.specs.Values.{visit_of, scanner_cpu, deactivated};

use context::Context;
use entries::Entry;
use runnable::UpdateResult;
use select_judge::{Scanner, Visit};

// Earlier than a late holder's vtime.
fn is_earlier_than(h: Option<u64>, v: u64) -> bool
    ensures { result ≡ below h v }
{
    match h {
        None => true,
        Some(m) => v < m,
    }
}

// Earlier than the least late vtime so far.
pub fn is_earlier(late: Option<Entry>, h: Option<u64>, v: u64) -> bool
    ensures { result ≡ below (ineligible_min_vtime late h) v }
{
    match late {
        None => is_earlier_than(h, v),
        Some(b) => v < b.vtime,
    }
}

// Later than a late holder's vtime.
fn is_later_than(h: Option<u64>, v: u64) -> bool
    ensures { result ≡ above h v }
{
    match h {
        None => false,
        Some(m) => m < v,
    }
}

// Later than the least late vtime so far.
fn is_after(late: Option<Entry>, h: Option<u64>, v: u64) -> bool
    ensures { result ≡ above (ineligible_min_vtime late h) v }
{
    match late {
        None => is_later_than(h, v),
        Some(b) => b.vtime < v,
    }
}

// So late that it is passed over.
pub fn is_later(t: Scanner, late: Option<Entry>, e: Entry) -> bool
    ensures { result ≡ (above (ineligible_min_vtime late t.ineligible_holder) e.vtime && not (is_eligible (scanner_cpu t) e)) }
{
    is_after(late, t.ineligible_holder, e.vtime) && t.v < e.vtime
}

// An entry was found.
pub fn is_over(best: Option<Entry>) -> bool
    ensures { result ≡ is_some best }
{
    best.is_some()
}

// The best late entry so far keeps the lock of context x.
pub fn locks(late: Option<Entry>, x: u64) -> bool
    ensures { result ≡ is_of late x }
{
    match late {
        None => false,
        Some(e) => e.context_ref == x,
    }
}

// The weight that leaves with a blocked context's entry: only an active one counts in the total.
pub fn weight_of(active: bool, weight: u64) -> u64
    ensures { (result ≡ if active then weight else 0) × (result ≤ weight) }
{
    if active { weight } else { 0 }
}

// A blocked context leaves the queue: no slice, not active, no key.
fn stopped(mut q: Context) -> Context
    ensures { result ≡ deactivated q }
{
    q.rem_slice = 0;
    q.is_active = false;
    q.without_key()
}

// By what `update_runnable` says of q.
fn by_update(q: Context, u: UpdateResult) -> Visit
    ensures { visit_of result ≡ by_update q u }
{
    match u {
        UpdateResult::Skip => Visit::Pass,
        UpdateResult::Blocked => Visit::Blocked(stopped(q)),
        UpdateResult::CanSwitch(a) => {
            if q.addr_space == 2 {
                Visit::NoAddrSpace(a)
            } else {
                Visit::Ready(a)
            }
        }
    }
}

// What an entry is to the scan, whose context's record is q.
#[tactic(auto, unfolding(model::specs::Scan::judge))]
pub fn visit(t: Scanner, q: Context, e: Entry) -> Visit
    requires { t.cpu_id < 64 }
    ensures { visit_of result ≡ judge t.cpu_id t.time (scanner_cpu t) q e }
{
    let x = e.context_ref;
    if q.gone {
        return Visit::Gone;
    }
    if x == t.idle_ctxt || x == t.sched_ctxt || q.lock != 0 {
        return Visit::Pass;
    }
    by_update(
        q,
        runnable::update_runnable(q, t.cpu_id, t.time, false, x == t.current_ctxt),
    )
}
