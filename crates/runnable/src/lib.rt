// `update_runnable` (context/switch.rs).
#![tactic(auto)]

ghost use Rattle.std.specs.Prelude.{◌≡◌, ◌&&◌, not, ℕ, ◌<◌, ◌≤◌};
ghost use Rattle.runnable.specs.Runnable.{update_runnable, wake_has_come};

use context::Context;

// what `update_runnable` says; the record where it can be switched to, woken if its wake has come
#[derive(Clone, Copy)]
pub enum UpdateResult {
    CanSwitch(Context),
    Skip,
    Blocked,
}

// One test to branch on: `mark` is set, and the context is not this CPU's own.
fn elsewhere(mark: bool, own: bool) -> bool
    ensures { result ≡ (mark && not own) }
{
    mark && !own
}

// Soft-blocked with a wake that has come.
fn is_due(c: Context, schedule_time: u64) -> bool
    ensures { result ≡ wake_has_come schedule_time c }
{
    c.status.is_soft_blocked() && c.has_wake && c.wake <= schedule_time
}

pub fn update_runnable(
    c: Context,
    cpu_id: u64,
    schedule_time: u64,
    next_is_current_sched: bool,
    next_is_current_ctxt: bool,
) -> UpdateResult
    requires { cpu_id < 64 }
    ensures { result ≡ update_runnable cpu_id schedule_time next_is_current_sched next_is_current_ctxt c }
{
    if elsewhere(c.running, next_is_current_ctxt) {
        return UpdateResult::Skip;
    }
    if elsewhere(c.currently_scheduled, next_is_current_sched) {
        return UpdateResult::Skip;
    }
    if !cpu_set::contains(c.sched_affinity, cpu_id) {
        return UpdateResult::Skip;
    }
    if is_due(c, schedule_time) {
        let mut awake = c;
        awake.wake_up();
        return UpdateResult::CanSwitch(awake);
    }
    if c.status.is_runnable() {
        return UpdateResult::CanSwitch(c);
    }
    UpdateResult::Blocked
}
