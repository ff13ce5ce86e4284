// The records that a switch changes, by value.
ghost use Rattle.std.specs.Prelude.{◌≡◌, Bool, ℕ, ◌<◌, ◌≤◌, if◌then◌else◌};
ghost use Rattle.cpu_stats.specs.declared.CpuState.TheVariants.{Kernel, User};
ghost use Rattle.model.specs.SwitchTo.{comes};
ghost use Rattle.switch_to.specs.Switched.{is_lost, left_by, current_by};
ghost use Rattle.numbers.specs.Limits.{max_number};
ghost use Rattle.stages.specs.Bounds.{t_handed};

use context::Context;
use cpu_stats::CpuState;
use percpu::PercpuBlock;

// Runnable, left, without the slice and without a key: no list has it.
pub fn would_be_lost(b: PercpuBlock, q: Context) -> bool
    ensures { result ≡ is_lost b q }
{
    b.sched_ctxt != b.current_ctxt && !q.has_queue_key && q.status.is_runnable()
}

pub fn leave(mut q: Context, b: PercpuBlock, time: u64) -> Context
    requires { (q.active_cpu_time ≤ t_handed) × (time ≤ max_number) }
    ensures { result ≡ left_by time b q }
{
    q.running = false;
    q.inside_syscall = b.inside_syscall;
    if b.current_ctxt == b.idle_ctxt {
        return q;
    }
    let elapsed = time.saturating_sub(q.switch_time);
    q.active_cpu_time = q.active_cpu_time + elapsed;
    q
}

pub fn come(mut q: Context, k: usize, time: u64) -> Context
    requires { k < 4 }
    ensures { result ≡ comes k time q }
{
    q.running = true;
    q.cpu_id = numbers::word(k) + 1;
    q.switch_time = time;
    q
}

fn state_in(userspace: bool) -> CpuState
    ensures { result ≡ (if userspace then User else Kernel) }
{
    if userspace {
        return CpuState::User;
    }
    CpuState::Kernel
}

pub fn become_current(mut b: PercpuBlock, x: usize, q: Context) -> PercpuBlock
    ensures { result ≡ current_by x q b }
{
    b.stats.set_state(state_in(q.userspace));
    b.current_ctxt = numbers::word(x);
    b.inside_syscall = q.inside_syscall;
    b.being_sigkilled = q.being_sigkilled;
    b
}
