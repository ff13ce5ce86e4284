// Refusals 6 to 8 of operations 1 to 3.
// In every function m is the image of a machine of c CPUs and n contexts (crate machine says why the three stay apart).
#![tactic(auto)]

ghost use Rattle.std.specs.Prelude.{◌≡◌, Bool, true, false, not, ◌&&◌, ℕ, ◌-◌, ◌<◌, ◌≤◌, ltb, eqb};
ghost use Rattle.machine.specs.Machine.{Machine};
ghost use Rattle.machine.specs.Encode.{encode};
ghost use Rattle.machine.specs.Shape.{Image, Fits};
ghost use Rattle.admission.specs.Refusals.{is_locked, is_late, decision_locked, decision_refusal, direct_refusal};
ghost use Rattle.numbers.specs.Limits.{max_elapsed};
ghost use Rattle.refusal.specs.Number.{refusal_of};

use context::Context;
use machine::CpuPlace;
use percpu::PercpuBlock;
use refusal::Refusal;

#[tactic(auto, unfolding(crate::specs::Refusals::is_locked))]
fn is_locked(p: PercpuBlock, current: Context, sched: Context, idle: Context) -> bool
    ensures { result ≡ is_locked p current sched idle }
{
    p.queue_locked
        || current.lock != 0
        || sched.lock != 0
        || idle.lock != 0
        || (p.current_ctxt != p.sched_ctxt && sched.addr_space == 2)
}

fn is_late(time: u64, since: u64) -> bool
    ensures { result ≡ ltb max_elapsed (time - since) }
{
    numbers::MAX_ELAPSED < time.saturating_sub(since)
}

// Another than the idle context is switched to while the idle context is current.
fn leaves_idle(p: PercpuBlock, x: u64) -> bool
    ensures { result ≡ (eqb p.current_ctxt p.idle_ctxt && not (eqb x p.current_ctxt)) }
{
    p.current_ctxt == p.idle_ctxt && x != p.current_ctxt
}

fn decision_locked(m: &[u64], cpu: CpuPlace) -> bool
    requires image { Image cpu.c cpu.n m.now }
    ensures { (M : Machine) → m.now ≡ encode M → Fits cpu.c cpu.n M → result ≡ decision_locked M cpu.k }
{
    let p = stages::load_block(m, cpu);
    let current = machine::load(m, cpu.c, cpu.n, numbers::index(p.current_ctxt));
    let sched = machine::load(m, cpu.c, cpu.n, numbers::index(p.sched_ctxt));
    let idle = machine::load(m, cpu.c, cpu.n, numbers::index(p.idle_ctxt));
    is_locked(p, current, sched, idle)
}

#[tactic(auto, unfolding(crate::specs::Refusals::decision_refusal))]
pub fn check_decision(m: &[u64], cpu: CpuPlace, time: u64) -> Result<(), Refusal>
    requires image { Image cpu.c cpu.n m.now }
    ensures { (M : Machine) → m.now ≡ encode M → Fits cpu.c cpu.n M → refusal_of result ≡ decision_refusal M cpu.k time }
{
    if decision_locked(m, cpu) {
        return Err(Refusal::Lock);
    }
    let p = stages::load_block(m, cpu);
    if is_late(time, p.schedule_time) {
        return Err(Refusal::Late);
    }
    Ok(())
}

#[tactic(auto, unfolding(crate::specs::Refusals::direct_refusal))]
pub fn check_direct(m: &[u64], cpu: CpuPlace, time: u64, x: usize) -> Result<(), Refusal>
    requires image { Image cpu.c cpu.n m.now }
    requires bounded { x < cpu.n }
    ensures { (M : Machine) → m.now ≡ encode M → Fits cpu.c cpu.n M → refusal_of result ≡ direct_refusal M cpu.k time x }
{
    if decision_locked(m, cpu) {
        return Err(Refusal::Lock);
    }
    let q = machine::load(m, cpu.c, cpu.n, x);
    if q.lock != 0 || q.addr_space == 2 {
        return Err(Refusal::Lock);
    }
    let p = stages::load_block(m, cpu);
    if leaves_idle(p, numbers::word(x)) {
        return Err(Refusal::Idle);
    }
    if is_late(time, p.schedule_time) {
        return Err(Refusal::Late);
    }
    Ok(())
}
