// The due timers and the local list taken out. A timer whose context cannot be read stays.
ghost use Rattle.std.specs.Prelude.{◌≡◌, false, [], ◌+◌, ◌<◌, ◌≤◌, get_or};
ghost use Rattle.columns.specs.Columns.{remove_at};
ghost use Rattle.percpu.specs.Cpu.{Cpu};
ghost use Rattle.percpu.specs.With.{cpu_timers, cpu_local_wakeup_list};
ghost use Rattle.percpu.specs.Places.{timers_count};
ghost use Rattle.machine.specs.Machine.{Machine, context_at};
ghost use Rattle.machine.specs.Encode.{encode, cpu_place};
ghost use Rattle.machine.specs.Shape.{Image, Fits};
ghost use Rattle.model.specs.State.{State, on_cpu};
ghost use Rattle.model.specs.Wakeup.{drained};
ghost use Rattle.stages.specs.Stage.{Staged};
ghost use Rattle.wakeup_judge.specs.Judge.{unreadable_at};
ghost use Rattle.wakeup_read.specs.Read.{timer_taken, timers_drained};
ghost use Rattle.numbers.specs.Limits.{max_number};

use entries::Timer;
use machine::CpuPlace;
use percpu::places::BLOCK_SIZE;
use wakeup_lists::WakeupList;

// The timer's context is alive and cannot be read.
fn is_unreadable(m: &[u64], c: usize, n: usize, sched: u64, t: Timer) -> bool
    requires image { Image c n m.now }
    requires context_ref_bound { t.context_ref < n }
    ensures { (M : Machine) → m.now ≡ encode M → Fits c n M → result ≡ unreadable_at sched t (context_at M.contexts t.context_ref) }
{
    let Some(x) = machine::look_up(m, c, n, t.context_ref) else {
        return false;
    };
    let q = machine::load(m, c, n, x);
    wakeup_judge::is_unreadable(sched, t, q)
}

fn remove_timer(m: &mut [u64], cpu: CpuPlace, i: usize)
    requires image { Image cpu.c cpu.n m.old }
    requires bounded { (i < get_or m.old (cpu_place cpu.n cpu.k + timers_count) 0) }
    ensures { Staged cpu.c cpu.n cpu.k m.old m.new false (λ (s : State). on_cpu (λ (p : Cpu). cpu_timers (remove_at i p.timers) p) s) }
{
    let at = cpu.start();
    let end = at + BLOCK_SIZE;
    timers::remove(&mut m[at..end], i);
}

// Timer i taken out, unless its context cannot be read.
fn take_timer(m: &mut [u64], cpu: CpuPlace, i: usize)
    requires image { Image cpu.c cpu.n m.old }
    requires bounded { (i < get_or m.old (cpu_place cpu.n cpu.k + timers_count) 0) }
    ensures { Staged cpu.c cpu.n cpu.k m.old m.new false (λ (s : State). timer_taken i s) }
{
    let b = stages::load_block(m, cpu);
    let t = crate::timer(m, cpu, i);
    if is_unreadable(m, cpu.c, cpu.n, b.sched_ctxt, t) {
        return;
    }
    remove_timer(m, cpu, i);
}

// From the last due timer to the first, so that a place is one of the set as it was.
fn drain_timers(m: &mut [u64], cpu: CpuPlace, time: u64)
    requires image { Image cpu.c cpu.n m.old }
    requires bounded { time ≤ max_number }
    ensures { Staged cpu.c cpu.n cpu.k m.old m.new false (λ (s : State). timers_drained time s) }
{
    for i in (0..crate::due(m, cpu, time)).rev() {
        take_timer(m, cpu, i);
    }
}

fn clear_local(m: &mut [u64], cpu: CpuPlace)
    requires image { Image cpu.c cpu.n m.old }
    ensures { Staged cpu.c cpu.n cpu.k m.old m.new false (λ (s : State). on_cpu (λ (p : Cpu). cpu_local_wakeup_list [] p) s) }
{
    let at = cpu.start();
    let end = at + BLOCK_SIZE;
    wakeup_lists::clear(&mut m[at..end], WakeupList::Local);
}

pub fn drain(m: &mut [u64], cpu: CpuPlace, time: u64)
    requires image { Image cpu.c cpu.n m.old }
    requires bounded { time ≤ max_number }
    ensures { Staged cpu.c cpu.n cpu.k m.old m.new false (λ (s : State). drained time s) }
{
    drain_timers(m, cpu, time);
    clear_local(m, cpu);
}
