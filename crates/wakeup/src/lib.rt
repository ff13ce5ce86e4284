// The wake-up stage of `schedule` (context/switch.rs): due timers and the local list.
// In every function m is an image (crate machine says why it stays apart), and cpu the place in it of the CPU that decides.
// Where a function finds no room the image is of no interest.
#![tactic(auto)]

mod enter;

ghost use Rattle.std.specs.Prelude.{◌≡◌, map, ◌<◌, ◌≤◌, length, is_err};
ghost use Rattle.columns.specs.Common.{fold};
ghost use Rattle.machine.specs.Machine.{Machine, context_at};
ghost use Rattle.machine.specs.Encode.{encode};
ghost use Rattle.machine.specs.Shape.{Fits, Image};
ghost use Rattle.model.specs.State.{State};
ghost use Rattle.model.specs.Wakeup.{put_back, wake_as, serve_wakeup, serve_wakeups};
ghost use Rattle.stages.specs.Stage.{Staged, Ranged};
ghost use Rattle.wakeup_judge.specs.Judge.{wakeup_of, result_of, judged};
ghost use Rattle.wakeup_read.specs.Read.{max_wakeups};
ghost use Rattle.wakeup.specs.Paced.{Paced, ResultFits, Named};
ghost use Rattle.numbers.specs.Limits.{max_number};
ghost use Rattle.stages.specs.Bounds.{t_counted, b_waking};

use enter::enter_queue;
use entries::Timer;
use machine::CpuPlace;
use percpu::PercpuBlock;
use stages::NoRoom;
use wakeup_judge::{Wakeup, WakeupResult};
use wakeup_read::MAX_WAKEUPS;

// A context that is locked is tried again at the next decision.
fn put_again(m: &mut [u64], cpu: CpuPlace, w: Wakeup) -> Result<(), NoRoom>
    requires image { Image cpu.c cpu.n m.old }
    requires bounded { w.context_ref < cpu.n }
    ensures { Staged cpu.c cpu.n cpu.k m.old m.new (is_err result) (λ (s : State). put_back w.wake w.context_ref s) }
{
    match w.wake {
        Some(wake) => {
            let t = Timer {
                wake,
                context_ref: w.context_ref,
            };
            stages::insert_timer(m, cpu, t)
        }
        None => {
            let x = numbers::index(w.context_ref);
            stages::push_local(m, cpu, x)
        }
    }
}

fn serve_as(m: &mut [u64], cpu: CpuPlace, w: Wakeup, r: WakeupResult) -> Result<(), NoRoom>
    requires image { Image cpu.c cpu.n m.old }
    requires bounded { (w.context_ref < cpu.n) × ResultFits cpu.c r }
    requires paced { Paced cpu.c cpu.n cpu.k max_number b_waking m.old }
    ensures { Staged cpu.c cpu.n cpu.k m.old m.new (is_err result) (λ (s : State). wake_as s (wakeup_of w) (result_of r)) }
{
    let x = numbers::index(w.context_ref);
    match r {
        WakeupResult::Dropped => Ok(()),
        WakeupResult::Locked => put_again(m, cpu, w),
        WakeupResult::WokenOnly(q) => {
            stages::store_context(m, cpu, x, q);
            Ok(())
        }
        WakeupResult::Entered(q) => enter_queue(m, cpu, x, q),
    }
}

// What a wake-up comes to as its turn comes; b is the block's scalars.
fn verdict(m: &[u64], c: usize, n: usize, b: PercpuBlock, w: Wakeup) -> WakeupResult
    requires image { Image c n m.now }
    requires context_ref_bound { w.context_ref < n }
    ensures { (M : Machine) → m.now ≡ encode M → Fits c n M → result ≡ judged b.current_ctxt b.sched_ctxt w (context_at M.contexts w.context_ref) }
{
    if w.context_ref == b.sched_ctxt {
        return WakeupResult::Dropped;
    }
    let Some(x) = machine::look_up(m, c, n, w.context_ref) else {
        return WakeupResult::Dropped;
    };
    let q = machine::load(m, c, n, x);
    wakeup_judge::judge(b.current_ctxt, b.sched_ctxt, w, q)
}

fn serve_one(m: &mut [u64], cpu: CpuPlace, w: Wakeup) -> Result<(), NoRoom>
    requires image { Image cpu.c cpu.n m.old }
    requires bounded { w.context_ref < cpu.n }
    requires paced { Paced cpu.c cpu.n cpu.k max_number b_waking m.old }
    ensures { Staged cpu.c cpu.n cpu.k m.old m.new (is_err result) (λ (s : State). serve_wakeup s (wakeup_of w)) }
{
    let b = stages::load_block(m, cpu);
    let r = verdict(m, cpu.c, cpu.n, b, w);
    serve_as(m, cpu, w, r)
}

// The wake-ups in order.
fn serve_all(m: &mut [u64], wakeups: &[Wakeup], cpu: CpuPlace) -> Result<(), NoRoom>
    requires image { Image cpu.c cpu.n m.old }
    requires bounded { (length wakeups.now ≤ max_wakeups) × Named cpu.n (map wakeup_of wakeups.now) }
    requires paced { Paced cpu.c cpu.n cpu.k max_number max_number m.old }
    ensures { Staged cpu.c cpu.n cpu.k m.old m.new (is_err result) (λ (s : State). fold serve_wakeup s (map wakeup_of wakeups.now)) }
{
    for w in wakeups {
        serve_one(m, cpu, *w)?;
    }
    Ok(())
}

// The whole stage; d is a scratch.
pub fn serve_wakeups(
    m: &mut [u64],
    cpu: CpuPlace,
    time: u64,
    d: &mut [Wakeup; MAX_WAKEUPS],
) -> Result<(), NoRoom>
    requires image { Image cpu.c cpu.n m.old }
    requires bounded { time ≤ max_number }
    requires ranged { Ranged cpu.c cpu.n t_counted max_number m.old }
    ensures { Staged cpu.c cpu.n cpu.k m.old m.new (is_err result) (λ (s : State). serve_wakeups time s) }
{
    let len = wakeup_read::read_wakeups(m, d, cpu, time);
    wakeup_read::drain(m, cpu, time);
    serve_all(m, &d[..len], cpu)
}
