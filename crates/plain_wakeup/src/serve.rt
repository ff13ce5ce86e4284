// One wake-up served.
ghost use Rattle.std.specs.Prelude.{◌≡◌, false, ◌&&◌, ◌<◌, ◌≤◌};
ghost use Rattle.numbers.specs.Limits.{max_number, half_range};
ghost use Rattle.entries.specs.Order.{is_due};
ghost use Rattle.model.specs.Wakeup.{is_live_timer, woken_by};
ghost use Rattle.plain_model.specs.Wakeup.{put_back, without_old_key, enter, serve_wakeup};
ghost use Rattle.plain_lists.specs.Lists.{entries_of, Sized, Stands};
ghost use Rattle.plain_state.specs.States.{state_in, Sound, Became, Tracks};
ghost use Rattle.stages.specs.Bounds.{b_waking};
ghost use Rattle.wakeup_judge.specs.Judge.{Enterable};
ghost use Rattle.plain_wakeup.specs.Wakeups.{wake_of, wakeup_of, made_active, joined, woken_as, timer_step, name_step, Wakeable};

use crate::judge;
use crate::judge::Wakeup;
use context::Context;
use entries::Timer;
use plain_lists::Queue;
use plain_state::State;

// A context that is locked is tried again at the next decision.
fn put_back(s: State, n: usize, w: Wakeup) -> State
    requires { Sound n s }
    ensures { Tracks n result (put_back (wake_of w) w.context_ref (state_in n s)) }
{
    match w.wake {
        Some(wake) => {
            let t = Timer {
                wake,
                context_ref: w.context_ref,
            };
            s.insert_timer(n, t)
        }
        None => s.push_local(n, w.context_ref),
    }
}

// Without the key that the context had.
fn without_old_key(q: Queue, c: Context) -> Queue
    requires { Sized q }
    ensures { Stands result (without_old_key c (entries_of q)) }
{
    if c.has_queue_key {
        q.leave_out(c.queue_key())
    } else {
        q
    }
}

// The context counts in the total weight, and its old key leaves the queue.
fn made_active(mut s: State, n: usize, c: Context) -> State
    requires { (Sound n s) × (c.prio < 40) × (s.cpu.block.total_weight < half_range) }
    ensures { Became n result (made_active c (state_in n s)) }
{
    s.cpu.block = judge::activate_block(s.cpu.block, c);
    s.cpu.queue = without_old_key(s.cpu.queue, c);
    s
}

// The record e is stored, and its entry inserted.
fn join(s: State, n: usize, x: usize, e: Context) -> State
    requires { (Sound n s) × (x < n) × (e.prio < 40) }
    ensures { Tracks n result (joined x e (state_in n s)) }
{
    let entry = e.entry(numbers::word(x), weights::weight_of(e.prio));
    s.put_context(n, x, e).insert_entry(n, entry)
}

// The context x with the record c enters the queue.
fn enter(s: State, n: usize, x: usize, c: Context) -> State
    requires sound { (Sound n s) × (x < n) }
    requires enterable { (Enterable s.cpu.block.v c) × (s.cpu.block.total_weight < half_range) }
    ensures { Tracks n result (enter x c (state_in n s)) }
{
    let e = judge::enter_record(s.cpu.block.v, c);
    join(made_active(s, n, c), n, x, e)
}

// A wake-up whose context can be woken.
fn wake(s: State, n: usize, w: Wakeup, c: Context) -> State
    requires sound { (Sound n s) × (w.context_ref < n) }
    requires enterable { (Enterable s.cpu.block.v c) × (s.cpu.block.total_weight < half_range) }
    ensures { Tracks n result (woken_as (state_in n s) w.context_ref (woken_by (wake_of w) c)) }
{
    let block = s.cpu.block;
    let x = numbers::index(w.context_ref);
    let q = judge::woken_by(w, c);
    if judge::may_enter(block.current_ctxt, block.sched_ctxt, w.context_ref, q) {
        return enter(s, n, x, q);
    }
    s.put_context(n, x, q)
}

// A wake-up in its turn. Where there was no room nothing more is done.
#[tactic(auto, unfolding(plain_model::specs::Wakeup::serve_wakeup, plain_model::specs::Wakeup::wake_as, model::specs::Wakeup::wakeup_result))]
pub fn serve(s: State, n: usize, w: Wakeup) -> State
    requires sound { (Sound n s) × (w.context_ref < n) }
    requires wakeable { s.no_room ≡ false → Wakeable n b_waking (state_in n s) }
    ensures { Tracks n result (serve_wakeup (state_in n s) (wakeup_of w)) }
{
    let c = s.context(n, numbers::index(w.context_ref));
    if s.no_room {
        return s;
    }
    if w.context_ref == s.cpu.block.sched_ctxt || c.gone {
        s
    } else if c.lock != 0 {
        put_back(s, n, w)
    } else {
        wake(s, n, w, c)
    }
}

// A timer gives a wake-up: it is due, and its context can be read and still waits for it.
fn gives_wakeup(before: State, n: usize, time: u64, t: Timer) -> bool
    requires { (Sound n before) × (t.context_ref < n) × (time ≤ max_number) }
    ensures { result ≡ (is_due time t && is_live_timer (state_in n before) t) }
{
    let x = numbers::index(t.context_ref);
    let c = before.context(n, x);
    t.wake <= time + 1 && judge::is_live(before.cpu.block.sched_ctxt, t, c)
}

// A timer of the state before, in its turn.
pub fn serve_timer(before: State, s: State, n: usize, time: u64, t: Timer) -> State
    requires sound { (Sound n before) × (Sound n s) × (t.context_ref < n) × (time ≤ max_number) }
    requires wakeable { s.no_room ≡ false → Wakeable n b_waking (state_in n s) }
    ensures { Tracks n result (timer_step (state_in n before) time (state_in n s) t) }
{
    if gives_wakeup(before, n, time, t) {
        let w = Wakeup {
            wake: Some(t.wake),
            context_ref: t.context_ref,
        };
        serve(s, n, w)
    } else {
        s
    }
}

// A name of the local list, in its turn.
pub fn serve_name(s: State, n: usize, x: u64) -> State
    requires sound { (Sound n s) × (x < n) }
    requires wakeable { s.no_room ≡ false → Wakeable n b_waking (state_in n s) }
    ensures { Tracks n result (name_step (state_in n s) x) }
{
    let w = Wakeup {
        wake: None,
        context_ref: x,
    };
    serve(s, n, w)
}
