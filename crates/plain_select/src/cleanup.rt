// What leaves the queue after the choice.
ghost use Rattle.std.specs.Prelude.{◌≡◌, map, ◌<◌};
ghost use Rattle.entries.specs.declared.Entry.{Entry};
ghost use Rattle.percpu.specs.With.{cpu_v};
ghost use Rattle.model.specs.State.{on_cpu};
ghost use Rattle.select_judge.specs.Values.{WinnerBelow};
ghost use Rattle.plain_model.specs.Choice.{without_keys, cleaned_up, dequeued, taken_out, chosen};
ghost use Rattle.plain_lists.specs.Lists.{entries_of, Sized, Stands};
ghost use Rattle.plain_state.specs.States.{state_in, Sound, Became};
ghost use Rattle.plain_scan.specs.Scanned as scans;
ghost use Rattle.plain_choice.specs.Table.{choice_of};

use plain_choice::Choice;
use plain_lists::Queue;
use plain_scan::Scan;
use plain_state::State;

// A queue without the keys of the entries that leave.
fn without_keys(q: Queue, leaving: Queue) -> Queue
    requires { (Sized q) × (Sized leaving) }
    ensures { Stands result (without_keys (entries_of q) (map (λ (e : Entry). e.key) (entries_of leaving))) }
{
    let mut out = q;
    for e in leaving.as_slice_sized() {
        out = out.leave_out(e.key);
    }
    out
}

// The weight and the entries that the scan gave up leave; length and weight are published.
fn cleaned_up(mut s: State, n: usize, f: Scan) -> State
    requires { (Sound n s) × (scans.Sound n f) }
    ensures { Became n result (cleaned_up (scans.scan_of n f) (state_in n s)) }
{
    let q = without_keys(s.cpu.queue, f.leaving);
    let total = s.cpu.block.total_weight.saturating_sub(f.weight_change);
    // the check takes no array straight from another's field
    let contexts = f.contexts;
    s.contexts = contexts;
    s.cpu.queue = q;
    s.cpu.block.queue_len = numbers::word(q.len);
    s.cpu.block.published_weight = total;
    s.cpu.block.total_weight = total;
    s
}

// Another V.
fn with_v(mut s: State, n: usize, v: u64) -> State
    requires { Sound n s }
    ensures { Became n result (on_cpu (cpu_v v) (state_in n s)) }
{
    s.cpu.block.v = v;
    s
}

// The key of context x leaves the queue.
fn dequeued(s: State, n: usize, x: usize) -> State
    requires { (Sound n s) × (x < n) }
    ensures { Became n result (dequeued x (state_in n s)) }
{
    let q = s.context(n, x);
    if q.has_queue_key {
        s.put_context(n, x, q.without_key())
            .remove_key(n, q.queue_key())
    } else {
        s
    }
}

// The winner's key leaves the queue.
fn taken_out(s: State, n: usize, winner: Option<usize>) -> State
    requires { (Sound n s) × (WinnerBelow n winner) }
    ensures { Became n result (taken_out winner (state_in n s)) }
{
    match winner {
        None => s,
        Some(x) => dequeued(s, n, x),
    }
}

// After the scan and the choice.
pub fn chosen(s: State, n: usize, w: Choice, f: Scan) -> State
    requires { (Sound n s) × (scans.Sound n f) × (WinnerBelow n w.winner) }
    ensures { Became n result (chosen (choice_of w) (scans.scan_of n f) (state_in n s)) }
{
    let t = with_v(cleaned_up(s, n, f), n, w.v);
    taken_out(t, n, w.winner)
}
