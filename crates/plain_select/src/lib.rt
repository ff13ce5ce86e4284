// What the choice of the plain engine takes out of the queue, by value.
#![tactic(auto)]

mod cleanup;
mod held;

ghost use Rattle.std.specs.Prelude.{◌≡◌, ◌<◌};
ghost use Rattle.columns.specs.Common.{All};
ghost use Rattle.machine.specs.Shape.{EntryFits};
ghost use Rattle.model.specs.State as model;
ghost use Rattle.select_judge.specs.Holding.{Holding, Scanning};
ghost use Rattle.select_judge.specs.Values.{WinnerBelow};
ghost use Rattle.plain_model.specs.Choice.{choice, chosen};
ghost use Rattle.plain_model.specs.Schedule.{scanned};
ghost use Rattle.plain_lists.specs.Lists.{entries_of};
ghost use Rattle.plain_state.specs.States.{state_in, Sound, Became};
ghost use Rattle.plain_scan.specs.Scanned as scans;
ghost use Rattle.plain_choice.specs.Table.{choice_of};
ghost use Rattle.plain_select.specs.Started.{Started, BestContext};

pub use cleanup::chosen;
use entries::Entry;
use percpu::PercpuBlock;
use plain_choice::Choice;
use plain_scan::Scan;
use plain_state::State;
use select_judge::{Holder, Scanner};

// Who wins, and the state after the choice.
#[derive(Clone, Copy)]
pub struct Selected {
    pub state: State,
    pub choice: Choice,
}

// What the scan of CPU k, whose block is b, goes by.
fn scanner(k: usize, time: u64, b: PercpuBlock, h: Holder) -> Scanner
    ensures scanning { (s : model.State) → b ≡ s.cpu.block → Holding h s → Scanning k time result s }
    ensures cpu_id_value { result.cpu_id ≡ k }
{
    Scanner {
        cpu_id: numbers::word(k),
        time,
        idle_ctxt: b.idle_ctxt,
        sched_ctxt: b.sched_ctxt,
        current_ctxt: b.current_ctxt,
        v: b.v,
        ineligible_holder: held::late_holder(h),
    }
}

// A scan that has not looked at an entry yet.
fn start(s: State, n: usize) -> Scan
    requires { Sound n s }
    ensures { Started n s result }
{
    // the check takes no array straight from another's field
    let contexts = s.contexts;
    Scan {
        contexts,
        eligible_best: None,
        ineligible_best: None,
        weight_change: 0,
        leaving: s.cpu.queue.cleared(),
    }
}

// The scan of this CPU's queue, where h is the holder.
pub fn scan(s: State, n: usize, k: usize, time: u64, h: Holder) -> Scan
    requires sound { (Sound n s) × (k < 64) × (All (EntryFits n) (entries_of s.cpu.queue)) }
    requires holding { Holding h (state_in n s) }
    ensures { (scans.scan_of n result ≡ scanned k time (state_in n s)) × (scans.Sound n result) }
{
    let t = scanner(k, time, s.cpu.block, h);
    start(s, n).run(n, t, s.cpu.queue)
}

// The holder as the choice sees it.
fn holder(s: State, n: usize) -> Holder
    requires { (Sound n s) × (s.cpu.block.sched_ctxt < n) }
    ensures { Holding result (state_in n s) }
{
    let b = s.cpu.block;
    let x = numbers::index(b.sched_ctxt);
    held::holder_in(b, s.context(n, x))
}

// The context of the eligible entry; any number if there is none.
fn best_context(best: Option<Entry>) -> usize
    ensures { BestContext best result }
{
    match best {
        None => 0,
        Some(e) => numbers::index(e.context_ref),
    }
}

// The choice of what the scan found.
fn choose(f: Scan, n: usize, h: Holder) -> Choice
    requires { (scans.Sound n f) × (0 < n) }
    ensures result_value { (s : model.State) → Holding h s → choice_of result ≡ choice s (scans.scan_of n f) }
    ensures winner_below { WinnerBelow n result.winner }
{
    let q = f.record(n, best_context(f.eligible_best));
    plain_choice::choose(h, f.eligible_best, f.ineligible_best, q)
}

// The scan, the choice and the clean-up: who wins, and the state after it.
pub fn select(s: State, n: usize, k: usize, time: u64) -> Selected
    requires sound { (Sound n s) × (k < 64) × (All (EntryFits n) (entries_of s.cpu.queue)) }
    requires sched_ctxt_bound { s.cpu.block.sched_ctxt < n }
    ensures choice_value { choice_of result.choice ≡ choice (state_in n s) (scanned k time (state_in n s)) }
    ensures became { Became n result.state (chosen (choice (state_in n s) (scanned k time (state_in n s))) (scanned k time (state_in n s)) (state_in n s)) }
    ensures winner_below { WinnerBelow n result.choice.winner }
{
    let h = holder(s, n);
    let f = scan(s, n, k, time, h);
    let w = choose(f, n, h);
    Selected {
        state: chosen(s, n, w, f),
        choice: w,
    }
}
