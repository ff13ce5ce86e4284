// The choice, by value.
ghost use Rattle.std.specs.Prelude.{◌≡◌, false, ◌&&◌, ◌||◌, ℕ, ◌<◌, ltb, leb, eqb, if◌then◌else◌, None, Some, option_to_list};
ghost use Rattle.answer.specs.declared.Rule.TheVariants.{HolderDeadline, HolderSlice, HolderVtime, HolderLateDeadline};
ghost use Rattle.machine.specs.Machine.{context_at};
ghost use Rattle.model.specs.State.{State};
ghost use Rattle.model.specs.Scan.{Scan};
ghost use Rattle.model.specs.Choice.{named, against, nobody, without_entry};
ghost use Rattle.model.specs.Rule.{rule_against, rule_nobody, rule_by};
ghost use Rattle.select_judge.specs.Values.{choice_of, BestBelow, WinnerBelow};
ghost use Rattle.select_judge.specs.Holding.{Holding};

use crate::{Holder, Selected};
use answer::Rule;
use context::Context;
use entries::Entry;

// The context of an entry that keeps its lock.
fn locked(late: Option<Entry>) -> Option<usize>
    ensures { option_to_list result ≡ named late }
{
    match late {
        None => None,
        Some(e) => Some(numbers::index(e.context_ref)),
    }
}

// An earlier deadline, or the same one with more slice left.
fn goes_before(h: Holder, q: Context) -> bool
    ensures { result ≡ (ltb h.vd q.vd || eqb h.vd q.vd && ltb q.rem_slice h.rem_slice) }
{
    h.vd < q.vd || h.vd == q.vd && q.rem_slice < h.rem_slice
}

// The holder goes before the context of the record q: by its deadline, or by its slice.
fn first_rule(h: Holder, q: Context) -> Rule
    ensures { result ≡ if ltb h.vd q.vd then HolderDeadline else HolderSlice }
{
    if h.vd < q.vd {
        Rule::HolderDeadline
    } else {
        Rule::HolderSlice
    }
}

// An eligible entry e was found, whose record is q.
pub fn against(h: Holder, late: Option<Entry>, e: Entry, q: Context) -> Selected
    ensures result_value { (s : State) (f : Scan) → Holding h s → q ≡ context_at f.contexts e.context_ref → late ≡ f.ineligible_best → choice_of result ≡ against s f e }
    ensures by_index { (n : ℕ) → e.context_ref < n → WinnerBelow n result.winner }
    ensures rule_value { (s : State) (f : Scan) → Holding h s → q ≡ context_at f.contexts e.context_ref → result.rule ≡ rule_against s f e }
{
    let kept = locked(late);
    if h.eligible && goes_before(h, q) {
        return Selected {
            winner: None,
            v: h.v,
            locked: kept,
            rule: first_rule(h, q),
        };
    }
    Selected {
        winner: Some(numbers::index(e.context_ref)),
        v: h.v,
        locked: kept,
        rule: Rule::FirstEligible,
    }
}

// The holder goes on although it is not eligible: it runs, and no later than the entry by vtime or by deadline.
fn goes_on(h: Holder, e: Entry) -> bool
    ensures { result ≡ (h.runnable && (leb h.vtime e.vtime || leb h.vd e.key.vd)) }
{
    h.runnable && (h.vtime <= e.vtime || h.vd <= e.key.vd)
}

// The holder goes on so: by its virtual time, or by its deadline.
fn late_rule(h: Holder, e: Entry) -> Rule
    ensures { result ≡ if leb h.vtime e.vtime then HolderVtime else HolderLateDeadline }
{
    if h.vtime <= e.vtime {
        Rule::HolderVtime
    } else {
        Rule::HolderLateDeadline
    }
}

// Nobody is eligible, and the queue gives nobody.
fn alone(h: Holder) -> Selected
    ensures result_value { (s : State) → Holding h s → choice_of result ≡ nobody s None }
    ensures by_index { (n : ℕ) → WinnerBelow n result.winner }
    ensures rule_value { (s : State) → Holding h s → result.rule ≡ rule_nobody s false None }
{
    if h.runnable {
        return Selected {
            winner: None,
            v: h.vtime,
            locked: None,
            rule: Rule::HolderVtime,
        };
    }
    Selected {
        winner: None,
        v: h.v,
        locked: None,
        rule: Rule::Idle,
    }
}

// Nobody is eligible: V becomes the vtime of the entry of least vtime.
fn least(h: Holder, e: Entry) -> Selected
    ensures result_value { (s : State) → Holding h s → choice_of result ≡ nobody s (Some e) }
    ensures by_index { (n : ℕ) → e.context_ref < n → WinnerBelow n result.winner }
    ensures rule_value { (s : State) → Holding h s → result.rule ≡ rule_nobody s false (Some e) }
{
    let x = numbers::index(e.context_ref);
    if goes_on(h, e) {
        return Selected {
            winner: None,
            v: e.vtime,
            locked: Some(x),
            rule: late_rule(h, e),
        };
    }
    Selected {
        winner: Some(x),
        v: e.vtime,
        locked: None,
        rule: Rule::EntryVtime,
    }
}

// No eligible entry was found.
pub fn without_entry(h: Holder, late: Option<Entry>) -> Selected
    ensures result_value { (s : State) (f : Scan) → Holding h s → late ≡ f.ineligible_best → choice_of result ≡ without_entry s f }
    ensures by_index { (n : ℕ) → BestBelow n late → WinnerBelow n result.winner }
    ensures rule_value { (s : State) (f : Scan) → Holding h s → late ≡ f.ineligible_best → result.rule ≡ rule_by s false f None }
{
    if h.eligible {
        return Selected {
            winner: None,
            v: h.v,
            locked: locked(late),
            rule: Rule::HolderAlone,
        };
    }
    match late {
        None => alone(h),
        Some(e) => least(h, e),
    }
}
