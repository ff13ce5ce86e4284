// The choice of the plain engine, by value: one table of rules.
#![tactic(auto)]

ghost use Rattle.std.specs.Prelude.{◌≡◌, option_to_list};
ghost use Rattle.model.specs.Choice.{named};
ghost use Rattle.plain_choice.specs.Table.{choice_of, against, late_entry, alone, without_entry, choice};

use answer::Rule;
use context::Context;
use entries::Entry;
use select_judge::Holder;

// Who won, V, the context that stays locked besides the holder and the winner, and the rule where nothing is stolen.
#[derive(Clone, Copy)]
pub struct Choice {
    pub winner: Option<usize>,
    pub v: u64,
    pub locked: Option<usize>,
    pub rule: Rule,
}

// The context of the best late entry.
fn named(late: Option<Entry>) -> Option<usize>
    ensures { option_to_list result ≡ named late }
{
    match late {
        None => None,
        Some(e) => Some(numbers::index(e.context_ref)),
    }
}

// An eligible entry, whose record is q: an eligible holder stays for an earlier deadline, or at the same one for more slice.
#[tactic(auto, unfolding(crate::specs::Table::against))]
fn against(h: Holder, late: Option<Entry>, e: Entry, q: Context) -> Choice
    ensures { choice_of result ≡ against h late e q }
{
    let kept = named(late);
    if h.eligible && h.vd < q.vd {
        return Choice {
            winner: None,
            v: h.v,
            locked: kept,
            rule: Rule::HolderDeadline,
        };
    }
    if h.eligible && h.vd == q.vd && q.rem_slice < h.rem_slice {
        return Choice {
            winner: None,
            v: h.v,
            locked: kept,
            rule: Rule::HolderSlice,
        };
    }
    Choice {
        winner: Some(numbers::index(e.context_ref)),
        v: h.v,
        locked: kept,
        rule: Rule::FirstEligible,
    }
}

// Nobody is eligible, and e has the least late vtime, which becomes V.
#[tactic(auto, unfolding(crate::specs::Table::late_entry))]
fn late_entry(h: Holder, e: Entry) -> Choice
    ensures { choice_of result ≡ late_entry h e }
{
    let x = numbers::index(e.context_ref);
    if h.runnable && h.vtime <= e.vtime {
        return Choice {
            winner: None,
            v: e.vtime,
            locked: Some(x),
            rule: Rule::HolderVtime,
        };
    }
    if h.runnable && h.vd <= e.key.vd {
        return Choice {
            winner: None,
            v: e.vtime,
            locked: Some(x),
            rule: Rule::HolderLateDeadline,
        };
    }
    Choice {
        winner: Some(x),
        v: e.vtime,
        locked: None,
        rule: Rule::EntryVtime,
    }
}

// Nobody is eligible, and no entry is ready.
#[tactic(auto, unfolding(crate::specs::Table::alone))]
fn alone(h: Holder) -> Choice
    ensures { choice_of result ≡ alone h }
{
    if h.runnable {
        return Choice {
            winner: None,
            v: h.vtime,
            locked: None,
            rule: Rule::HolderVtime,
        };
    }
    Choice {
        winner: None,
        v: h.v,
        locked: None,
        rule: Rule::Idle,
    }
}

// No eligible entry was found.
#[tactic(auto, unfolding(crate::specs::Table::without_entry))]
fn without_entry(h: Holder, late: Option<Entry>) -> Choice
    ensures { choice_of result ≡ without_entry h late }
{
    if h.eligible {
        return Choice {
            winner: None,
            v: h.v,
            locked: named(late),
            rule: Rule::HolderAlone,
        };
    }
    match late {
        None => alone(h),
        Some(e) => late_entry(h, e),
    }
}

// Of what the scan found; q is the record of the eligible entry's context, if there is one.
pub fn choose(h: Holder, best: Option<Entry>, late: Option<Entry>, q: Context) -> Choice
    ensures { choice_of result ≡ choice h best late q }
{
    match best {
        None => without_entry(h, late),
        Some(e) => against(h, late, e, q),
    }
}
