// The scan and the choice by value: an entry judged, the best so far, the holder, and who goes first (`select_next_context` of context/switch.rs).
#![tactic(auto)]

mod choice;
mod judge;
mod prev;

use answer::Rule;
pub use choice::{against, without_entry};
use context::Context;
use entries::Entry;
pub use judge::{active_weight, is_found, is_of, judged, pick, too_late};
pub use prev::{holder_of, ineligible_holder};

// What an entry is to the scan; the record that is stored, if it changes.
#[derive(Clone, Copy)]
pub enum Visit {
    Pass,
    Gone,
    Blocked(Context),
    NoAddrSpace(Context),
    Ready(Context),
}

// What the scan goes by: the CPU, the time, words of the CPU's block, and the vtime of a runnable holder that is not eligible.
#[derive(Clone, Copy)]
pub struct Scanner {
    pub cpu_id: u64,
    pub time: u64,
    pub idle_ctxt: u64,
    pub sched_ctxt: u64,
    pub current_ctxt: u64,
    pub v: u64,
    pub ineligible_holder: Option<u64>,
}

// The context in charge before the decision, as the choice sees it.
#[derive(Clone, Copy)]
pub struct Holder {
    pub runnable: bool,
    pub eligible: bool,
    pub vtime: u64,
    pub vd: u64,
    pub rem_slice: u64,
    // V of the CPU
    pub v: u64,
}

// What the scan has found; the keys to remove are in a scratch slice, three words a key, and counted here.
#[derive(Clone, Copy)]
pub struct Scanned {
    pub eligible_best: Option<Entry>,
    pub ineligible_best: Option<Entry>,
    pub weight_change: u64,
    pub contexts_to_remove: usize,
}

// Who won, V, the context that the decision keeps locked besides the holder and the winner, and the rule, which is Idle
// where nobody waits.
#[derive(Clone, Copy)]
pub struct Selected {
    pub winner: Option<usize>,
    pub v: u64,
    pub locked: Option<usize>,
    pub rule: Rule,
}
