// The scan of the plain engine, by value: every entry in its turn, and flags say what is passed over.
#![tactic(auto)]

mod judge;

ghost use Rattle.std.specs.Prelude.{◌≡◌, ◌*◌, ◌<◌, ◌≤◌};
ghost use Rattle.machine.specs.Shape.{EntryFits};
ghost use Rattle.weights.specs.Weights.{max_weight};
ghost use Rattle.select_judge.specs.Values.{visit_of, scanner_cpu};
ghost use Rattle.model.specs.Scan.{below, ineligible_min_vtime, judge};
ghost use Rattle.plain_model.specs.Scan.{stored, given_up, taken, looked_at, scan_step};
ghost use Rattle.plain_scan.specs.Scanned.{scan_of, record_in, passed_over, Sound, Grows, Ran};
ghost use Rattle.columns.specs.Common.{All};
ghost use Rattle.entries.specs.Order.{entry_before};
ghost use Rattle.plain_model.specs.Rank.{by_rank};
ghost use Rattle.plain_lists.specs.Lists.{entries_of, Sized};

use context::Context;
use entries::Entry;
use plain_lists::Queue;
use select_judge::{Scanner, Visit};

// The records as they are judged, the best entries, the weight given up, and the entries that are to leave.
#[derive(Clone, Copy)]
pub struct Scan {
    pub contexts: [Context; 64],
    pub eligible_best: Option<Entry>,
    pub ineligible_best: Option<Entry>,
    pub weight_change: u64,
    pub leaving: Queue,
}

impl Scan {
    // The record of context x.
    pub fn record(self, n: usize, x: usize) -> Context
        requires sound { Sound n self }
        requires x_lt_n { x < n }
        ensures { result ≡ record_in n self x }
    {
        self.contexts[x]
    }

    // One of three flags is set: an eligible entry was found, this one is too late, or its context's lock is taken.
    #[tactic(auto, unfolding(crate::specs::Scanned::passed_over))]
    fn passes_over(self, n: usize, t: Scanner, e: Entry, q: Context) -> bool
        requires { q ≡ record_in n self e.context_ref }
        ensures { result ≡ passed_over n t self e }
    {
        judge::is_over(self.eligible_best)
            || judge::is_later(t, self.ineligible_best, e)
            || judge::locks(self.ineligible_best, e.context_ref) && !q.gone
    }

    // Its record as it was judged.
    fn store(mut self, n: usize, e: Entry, x: usize, q: Context) -> Scan
        requires sound { Sound n self }
        requires x_lt_n { (x < n) × (x ≡ e.context_ref) }
        ensures { (scan_of n result ≡ stored e q (scan_of n self)) × (Grows n 0 0 self result) }
    {
        self.contexts[x] = q;
        self
    }

    // The entry is to leave the queue, and so much weight the total.
    fn give_up(mut self, n: usize, e: Entry, w: u64) -> Scan
        requires sound { Sound n self }
        requires len_bound { (self.leaving.len < 64) × (w ≤ max_weight) × (self.weight_change ≤ max_weight * 64) }
        ensures { (scan_of n result ≡ given_up w e (scan_of n self)) × (Grows n 1 w self result) }
    {
        self.leaving = self.leaving.push(e);
        self.weight_change += w;
        self
    }

    // A ready entry: the first eligible one, or the first of the least late vtime; at an equal vtime it is not taken.
    fn take(mut self, n: usize, t: Scanner, e: Entry) -> Scan
        requires { (Sound n self) × (e.context_ref < n) }
        ensures { (scan_of n result ≡ taken t.cpu_id t.time (scanner_cpu t) t.ineligible_holder e (scan_of n self)) × (Grows n 0 0 self result) }
    {
        if e.vtime <= t.v {
            self.eligible_best = Some(e);
        } else if judge::is_earlier(self.ineligible_best, t.ineligible_holder, e.vtime) {
            self.ineligible_best = Some(e);
        }
        self
    }

    // What is made of an entry that is looked at.
    fn look_at(self, n: usize, t: Scanner, e: Entry, x: usize, v: Visit) -> Scan
        requires sound { Sound n self }
        requires x_lt_n { (x < n) × (x ≡ e.context_ref) × (e.weight ≤ max_weight) }
        requires len_bound { (self.leaving.len < 64) × (self.weight_change ≤ max_weight * 64) }
        ensures { (scan_of n result ≡ looked_at t.cpu_id t.time (scanner_cpu t) t.ineligible_holder (scan_of n self) e (visit_of v)) × (Grows n 1 e.weight self result) }
    {
        match v {
            Visit::Pass => self,
            Visit::Gone => self.give_up(n, e, e.weight),
            Visit::Blocked(q) => {
                let was = self.record(n, x);
                let w = judge::weight_of(was.is_active, e.weight);
                self.store(n, e, x, q).give_up(n, e, w)
            }
            Visit::NoAddrSpace(q) => self.store(n, e, x, q),
            Visit::Ready(q) => { self.store(n, e, x, q).take(n, t, e) }
        }
    }

    // One entry in its turn.
    pub fn step(self, n: usize, t: Scanner, e: Entry) -> Scan
        requires sound { Sound n self }
        requires cpu_id_bound { (t.cpu_id < 64) × (EntryFits n e) }
        requires len_bound { (self.leaving.len < 64) × (self.weight_change ≤ max_weight * 64) }
        ensures { (scan_of n result ≡ scan_step t.cpu_id t.time (scanner_cpu t) t.ineligible_holder (scan_of n self) e) × (Grows n 1 e.weight self result) }
    {
        let x = numbers::index(e.context_ref);
        let q = self.record(n, x);
        if self.passes_over(n, t, e, q) {
            return self;
        }
        let v = judge::visit(t, q, e);
        self.look_at(n, t, e, x, v)
    }

    // Every entry of a queue in its turn, from the start of a scan on.
    pub fn run(self, n: usize, t: Scanner, q: Queue) -> Scan
        requires sound { (Sound n self) × (Sized q) × (t.cpu_id < 64) }
        requires len_value { (self.leaving.len ≡ 0) × (self.weight_change ≡ 0) × (All (EntryFits n) (entries_of q)) }
        ensures { Ran n t (scan_of n self) (by_rank entry_before (entries_of q)) result }
    {
        let turns = q.by_rank();
        let mut s = self;
        for e in turns.as_slice_sized() {
            s = s.step(n, t, *e);
        }
        s
    }
}
