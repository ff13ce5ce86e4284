// The scan of the queue, in place on the image. What does not change from entry to entry is t already; d is lent with m, and w is what is found so far.
ghost use Rattle.std.specs.Prelude.{◌≡◌, [], ◌∷◌, ◌++◌, ◌+◌, ◌*◌, ◌<◌, ◌≤◌};
ghost use Rattle.machine.specs.Machine.{Machine, cpu_at};
ghost use Rattle.machine.specs.Encode.{encode};
ghost use Rattle.machine.specs.Shape.{ContextFits, EntryFits, Fits, Image};
ghost use Rattle.model.specs.Scan.{blocked};
ghost use Rattle.select_judge.specs.Values.{BestBelow, visit_of};
ghost use Rattle.select.specs.Scanning.{visit_by, visited_by, step_by, scan_by, seen, VisitFits, keys_in, found, Scans, given_up, Room, Grown};
ghost use Rattle.weights.specs.Weights.{max_weight};

use crate::MAX_KEYS;
use context::Context;
use entries::{Entry, Key};
use machine::CpuPlace;
use select_judge::{Scanned, Scanner, Visit};

// An entry as the scan meets it.
fn verdict(m: &[u64], c: usize, n: usize, t: Scanner, late: Option<Entry>, e: Entry) -> Visit
    requires image { Image c n m.now }
    requires cpu_id_bound { (t.cpu_id < 64) × (e.context_ref < n) }
    ensures { (M : Machine) → m.now ≡ encode M → Fits c n M → visit_of result ≡ visit_by t (seen M.contexts late) e }
{
    if select_judge::too_late(t, late, e) {
        return Visit::Pass;
    }
    let Some(x) = machine::look_up(m, c, n, e.context_ref) else {
        return Visit::Gone;
    };
    if select_judge::is_of(late, e.context_ref) {
        return Visit::Pass;
    }
    let q = machine::load(m, c, n, x);
    select_judge::judged(t, q, e)
}

// A key put with those to remove, and its weight with what leaves the total.
fn give_up(d: &mut [Key; MAX_KEYS], w: Scanned, key: Key, weight: u64) -> Scanned
    requires contexts_to_remove_bound { (w.contexts_to_remove < 64) × (w.weight_change ≤ (64 * max_weight)) }
    requires weight_le_max_weight { weight ≤ max_weight }
    ensures { (result ≡ given_up w weight) × (keys_in d.new (w.contexts_to_remove + 1) ≡ keys_in d.old w.contexts_to_remove ++ (key ∷ [])) }
{
    let n = w.contexts_to_remove;
    d[n] = key;
    Scanned {
        weight_change: w.weight_change + weight,
        contexts_to_remove: n + 1,
        ..w
    }
}

// A blocked context: its record is stored, and its weight leaves if it was active.
fn give_up_blocked(
    m: &mut [u64],
    d: &mut [Key; MAX_KEYS],
    c: usize,
    n: usize,
    t: Scanner,
    w: Scanned,
    e: Entry,
    q: Context,
) -> Scanned
    requires image { Image c n m.old }
    requires entry_fits { EntryFits n e }
    requires room { Room n w }
    requires context_fits { ContextFits c q }
    ensures scans { Scans c n m.old m.new d.new result (λ (M : Machine). visited_by t (found M.contexts w d.old) e (blocked q)) }
    ensures grown { Grown n w result }
{
    let x = numbers::index(e.context_ref);
    let old = machine::load(m, c, n, x);
    let weight = select_judge::active_weight(old.is_active, e.weight);
    machine::store(m, c, n, x, q);
    give_up(d, w, e.key, weight)
}

// What the scan makes of a visit.
fn visited(
    m: &mut [u64],
    d: &mut [Key; MAX_KEYS],
    c: usize,
    n: usize,
    t: Scanner,
    w: Scanned,
    e: Entry,
    v: Visit,
) -> Scanned
    requires image { Image c n m.old }
    requires entry_fits { EntryFits n e }
    requires room { Room n w }
    requires visit_fits { VisitFits c (visit_of v) }
    ensures scans { Scans c n m.old m.new d.new result (λ (M : Machine). visited_by t (found M.contexts w d.old) e (visit_of v)) }
    ensures grown { Grown n w result }
{
    let x = numbers::index(e.context_ref);
    match v {
        Visit::Pass => w,
        Visit::Gone => give_up(d, w, e.key, e.weight),
        Visit::Blocked(q) => give_up_blocked(m, d, c, n, t, w, e, q),
        Visit::NoAddrSpace(q) => {
            machine::store(m, c, n, x, q);
            w
        }
        Visit::Ready(q) => {
            machine::store(m, c, n, x, q);
            select_judge::pick(t, w, e)
        }
    }
}

// One entry of the queue.
fn scan_step(
    m: &mut [u64],
    d: &mut [Key; MAX_KEYS],
    c: usize,
    n: usize,
    t: Scanner,
    w: Scanned,
    e: Entry,
) -> Scanned
    requires image { Image c n m.old }
    requires entry_fits { EntryFits n e }
    requires room { Room n w }
    requires cpu_id_bound { t.cpu_id < 64 }
    ensures scans { Scans c n m.old m.new d.new result (λ (M : Machine). step_by t (found M.contexts w d.old) e) }
    ensures grown { Grown n w result }
{
    let v = verdict(m, c, n, t, w.ineligible_best, e);
    visited(m, d, c, n, t, w, e, v)
}

// The scan of the queue; the keys to remove are left in d.
pub fn scan_queue(m: &mut [u64], d: &mut [Key; MAX_KEYS], cpu: CpuPlace, t: Scanner) -> Scanned
    requires image { Image cpu.c cpu.n m.old }
    requires bounded { t.cpu_id < 64 }
    ensures scans { Scans cpu.c cpu.n m.old m.new d.new result (λ (M : Machine). scan_by t M.contexts (cpu_at M cpu.k).queue) }
    ensures contexts_to_remove_bound { (result.contexts_to_remove ≤ 64) × (BestBelow cpu.n result.eligible_best) × (BestBelow cpu.n result.ineligible_best) }
{
    let len = stages::queue_len(m, cpu);
    let mut w = Scanned {
        eligible_best: None,
        ineligible_best: None,
        weight_change: 0,
        contexts_to_remove: 0,
    };
    for i in 0..len {
        let e = stages::entry(m, cpu, i);
        w = scan_step(m, d, cpu.c, cpu.n, t, w, e);
        if select_judge::is_found(w.eligible_best) {
            return w;
        }
    }
    w
}
