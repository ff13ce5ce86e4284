// The structure of an image whose words are in their ranges.
#![tactic(auto)]

mod ids;

ghost use Rattle.std.specs.Prelude.{◌≡◌, Bool, true, false, ℕ, ◌+◌, ◌-◌, ◌*◌, ◌<◌, ◌≤◌, length, get_or};
ghost use Rattle.image_structure.specs.Rises.{rises};
ghost use Rattle.image_ranges.specs.Ranges.{block_in_range, blocks_in_range};
ghost use Rattle.image_structure.specs.Structure.{is_live, names_live, entry_ids, timers_differ, block_structure, structure};
ghost use Rattle.context.specs.Words.{record_size};
ghost use Rattle.percpu.specs.Places.{block_size};
ghost use Rattle.table.specs.Keys.{LieIn};
ghost use Rattle.machine.specs.Encode.{context_place, cpu_place};

use percpu::places;
use table::{KeyColumns, QUEUE_KEYS, TIMER_KEYS};

fn is_live(m: &[u64], x: u64) -> bool
    requires { (context_place x + record_size ≤ length m.now) × (x < 64) }
    ensures { result ≡ is_live m.now x }
{
    let i = numbers::index(x);
    let at = machine::context_place(i);
    m[at] == 0
}

// Of k rows each key stands before the next.
fn rises(b: &[u64], keys: KeyColumns, k: usize) -> bool
    requires { LieIn keys b.now × (k ≤ 64) }
    ensures { result ≡ rises b.now keys.vd keys.rem_slice keys.ctxt_id k }
{
    let mut last = keys.key(b, 0);
    for i in 1..k {
        let next = keys.key(b, i);
        if !last.before(next) {
            return false;
        }
        last = next;
    }
    true
}

#[tactic(auto, unfolding(crate::specs::Structure::names_live))]
fn names_live(m: &[u64], b: &[u64], n: u64) -> bool
    requires n_in_bounds { (context_place n ≤ length m.now) × (1 ≤ n) × (n ≤ 64) × (length b.now ≡ block_size) }
    requires b_value { block_in_range n b.now ≡ true }
    ensures { result ≡ names_live m.now b.now }
{
    is_live(m, b[places::CURRENT_CTXT])
        && is_live(m, b[places::SCHED_CTXT])
        && is_live(m, b[places::IDLE_CTXT])
}

fn entry_ids(m: &[u64], b: &[u64], n: u64) -> bool
    requires n_in_bounds { (context_place n ≤ length m.now) × (1 ≤ n) × (n ≤ 64) × (length b.now ≡ block_size) }
    requires b_value { block_in_range n b.now ≡ true }
    ensures { result ≡ entry_ids m.now b.now }
{
    let k = numbers::index(b[places::QUEUE_COUNT]);
    for i in 0..k {
        let x = numbers::index(b[places::ENTRY_CONTEXT_REF + i]);
        if b[places::KEY_CTXT_ID + i] != ids::id_of(m, x) {
            return false;
        }
    }
    true
}

// No context has two timers: a mark for each context.
fn timers_differ(b: &[u64], n: u64) -> bool
    requires le_n { (1 ≤ n) × (n ≤ 64) × (length b.now ≡ block_size) }
    requires b_value { block_in_range n b.now ≡ true }
    ensures { result ≡ timers_differ b.now }
{
    let k = numbers::index(b[places::TIMERS_COUNT]);
    let mut seen = [false; 64];
    for i in 0..k {
        let x = numbers::index(b[places::TIMER_CONTEXT_REF + i]);
        if seen[x] {
            return false;
        }
        seen[x] = true;
    }
    true
}

#[tactic(auto, using(crate::proofs::Structured::keys_are, crate::proofs::Structured::timers_are), unfolding(crate::specs::Structure::block_structure))]
fn block_structure(m: &[u64], b: &[u64], n: u64) -> bool
    requires n_in_bounds { (context_place n ≤ length m.now) × (1 ≤ n) × (n ≤ 64) × (length b.now ≡ block_size) }
    requires b_value { block_in_range n b.now ≡ true }
    ensures { result ≡ block_structure m.now b.now }
{
    b[places::PRESENT] == 0
        || (names_live(m, b, n)
            && entry_ids(m, b, n)
            && rises(b, QUEUE_KEYS, numbers::index(b[places::QUEUE_COUNT]))
            && rises(b, TIMER_KEYS, numbers::index(b[places::TIMERS_COUNT]))
            && timers_differ(b, n))
}

pub fn structure(m: &[u64], c: usize, n: usize) -> bool
    requires m_len { (length m.now ≡ cpu_place n c) × (1 ≤ n) × (n ≤ 64) × (c ≤ 4) }
    requires m_value { blocks_in_range c n m.now ≡ true }
    ensures { result ≡ structure c n m.now }
{
    if !ids::ids_differ(m, n) {
        return false;
    }
    let names = numbers::word(n);
    for k in 0..c {
        let at = machine::cpu_place(n, k);
        let end = at + places::BLOCK_SIZE;
        if !block_structure(m, &m[at..end], names) {
            return false;
        }
    }
    true
}
