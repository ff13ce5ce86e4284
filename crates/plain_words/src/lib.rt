// From the words of an image to the structs of the plain engine.
#![tactic(auto)]

pub mod store;

ghost use Rattle.std.specs.Prelude.{◌≡◌, map, ℕ, ◌+◌, ◌<◌, ◌≤◌, length, get_or, take};
ghost use Rattle.columns.specs.Common.{All, tabulate};
ghost use Rattle.entries.specs.declared.Entry.{Entry};
ghost use Rattle.percpu.specs.Layout.{entry_at, timer_at, cpu_of};
ghost use Rattle.percpu.specs.Places.{block_size};
ghost use Rattle.machine.specs.Machine.{Machine, cpu_at};
ghost use Rattle.machine.specs.Encode.{encode};
ghost use Rattle.machine.specs.Shape.{Image, Fits};
ghost use Rattle.plain_lists.specs.Lists.{Sized, Stands, entries_of};
ghost use Rattle.plain_state.specs.States.{CpuSound, timer_of, cpu_in};
ghost use Rattle.plain_words.specs.Words.{Counted, CpuRead, TimersRead, NamesRead, ContextsRead, CpusRead};

use context::Context;
use entries::{Entry, Key, Timer};
use machine::CpuPlace;
use percpu::places;
use plain_lists::{FixedVec, Queue};
use plain_state::{Cpu, Names};
use std::array;

// Entry i of a block's queue.
fn entry_at(w: &[u64], i: usize) -> Entry
    requires { (length w.now ≡ block_size) × (i < 64) }
    ensures { result ≡ entry_at w.now i }
{
    let key = Key {
        vd: w[places::KEY_VD + i],
        rem_slice: w[places::KEY_REM_SLICE + i],
        ctxt_id: w[places::KEY_CTXT_ID + i],
    };
    Entry {
        key,
        vtime: w[places::ENTRY_VTIME + i],
        weight: w[places::ENTRY_WEIGHT + i],
        context_ref: w[places::ENTRY_CONTEXT_REF + i],
    }
}

// Timer i of a block, as an entry of its queue.
fn timer_at(w: &[u64], i: usize) -> Entry
    requires { (length w.now ≡ block_size) × (i < 64) }
    ensures { (timer_of result ≡ timer_at w.now i) × (result.key.rem_slice ≡ 0) }
{
    let t = Timer {
        wake: w[places::TIMER_WAKE + i],
        context_ref: w[places::TIMER_CONTEXT_REF + i],
    };
    plain_state::timer_entry(t)
}

fn load_queue(w: &[u64], len: usize) -> Queue
    requires { (length w.now ≡ block_size) × (len ≤ 64) }
    ensures { Stands result (tabulate len (entry_at w.now)) }
{
    let items = array::from_fn(|i| entry_at(w, i));
    FixedVec { items, len }
}

fn load_timers(w: &[u64], len: usize) -> Queue
    requires { (length w.now ≡ block_size) × (len ≤ 64) }
    ensures { TimersRead w.now len result }
{
    let items = array::from_fn(|i| timer_at(w, i));
    FixedVec { items, len }
}

// A list of names whose column begins at a place.
fn load_names(w: &[u64], at: usize, len: usize) -> Names
    requires { (at + 64 ≤ length w.now) × (length w.now ≡ block_size) × (len ≤ 64) }
    ensures { NamesRead w.now at len result }
{
    let mut items = [0; 64];
    items.copy_from_slice(&w[at..at + 64]);
    FixedVec { items, len }
}

// A CPU from its block.
fn load_cpu(w: &[u64]) -> Cpu
    requires { (length w.now ≡ block_size) × (Counted w.now) }
    ensures { CpuRead w.now result }
{
    let block = percpu::load_block(&w[0..places::SCALARS_SIZE]);
    let queue = load_queue(w, numbers::index(w[places::QUEUE_COUNT]));
    let timers = load_timers(w, numbers::index(w[places::TIMERS_COUNT]));
    let local = load_names(
        w,
        places::LOCAL_WAKEUP_LIST,
        numbers::index(w[places::LOCAL_COUNT]),
    );
    let ipi = load_names(
        w,
        places::IPI_CONTEXT_WAKEUP_LIST,
        numbers::index(w[places::IPI_COUNT]),
    );
    Cpu {
        block,
        queue,
        timers,
        local,
        ipi,
        remainder: w[places::REMAINDER],
    }
}

// The contexts of an image of c CPUs and n contexts.
pub fn load_contexts(m: &[u64], c: usize, n: usize) -> [Context; 64]
    requires { Image c n m.now }
    ensures { ContextsRead c n m.now result }
{
    let mut contexts = [machine::load(m, c, n, 0); 64];
    for x in 0..n {
        contexts[x] = machine::load(m, c, n, x);
    }
    contexts
}

// A CPU of such an image.
fn cpu_at(m: &[u64], cpu: CpuPlace) -> Cpu
    requires image { Image cpu.c cpu.n m.now }
    ensures { (CpuSound result) × ((M : Machine) → m.now ≡ encode M → Fits cpu.c cpu.n M → cpu_in result ≡ cpu_at M cpu.k) }
{
    let at = cpu.start();
    load_cpu(&m[at..at + places::BLOCK_SIZE])
}

// The CPUs of such an image.
pub fn load_cpus(m: &[u64], c: usize, n: usize) -> [Cpu; 4]
    requires { Image c n m.now }
    ensures { CpusRead c n m.now result }
{
    let mut cpus = [cpu_at(m, CpuPlace { c, n, k: 0 }); 4];
    for k in 0..c {
        cpus[k] = cpu_at(m, CpuPlace { c, n, k });
    }
    cpus
}
