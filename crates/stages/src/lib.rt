// What the stages of a decision are made of, in place on the image: the scalars of a CPU's block, a context's record, and
// the insertions and removals.
// In every function m is an image (crate machine says why it stays apart), and cpu the place in it of the CPU that decides.
#![tactic(auto)]

mod block;

ghost use Rattle.std.specs.Prelude.{◌≡◌, Bool, true, false, ℕ, ◌+◌, ◌*◌, ◌<◌, ◌≤◌, length, get_or, is_err};
ghost use Rattle.percpu.specs.Cpu.{Cpu};
ghost use Rattle.percpu.specs.With.{cpu_block, cpu_remainder};
ghost use Rattle.percpu.specs.Layout.{no_entry};
ghost use Rattle.ticks.specs.Ticks.{max_remainder};
ghost use Rattle.machine.specs.Machine.{Machine, cpu_at};
ghost use Rattle.machine.specs.Encode.{encode, cpu_place};
ghost use Rattle.machine.specs.Shape.{ContextFits, EntryFits, Image, Fits};
ghost use Rattle.model.specs.State.{State, put_context, on_cpu, insert_entry, insert_timer, insert_newest_timer, push_local, remove_key};
ghost use Rattle.stages.specs.Stage.{Staged};
ghost use Rattle.stages.specs.Read.{BlockFits, EntryRead};
ghost use Rattle.percpu.specs.Places.{queue_count};

use context::Context;
use entries::{Entry, Key, Timer};
use machine::CpuPlace;
use percpu::{PercpuBlock, places};
pub use table::NoRoom;

pub fn load_block(m: &[u64], cpu: CpuPlace) -> PercpuBlock
    requires image { Image cpu.c cpu.n m.now }
    ensures { (M : Machine) → m.now ≡ encode M → Fits cpu.c cpu.n M → result ≡ (cpu_at M cpu.k).block }
{
    let at = cpu.start();
    let end = at + places::BLOCK_SIZE;
    block::load(&m[at..end])
}

pub fn store_block(m: &mut [u64], cpu: CpuPlace, b: PercpuBlock)
    requires image { Image cpu.c cpu.n m.old }
    requires block_fits { BlockFits cpu.n b }
    ensures { Staged cpu.c cpu.n cpu.k m.old m.new false (λ (s : State). on_cpu (λ (p : Cpu). cpu_block b p) s) }
{
    let at = cpu.start();
    let end = at + places::BLOCK_SIZE;
    block::store(&mut m[at..end], b);
}

// What the last tick conversion left over.
pub fn remainder(m: &[u64], cpu: CpuPlace) -> u64
    requires image { Image cpu.c cpu.n m.now }
    ensures { (result ≤ max_remainder) × ((M : Machine) → m.now ≡ encode M → Fits cpu.c cpu.n M → result ≡ (cpu_at M cpu.k).remainder) }
{
    let at = cpu.start() + places::REMAINDER;
    m[at]
}

pub fn store_remainder(m: &mut [u64], cpu: CpuPlace, x: u64)
    requires image { Image cpu.c cpu.n m.old }
    requires bounded { x ≤ max_remainder }
    ensures { Staged cpu.c cpu.n cpu.k m.old m.new false (λ (s : State). on_cpu (cpu_remainder x) s) }
{
    let at = cpu.start();
    let end = at + places::BLOCK_SIZE;
    block::store_remainder(&mut m[at..end], x);
}

pub fn store_context(m: &mut [u64], cpu: CpuPlace, x: usize, q: Context)
    requires image { Image cpu.c cpu.n m.old }
    requires bounded { x < cpu.n }
    requires context_fits { ContextFits cpu.c q }
    ensures { Staged cpu.c cpu.n cpu.k m.old m.new false (λ (s : State). put_context x q s) }
{
    machine::store(m, cpu.c, cpu.n, x, q);
}

pub fn insert_entry(m: &mut [u64], cpu: CpuPlace, e: Entry) -> Result<(), NoRoom>
    requires image { Image cpu.c cpu.n m.old }
    requires entry_fits { EntryFits cpu.n e }
    ensures { Staged cpu.c cpu.n cpu.k m.old m.new (is_err result) (λ (s : State). insert_entry e s) }
{
    let at = cpu.start();
    let end = at + places::BLOCK_SIZE;
    block::insert_entry(&mut m[at..end], e)
}

pub fn remove_key(m: &mut [u64], cpu: CpuPlace, key: Key)
    requires image { Image cpu.c cpu.n m.old }
    ensures { Staged cpu.c cpu.n cpu.k m.old m.new false (λ (s : State). remove_key key s) }
{
    let at = cpu.start();
    let end = at + places::BLOCK_SIZE;
    block::remove_key(&mut m[at..end], key);
}

pub fn insert_timer(m: &mut [u64], cpu: CpuPlace, t: Timer) -> Result<(), NoRoom>
    requires image { Image cpu.c cpu.n m.old }
    requires bounded { t.context_ref < cpu.n }
    ensures { Staged cpu.c cpu.n cpu.k m.old m.new (is_err result) (λ (s : State). insert_timer t s) }
{
    let at = cpu.start();
    let end = at + places::BLOCK_SIZE;
    timers::insert(&mut m[at..end], t)
}

pub fn insert_newest_timer(m: &mut [u64], cpu: CpuPlace, t: Timer) -> Result<(), NoRoom>
    requires image { Image cpu.c cpu.n m.old }
    requires bounded { t.context_ref < cpu.n }
    ensures { Staged cpu.c cpu.n cpu.k m.old m.new (is_err result) (λ (s : State). insert_newest_timer t s) }
{
    let at = cpu.start();
    let end = at + places::BLOCK_SIZE;
    timers::insert_newest(&mut m[at..end], t)
}

pub fn push_local(m: &mut [u64], cpu: CpuPlace, x: usize) -> Result<(), NoRoom>
    requires image { Image cpu.c cpu.n m.old }
    requires bounded { x < cpu.n }
    ensures { Staged cpu.c cpu.n cpu.k m.old m.new (is_err result) (λ (s : State). push_local x s) }
{
    let at = cpu.start();
    let end = at + places::BLOCK_SIZE;
    let name = numbers::word(x);
    block::push_local(&mut m[at..end], name)
}

pub fn queue_len(m: &[u64], cpu: CpuPlace) -> usize
    requires image { Image cpu.c cpu.n m.now }
    ensures { (result ≡ get_or m.now (cpu_place cpu.n cpu.k + queue_count) 0) × (result ≤ 64) × ((M : Machine) → m.now ≡ encode M → Fits cpu.c cpu.n M → result ≡ length (cpu_at M cpu.k).queue) }
{
    let at = cpu.start() + places::QUEUE_COUNT;
    numbers::index(m[at])
}

pub fn entry(m: &[u64], cpu: CpuPlace, i: usize) -> Entry
    requires image { Image cpu.c cpu.n m.now }
    requires bounded { (i < get_or m.now (cpu_place cpu.n cpu.k + queue_count) 0) }
    ensures { EntryRead cpu.c cpu.n cpu.k i m.now result }
{
    let at = cpu.start();
    let end = at + places::BLOCK_SIZE;
    run_queue::entry(&m[at..end], i)
}
