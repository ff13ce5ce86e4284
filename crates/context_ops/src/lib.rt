// Operations 4 to 7 on an image that was checked: `unblock_context`, `drain_ipi_context_wakeups`, `block` and `hard_block`.
// In every function m is the image of a machine of c CPUs and n contexts (crate machine says why the three stay apart).
#![tactic(auto)]

mod named;
mod wake;

ghost use Rattle.std.specs.Prelude.{◌≡◌, ℕ, ◌+◌, ◌<◌};
ghost use Rattle.columns.specs.Common.{mark};
ghost use Rattle.machine.specs.Machine.{Machine, set_context};
ghost use Rattle.machine.specs.Encode.{encode};
ghost use Rattle.machine.specs.Shape.{ContextFits, Image, Fits};
ghost use Rattle.machine.specs.LookUp.{get_percpu_block};
ghost use Rattle.machine.specs.Outcome.{finished};
ghost use Rattle.context_ops.specs.Named.{named};
ghost use Rattle.context_ops.specs.Wakeup.{wakeup_context};
ghost use Rattle.context_ops.specs.Reply.{reply, replied, reply_to, reply_on};
ghost use Rattle.context_ops.specs.Operations.{unblock_context, drain_ipi_context_wakeups, block_with, block, hard_block};

use answer::Answer;
use context::{Context, Status};
use machine::CpuPlace;
pub use named::resolve;
use percpu::places::{BLOCK_SIZE, IPI_COUNT, LOCAL_COUNT};
use refusal::{Refusal, refused};
pub use wake::wakeup_on;

// The record q of context x stored, and its name on the list of its last CPU or of this one.
fn wakeup_context(m: &mut [u64], cpu: CpuPlace, x: usize, q: Context, res: u64) -> Answer
    requires image { Image cpu.c cpu.n m.old }
    requires bounded { x < cpu.n }
    requires context_fits { ContextFits cpu.c q }
    ensures { (M : Machine) → m.old ≡ encode M → Fits cpu.c cpu.n M → reply result m.new ≡ replied m.old (wakeup_context cpu.k x res (set_context x q M)) }
{
    let other = wake::other_cpu(m, cpu, q.cpu_id);
    wake::wakeup_on(m, cpu, other, x, q, res)
}

pub fn unblock(m: &mut [u64], cpu: CpuPlace, x: usize) -> Answer
    requires image { Image cpu.c cpu.n m.old }
    requires bounded { x < cpu.n }
    ensures { (M : Machine) → m.old ≡ encode M → Fits cpu.c cpu.n M → reply result m.new ≡ replied m.old (unblock_context cpu.k x M) }
{
    let q = machine::load(m, cpu.c, cpu.n, x);
    let mut woken = q;
    if woken.unblock_no_ipi() {
        return wakeup_context(m, cpu, x, woken, 1);
    }
    if q.status.is_runnable() {
        return wakeup_context(m, cpu, x, q, 0);
    }
    Answer {
        refusal: 0,
        result: 0,
        interrupt: 0,
        rule: 0,
    }
}

fn store_changed(m: &mut [u64], c: usize, n: usize, x: usize, q: Context, done: bool) -> Answer
    requires image { Image c n m.old }
    requires x_lt_n { x < n }
    requires context_fits { ContextFits c q }
    ensures { (M : Machine) → m.old ≡ encode M → Fits c n M → reply result m.new ≡ replied m.old (finished (mark done) (set_context x q M)) }
{
    machine::store(m, c, n, x, q);
    Answer {
        refusal: 0,
        result: done as u64,
        interrupt: 0,
        rule: 0,
    }
}

pub fn unblock_context(m: &mut [u64], c: usize, n: usize, cpu: u64, context: u64) -> Answer
    requires { Image c n m.old }
    ensures { (M : Machine) → m.old ≡ encode M → Fits c n M → reply result m.new ≡ reply_to m.old (λ (k x : ℕ). unblock_context k x M) (named M cpu context) }
{
    match named::resolve(m, c, n, cpu, context) {
        Err(refusal) => refused(refusal),
        Ok((k, x)) => unblock(m, CpuPlace { c, n, k }, x),
    }
}

fn block_live(m: &mut [u64], c: usize, n: usize, x: usize, status: Status) -> Answer
    requires image { Image c n m.old }
    requires x_lt_n { x < n }
    ensures { (M : Machine) → m.old ≡ encode M → Fits c n M → reply result m.new ≡ replied m.old (block_with status x M) }
{
    let mut q = machine::load(m, c, n, x);
    let done = q.blocked_as(status);
    store_changed(m, c, n, x, q, done)
}

fn block_with(m: &mut [u64], c: usize, n: usize, cpu: u64, context: u64, status: Status) -> Answer
    requires { Image c n m.old }
    ensures { (M : Machine) → m.old ≡ encode M → Fits c n M → reply result m.new ≡ reply_to m.old (λ (k x : ℕ). block_with status x M) (named M cpu context) }
{
    match named::resolve(m, c, n, cpu, context) {
        Err(refusal) => refused(refusal),
        Ok((_, x)) => block_live(m, c, n, x, status),
    }
}

pub fn block(m: &mut [u64], c: usize, n: usize, cpu: u64, context: u64) -> Answer
    requires { Image c n m.old }
    ensures { (M : Machine) → m.old ≡ encode M → Fits c n M → reply result m.new ≡ reply_to m.old (λ (k x : ℕ). block x M) (named M cpu context) }
{
    block_with(m, c, n, cpu, context, Status::Blocked)
}

pub fn hard_block(m: &mut [u64], c: usize, n: usize, cpu: u64, context: u64) -> Answer
    requires { Image c n m.old }
    ensures { (M : Machine) → m.old ≡ encode M → Fits c n M → reply result m.new ≡ reply_to m.old (λ (k x : ℕ). hard_block x M) (named M cpu context) }
{
    block_with(m, c, n, cpu, context, Status::Stopped)
}

// The interrupt list of a present CPU behind its local list.
fn drain(m: &mut [u64], cpu: CpuPlace) -> Answer
    requires image { Image cpu.c cpu.n m.old }
    ensures { (M : Machine) → m.old ≡ encode M → Fits cpu.c cpu.n M → reply result m.new ≡ replied m.old (drain_ipi_context_wakeups cpu.k M) }
{
    let at = cpu.start();
    let end = at + BLOCK_SIZE;
    let local = m[at + LOCAL_COUNT];
    let ipi = m[at + IPI_COUNT];
    if 64 < local + ipi {
        return refused(Refusal::NoRoom);
    }
    wakeup_lists::drain_ipi(&mut m[at..end]);
    Answer {
        refusal: 0,
        result: 0,
        interrupt: 0,
        rule: 0,
    }
}

pub fn drain_ipi_context_wakeups(m: &mut [u64], c: usize, n: usize, cpu: u64) -> Answer
    requires { Image c n m.old }
    ensures { (M : Machine) → m.old ≡ encode M → Fits c n M → reply result m.new ≡ reply_on m.old (λ (k : ℕ). drain_ipi_context_wakeups k M) (get_percpu_block M cpu) }
{
    match machine::get_percpu_block(m, c, n, cpu) {
        Some(k) => drain(m, CpuPlace { c, n, k }),
        None => refused(Refusal::Name),
    }
}
