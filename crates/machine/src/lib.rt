// The machine image: where a context's record and a CPU's block stand, and looking them up.
// In every function m is the image of a machine of c CPUs and n contexts. m stays beside them: a struct that held it by `&mut`
// would take, of each function that changes it, the clause that it holds the same words still (tried on `store`), in place of
// `requires image`. c and n alone stay two numbers: a struct of both would save a parameter and lengthen each clause.
#![tactic(auto)]

ghost use Rattle.std.specs.Prelude.{◌≡◌, ℕ, ◌+◌, ◌*◌, ◌<◌, ◌≤◌, length, get_or};
ghost use Rattle.machine.specs.Machine.{Machine, context_at, set_context};
ghost use Rattle.machine.specs.Encode.{encode, context_place, cpu_place};
ghost use Rattle.machine.specs.Shape.{Image, Fits, ContextFits, Went};
ghost use Rattle.machine.specs.LookUp.{look_up, get_percpu_block};

use context::Context;
use context::places::{GONE, RECORD_SIZE};
use percpu::places::{BLOCK_SIZE, PRESENT};

pub const MAX_CPUS: usize = 4;

pub const MAX_CONTEXTS: usize = 64;

// the counts of CPUs and of contexts, in front
pub const HEADER_SIZE: usize = 2;

// the words of the longest image
pub const MAX_IMAGE_SIZE: usize = HEADER_SIZE + RECORD_SIZE * MAX_CONTEXTS + BLOCK_SIZE * MAX_CPUS;

// CPU k of the c of an image that has n contexts.
#[derive(Clone, Copy)]
pub struct CpuPlace {
    pub c: usize,
    pub n: usize,
    pub k: usize,
    pub ghost present: { k < c },
}

// where the record of context x begins
pub fn context_place(x: usize) -> usize
    requires { x ≤ 64 }
    ensures { result ≡ context_place x }
{
    HEADER_SIZE + RECORD_SIZE * x
}

// where the block of CPU k begins, of n contexts; that of the CPU behind the last is the image's length
pub fn cpu_place(n: usize, k: usize) -> usize
    requires { (n ≤ 64) × (k ≤ 4) }
    ensures { result ≡ cpu_place n k }
{
    context_place(n) + BLOCK_SIZE * k
}

impl CpuPlace {
    // where its block begins
    pub fn start(self) -> usize
        requires { (self.n ≤ 64) × (self.k ≤ 4) }
        ensures { result ≡ cpu_place self.n self.k }
    {
        cpu_place(self.n, self.k)
    }
}

pub fn load(m: &[u64], c: usize, n: usize, x: usize) -> Context
    requires image { Image c n m.now }
    requires x_lt_n { x < n }
    ensures { (M : Machine) → m.now ≡ encode M → Fits c n M → result ≡ context_at M.contexts x }
{
    let at = context_place(x);
    let end = at + RECORD_SIZE;
    context::load_context(&m[at..end])
}

pub fn store(m: &mut [u64], c: usize, n: usize, x: usize, q: Context)
    requires image { Image c n m.old }
    requires x_lt_n { x < n }
    requires context_fits { ContextFits c q }
    ensures { Went c n m.old m.new (λ (M : Machine). set_context x q M) }
{
    let at = context_place(x);
    let end = at + RECORD_SIZE;
    context::store_context(&mut m[at..end], q);
}

// Context x, if it is alive; there may be no more than x contexts.
pub fn look_up(m: &[u64], c: usize, n: usize, x: u64) -> Option<usize>
    requires { Image c n m.now }
    ensures { (M : Machine) → m.now ≡ encode M → Fits c n M → result ≡ look_up M x }
{
    let i = numbers::index(x);
    if n <= i {
        return None;
    }
    let at = context_place(i);
    if m[at + GONE] == 1 {
        return None;
    }
    Some(i)
}

// CPU k, if it is present; there may be no more than k CPUs.
pub fn get_percpu_block(m: &[u64], c: usize, n: usize, k: u64) -> Option<usize>
    requires { Image c n m.now }
    ensures { (M : Machine) → m.now ≡ encode M → Fits c n M → result ≡ get_percpu_block M k }
{
    let i = numbers::index(k);
    if c <= i {
        return None;
    }
    let at = cpu_place(n, i);
    if m[at + PRESENT] == 1 {
        return Some(i);
    }
    None
}
