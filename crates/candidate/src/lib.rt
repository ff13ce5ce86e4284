// A context that is on no CPU, for trials with it: refusal 5 where it is gone, queued or in charge.
// In every function m is the image of a machine of c CPUs and n contexts (crate machine says why the three stay apart).
#![tactic(auto)]

ghost use Rattle.std.specs.Prelude.{◌≡◌, ◌<◌, ◌≤◌, length, get_or};
ghost use Rattle.percpu.specs.Places.{block_size, queue_count};
ghost use Rattle.machine.specs.Machine.{Machine, cpu_at};
ghost use Rattle.machine.specs.Encode.{encode};
ghost use Rattle.machine.specs.Shape.{Image, Fits};
ghost use Rattle.candidate.specs.Candidate.{not_on, on_none, candidate};
ghost use Rattle.candidate.specs.Words.{no_word_queued};
ghost use Rattle.refusal.specs.Number.{numbered};

use machine::CpuPlace;
use percpu::places;
use refusal::Refusal;

// No entry of the queue in the block b is context x's.
fn not_queued(b: &[u64], x: u64) -> bool
    requires { (length b.now ≡ block_size) × (get_or b.now queue_count 0 ≤ 64) }
    ensures { result ≡ no_word_queued x b.now }
{
    let end = places::ENTRY_CONTEXT_REF + numbers::index(b[places::QUEUE_COUNT]);
    !b[places::ENTRY_CONTEXT_REF..end].contains(&x)
}

// Context x is neither in charge of the CPU nor queued there.
fn not_on(m: &[u64], cpu: CpuPlace, x: u64) -> bool
    requires image { Image cpu.c cpu.n m.now }
    ensures { (M : Machine) → m.now ≡ encode M → Fits cpu.c cpu.n M → result ≡ not_on x (cpu_at M cpu.k) }
{
    let at = cpu.start();
    let end = at + places::BLOCK_SIZE;
    m[at] == 0 || (m[at + places::SCHED_CTXT] != x && not_queued(&m[at..end], x))
}

fn on_none(m: &[u64], c: usize, n: usize, x: u64) -> bool
    requires { Image c n m.now }
    ensures { (M : Machine) → m.now ≡ encode M → Fits c n M → result ≡ on_none M x }
{
    for k in 0..c {
        if !not_on(m, CpuPlace { c, n, k }, x) {
            return false;
        }
    }
    true
}

pub fn candidate(
    m: &[u64],
    c: usize,
    n: usize,
    cpu: u64,
    context: u64,
) -> Result<(usize, usize), Refusal>
    requires { Image c n m.now }
    ensures { (M : Machine) → m.now ≡ encode M → Fits c n M → numbered result ≡ candidate M cpu context }
{
    let k = machine::get_percpu_block(m, c, n, cpu).ok_or(Refusal::Name)?;
    let x = machine::look_up(m, c, n, context).ok_or(Refusal::Name)?;
    if on_none(m, c, n, context) {
        return Ok((k, x));
    }
    Err(Refusal::Name)
}
