// The weight of a CPU, added up from its queue entries and the context in charge.
// In every function m is the image of a machine of c CPUs and n contexts (crate machine says why the three stay apart).
#![tactic(auto)]

ghost use Rattle.std.specs.Prelude.{◌≡◌, ◌*◌, ◌<◌, ◌≤◌, length, get_or};
ghost use Rattle.weights.specs.Weights.{max_weight};
ghost use Rattle.percpu.specs.Places.{block_size, queue_count};
ghost use Rattle.machine.specs.Machine.{Machine};
ghost use Rattle.machine.specs.Encode.{encode};
ghost use Rattle.machine.specs.Shape.{Image, Fits};
ghost use Rattle.machine.specs.LookUp.{get_percpu_block};
ghost use Rattle.total_weight.specs.TotalWeight.{total_weight_of, total_weight_answer};
ghost use Rattle.total_weight.specs.Words.{weight_words, Light};

use answer::Answer;
use machine::CpuPlace;
use percpu::places;
use refusal::{Refusal, refused};

// The weights of the queue in the block b.
fn queue_weight(b: &[u64]) -> u64
    requires b_len { length b.now ≡ block_size }
    requires light { Light b.now }
    ensures { (result ≡ weight_words b.now (get_or b.now queue_count 0)) × (result ≤ max_weight * 64) }
{
    let count = numbers::index(b[places::QUEUE_COUNT]);
    let mut total = 0;
    for i in 0..count {
        total += b[places::ENTRY_WEIGHT + i];
    }
    total
}

pub fn total_weight(m: &[u64], cpu: CpuPlace) -> u64
    requires image { Image cpu.c cpu.n m.now }
    ensures { (M : Machine) → m.now ≡ encode M → Fits cpu.c cpu.n M → result ≡ total_weight_of M cpu.k }
{
    let at = cpu.start();
    let end = at + places::BLOCK_SIZE;
    let queued = queue_weight(&m[at..end]);
    let x = numbers::index(m[at + places::SCHED_CTXT]);
    let q = machine::load(m, cpu.c, cpu.n, x);
    if q.is_active {
        return queued + weights::weight_of(q.prio);
    }
    queued
}

// Refusal 5, or the weight of the CPU as the result.
pub fn answer(m: &[u64], c: usize, n: usize, cpu: u64) -> Answer
    requires { Image c n m.now }
    ensures { (M : Machine) → m.now ≡ encode M → Fits c n M → result ≡ total_weight_answer M (get_percpu_block M cpu) }
{
    let Some(k) = machine::get_percpu_block(m, c, n, cpu) else {
        return refused(Refusal::Name);
    };
    answer::accepted(total_weight(m, CpuPlace { c, n, k }))
}
