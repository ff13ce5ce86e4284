// The CPUs of the machine, and what they publish.
ghost use Rattle.std.specs.Prelude.{◌<◌, slice_index_or, slice_set};
ghost use Rattle.machine.specs.Machine.{no_cpu};
ghost use Rattle.model.specs.State.{on_cpu};
ghost use Rattle.model.specs.Steal.{published, mark_stealable};
ghost use Rattle.plain_state.specs.States.{cpu_in, state_in, Sound, Became};
ghost use Rattle.plain_moves.specs.Moves.{CpuSound, CpuBecame};
ghost use Rattle.plain_steal.specs.Stealing.{cpus_in, CpusSound, CpusBecame};

use plain_state::{Cpu, State};

#[derive(Clone, Copy)]
pub struct Cpus {
    pub cpus: [Cpu; 4],
}

impl Cpus {
    // CPU j of c.
    pub fn cpu(self, c: usize, j: usize) -> Cpu
        requires { (CpusSound c self) × (j < c) }
        ensures { CpuBecame result (slice_index_or (cpus_in c self) j no_cpu) }
    {
        self.cpus[j]
    }

    pub fn put(mut self, c: usize, j: usize, p: Cpu) -> Cpus
        requires { (CpusSound c self) × (CpuSound p) × (j < c) }
        ensures { CpusBecame c result (slice_set (cpus_in c self) j (cpu_in p)) }
    {
        self.cpus[j] = p;
        self
    }
}

// What other CPUs read of this one.
pub fn publish(s: State, n: usize) -> State
    requires { Sound n s }
    ensures { Became n result (on_cpu published (state_in n s)) }
{
    let mut b = s.cpu.block;
    b.queue_len = numbers::word(s.cpu.queue.len);
    b.published_weight = b.total_weight;
    plain_handover::with_block(s, n, b)
}

// And of the victim.
pub fn publish_victim(mut v: Cpu) -> Cpu
    requires { CpuSound v }
    ensures { CpuBecame result (mark_stealable (published (cpu_in v))) }
{
    v.block.queue_len = numbers::word(v.queue.len);
    v.block.published_weight = v.block.total_weight;
    v.block.stealable = 0 < v.queue.len;
    v
}
