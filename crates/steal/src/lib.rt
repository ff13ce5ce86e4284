// Work stealing from other CPUs (`select_next_context`, context/switch.rs), in place on the image.
// In every function m is an image (crate machine says why it stays apart), cpu the place in it of this CPU, and t the victim.
#![tactic(auto)]

mod block;
mod cpu;
mod moving;
mod search;

ghost use Rattle.std.specs.Prelude.{◌≡◌, false, ◌<◌, is_err};
ghost use Rattle.percpu.specs.Cpu.{Cpu};
ghost use Rattle.machine.specs.Machine.{Machine};
ghost use Rattle.machine.specs.Encode.{encode};
ghost use Rattle.machine.specs.Shape.{Image, Fits};
ghost use Rattle.model.specs.State.{State, state_of, on_cpu};
ghost use Rattle.model.specs.Steal.{count_steal, should_steal, steal};
ghost use Rattle.stages.specs.Stage.{Staged, Ranged};
ghost use Rattle.steal_judge.specs.Names.{locked_of};
ghost use Rattle.steal.specs.Moves.{winner_of, Steals};
ghost use Rattle.stages.specs.Bounds.{t_timed, b_charged};

use machine::CpuPlace;
use moving::Theft;
use percpu::places::BLOCK_SIZE;
pub use search::Victim;
use stages::NoRoom;
use steal_judge::Locked;

fn count_steal(m: &mut [u64], cpu: CpuPlace)
    requires image { Image cpu.c cpu.n m.old }
    ensures { Staged cpu.c cpu.n cpu.k m.old m.new false (λ (s : State). on_cpu (λ (p : Cpu). count_steal p) s) }
{
    let at = cpu.start();
    let end = at + BLOCK_SIZE;
    block::count_steal(&mut m[at..end]);
}

fn should_steal(m: &[u64], cpu: CpuPlace, w: Option<usize>) -> bool
    requires image { Image cpu.c cpu.n m.now }
    ensures { (M : Machine) → m.now ≡ encode M → Fits cpu.c cpu.n M → result ≡ should_steal (state_of cpu.k M) w }
{
    let b = stages::load_block(m, cpu);
    let idle = b.sched_ctxt == b.idle_ctxt;
    steal_judge::should_steal(b.steal_counter, idle, w.is_some())
}

// runs: the holder is runnable; locked: the contexts that the decision keeps locked; w: who has won before. Who has won then.
pub fn steal(
    m: &mut [u64],
    cpu: CpuPlace,
    runs: bool,
    locked: Locked,
    w: Option<usize>,
) -> Result<Option<usize>, NoRoom>
    requires image { Image cpu.c cpu.n m.old }
    requires ranged { Ranged cpu.c cpu.n t_timed b_charged m.old }
    ensures { Steals cpu.c cpu.n cpu.k m.old m.new (is_err result) (winner_of result) (λ (M : Machine). steal cpu.k runs (locked_of locked) M.cpus w (state_of cpu.k M)) }
{
    let due = should_steal(m, cpu, w);
    count_steal(m, cpu);
    if !due {
        return Ok(w);
    }
    let Some(v) = search::search(m, cpu, w, locked) else {
        return Ok(w);
    };
    let theft = Theft {
        cpu,
        from: v.cpu,
        runs,
    };
    moving::rob(m, theft, w, v.got)
}
