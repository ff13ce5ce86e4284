// Operations 1 to 3 of the plain engine on an image that refusals 1 to 8 let pass: read, decided by value, built afresh.
// In every function m is an image (crate machine says why it stays apart), and cpu the place in it of a CPU.
#![tactic(auto)]

ghost use Rattle.std.specs.Prelude.{◌≡◌, ◌<◌};
ghost use Rattle.machine.specs.Machine.{Machine};
ghost use Rattle.machine.specs.Encode.{encode};
ghost use Rattle.machine.specs.Shape.{Image, Fits};
ghost use Rattle.switch_ops.specs.Reply.{call_of};
ghost use Rattle.plain_model.specs.State.{placed_machine};
ghost use Rattle.plain_model.specs.Schedule.{outcome_before};
ghost use Rattle.plain_state.specs.States.{Sound};
ghost use Rattle.plain_steal.specs.Stealing.{CpusSound};
ghost use Rattle.plain_words.specs.Stored.{ImageSized, Encoded};
ghost use Rattle.plain_decide.specs.Decided.{decided_in, DecidedTracks};
ghost use Rattle.plain_ops.specs.Loaded.{LoadedOf, Callable};

use machine::CpuPlace;
use plain_decide::Decided;
use plain_state::State;
use plain_steal::{Caller, Cpus};
use switch_ops::Decision;

// The CPU's state, and every CPU.
#[derive(Clone, Copy)]
pub struct Loaded {
    pub state: State,
    pub cpus: Cpus,
}

fn load(m: &[u64], cpu: CpuPlace) -> Loaded
    requires image { Image cpu.c cpu.n m.now }
    ensures { LoadedOf cpu.c cpu.n cpu.k m.now result }
{
    // the check takes no array straight from a call
    let contexts = plain_words::load_contexts(m, cpu.c, cpu.n);
    let all = plain_words::load_cpus(m, cpu.c, cpu.n);
    let cpus = Cpus { cpus: all };
    let state = State {
        contexts,
        cpu: cpus.cpu(cpu.c, cpu.k),
        no_room: false,
    };
    Loaded { state, cpus }
}

pub fn decide(m: &[u64], cpu: CpuPlace, time: u64, d: Decision) -> Decided
    requires image { Image cpu.c cpu.n m.now }
    requires callable { Callable cpu.c cpu.n cpu.k time d m.now }
    ensures { (M : Machine) → m.now ≡ encode M → Fits cpu.c cpu.n M → DecidedTracks cpu.n cpu.c cpu.k result (outcome_before (call_of d) cpu.k time M) }
{
    let loaded = load(m, cpu);
    let s = loaded.state;
    let cpus = loaded.cpus;
    let by = Caller {
        n: cpu.n,
        c: cpu.c,
        k: cpu.k,
        time,
    };
    match d {
        Decision::Tick => plain_decide::tick(s, by, cpus),
        Decision::Switch => plain_decide::switch(s, by, cpus),
        Decision::DirectSwitchTo(x) => plain_decide::direct_switch_to(s, by, x, cpus),
    }
}

// Every list is placed.
pub fn store(m: &mut [u64], cpu: CpuPlace, d: Decided)
    requires image_sized { ImageSized cpu.c cpu.n m.old }
    requires sound { (Sound cpu.n d.state) × (CpusSound cpu.c d.cpus) × (cpu.k < cpu.c) }
    ensures { Encoded cpu.c cpu.n m.old m.new (λ (M : Machine). placed_machine (decided_in cpu.n cpu.c cpu.k d).machine) }
{
    let cpus = d.cpus.put(cpu.c, cpu.k, d.state.cpu);
    plain_words::store::store_contexts(m, cpu.c, cpu.n, d.state.contexts);
    plain_words::store::store_cpus(m, cpu.c, cpu.n, cpus.cpus);
}
