// Who gets the slice. Nobody as an answer: the holder keeps it.
ghost use Rattle.std.specs.Prelude.{◌≡◌, ◌<◌, None};
ghost use Rattle.machine.specs.Machine.{Machine};
ghost use Rattle.machine.specs.Encode.{encode};
ghost use Rattle.machine.specs.Shape.{Image, Fits};
ghost use Rattle.model.specs.State.{state_of};
ghost use Rattle.model.specs.Handover.{next_context};

use machine::CpuPlace;

// Nobody won: a runnable holder keeps the slice, and so does the idle context.
fn without_winner(m: &[u64], cpu: CpuPlace, runs: bool) -> Option<usize>
    requires image { Image cpu.c cpu.n m.now }
    ensures { (M : Machine) → m.now ≡ encode M → Fits cpu.c cpu.n M → result ≡ next_context runs None (state_of cpu.k M) }
{
    if runs {
        return None;
    }
    let b = stages::load_block(m, cpu);
    if b.sched_ctxt == b.idle_ctxt {
        return None;
    }
    Some(numbers::index(b.idle_ctxt))
}

// `runs`: the holder is runnable.
pub fn next_context(m: &[u64], cpu: CpuPlace, runs: bool, winner: Option<usize>) -> Option<usize>
    requires image { Image cpu.c cpu.n m.now }
    ensures { (M : Machine) → m.now ≡ encode M → Fits cpu.c cpu.n M → result ≡ next_context runs winner (state_of cpu.k M) }
{
    match winner {
        Some(x) => Some(x),
        None => without_winner(m, cpu, runs),
    }
}
