// The writer's turn and the rival's turn: each is decided by what the writer can force after a choice, with one round less to come.
ghost use Rattle.std.specs.Prelude.{◌≡◌, ◌≤◌, ◌<◌, length};
ghost use Rattle.machine.specs.Encode.{max_image_size};
ghost use Rattle.rival.specs.Game.{in_charge, first_choice, forces, forces_after, forces_against};
ghost use Rattle.rival.specs.Reached.{choices_against, Inside, InTime};

use percpu::places;
use rounds::Choice;

const CHOICES: &[Choice] = &[Choice::GoOn, Choice::Yield, Choice::Block];

// How many contexts the image has, the CPU, and the two contexts. As methods the functions below would have the same contracts, since Inside
// speaks of the image too; time and rounds stay two numbers, since four of the five contracts that have them ask for `1 ≤ rounds` besides (d).
#[derive(Clone, Copy)]
pub struct Parties {
    pub contexts: usize,
    pub cpu: usize,
    pub writer: usize,
    pub rival: usize,
}

pub fn in_charge(m: &[u64], p: Parties) -> u64
    requires { Inside p (length m.now) }
    ensures { result ≡ in_charge p m.now }
{
    let at = machine::cpu_place(p.contexts, p.cpu);
    m[at + places::SCHED_CTXT]
}

// The choices that the one in charge has, which is not the writer.
fn choices(m: &[u64], p: Parties) -> &'static [Choice]
    requires { Inside p (length m.now) }
    ensures { result.now ≡ choices_against p m.now }
{
    if in_charge(m, p) == numbers::word(p.rival) {
        return CHOICES;
    }
    &CHOICES[..1]
}

// Whether the writer can force the end from an image.
#[cycle(forces)]
fn forces(m: &[u64], p: Parties, time: u64, rounds: u64) -> bool
    requires inside { Inside p (length m.now) }
    requires in_time { InTime rounds time }
    ensures { result ≡ forces p rounds time m.now }
{
    let own = in_charge(m, p) == numbers::word(p.writer);
    if rounds == 0 {
        return own;
    }
    if own {
        return writer_turn(m, p, time, rounds).is_some();
    }
    rival_turn(m, p, time, rounds)
}

// The same after a choice of x, played on a copy of the image. A branch in which a call is refused is lost to the writer.
#[cycle(forces)]
fn forces_after(
    m: &[u64],
    copy: &mut [u64],
    p: Parties,
    x: usize,
    time: u64,
    rounds: u64,
    choice: Choice,
) -> bool
    requires inside { Inside p (length m.now) }
    requires x_lt_contexts { (x < p.contexts) × (max_image_size ≤ length copy.old) }
    requires in_time { (InTime rounds time) × (1 ≤ rounds) }
    ensures { result ≡ forces_after p rounds time m.now x choice }
{
    let len = m.len();
    words::copy(m, copy, len);
    rounds::play(&mut copy[0..len], numbers::word(p.cpu), x, time, choice)
        && forces(&copy[0..len], p, time + rounds::nanos(choice), rounds - 1)
}

// The first choice after which the writer, which is in charge, can force the end.
#[cycle(forces)]
pub fn writer_turn(m: &[u64], p: Parties, time: u64, rounds: u64) -> Option<Choice>
    requires inside { Inside p (length m.now) }
    requires in_time { (InTime rounds time) × (1 ≤ rounds) }
    ensures { result ≡ first_choice (forces_after p rounds time m.now p.writer) }
{
    let mut copy = [0u64; machine::MAX_IMAGE_SIZE];
    for &choice in CHOICES {
        if forces_after(m, &mut copy, p, p.writer, time, rounds, choice) {
            return Some(choice);
        }
    }
    None
}

// Whether the writer can force the end whatever the rival does, if that is in charge; anyone else goes on.
#[cycle(forces)]
pub fn rival_turn(m: &[u64], p: Parties, time: u64, rounds: u64) -> bool
    requires inside { Inside p (length m.now) }
    requires in_time { (InTime rounds time) × (1 ≤ rounds) }
    ensures { result ≡ forces_against p rounds time m.now }
{
    let mut copy = [0u64; machine::MAX_IMAGE_SIZE];
    for &choice in choices(m, p) {
        if !forces_after(m, &mut copy, p, p.rival, time, rounds, choice) {
            return false;
        }
    }
    true
}
