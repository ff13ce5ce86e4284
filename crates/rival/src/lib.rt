// Writer against rival (document 02, No. 13): whether the writer can force itself into charge, whatever the rival picks.
#![tactic(auto)]

mod turns;

ghost use Rattle.std.specs.Prelude.{◌≡◌, ◌∷◌, ◌++◌, ◌≤◌, length, Some, decimal};
ghost use Rattle.machine.specs.Machine.{Machine};
ghost use Rattle.machine.specs.Encode.{encode};
ghost use Rattle.machine.specs.Shape.{Image, Fits};
ghost use Rattle.machine.specs.LookUp.{look_up, get_percpu_block};
ghost use Rattle.numbers.specs.Limits.{max_number};
ghost use Rattle.rival.specs.Game.{refused, choice_number, game, is_game, parties, game_of, rival_call};
ghost use Rattle.rival.specs.Reached.{Inside, InTime};
ghost use Rattle.refusal.specs.Number.{refusal_number, numbered};

use refusal::Refusal;
use rounds::Choice;
use std::fmt;
pub use turns::Parties;

const MAX_ROUNDS: u64 = 6;

// 0 or the number of its refusal, whether the writer can force itself into charge, and its first winning choice: numbers, since C is handed them
#[repr(C)]
#[derive(Clone, Copy)]
pub struct Game {
    pub refusal: u64,
    pub forced: u64,
    pub choice: u64,
}

fn refused(refusal: Refusal) -> Game
    ensures { result ≡ refused (refusal_number refusal) }
{
    Game {
        refusal: refusal.into(),
        forced: 0,
        choice: 0,
    }
}

// As C is handed it. A `map_or` here leaves nothing known of its closure's answer (c).
fn number_of(choice: Option<Choice>) -> u64
    ensures { result ≡ choice_number choice }
{
    match choice {
        Some(choice) => choice as u64,
        None => 0,
    }
}

// The writer has the first choice if it is in charge.
fn play(m: &[u64], p: Parties, time: u64, rounds: u64) -> Game
    requires inside { Inside p (length m.now) }
    requires in_time { (InTime rounds time) × (1 ≤ rounds) }
    ensures { result ≡ game p rounds time m.now }
{
    if turns::in_charge(m, p) == numbers::word(p.writer) {
        let choice = turns::writer_turn(m, p, time, rounds);
        return Game {
            refusal: 0,
            forced: choice.is_some() as u64,
            choice: number_of(choice),
        };
    }
    Game {
        refusal: 0,
        forced: turns::rival_turn(m, p, time, rounds) as u64,
        choice: 0,
    }
}

// Two tests, since the proof did not close over what `contains` of a range says (c).
#[tactic(auto, unfolding(crate::specs::Game::is_game))]
fn is_game(p: Parties, rounds: u64) -> bool
    ensures { result ≡ is_game p.writer p.rival rounds }
{
    1 <= rounds && rounds <= MAX_ROUNDS && p.writer != p.rival
}

// Refusal 5 covers the CPU and both parties.
fn parties(
    m: &[u64],
    c: usize,
    n: usize,
    cpu: u64,
    writer: u64,
    rival: u64,
) -> Result<Parties, Refusal>
    requires { Image c n m.now }
    ensures { (M : Machine) → m.now ≡ encode M → Fits c n M → numbered result ≡ parties n (get_percpu_block M cpu) (look_up M writer) (look_up M rival) }
{
    Ok(Parties {
        contexts: n,
        cpu: machine::get_percpu_block(m, c, n, cpu).ok_or(Refusal::Name)?,
        writer: machine::look_up(m, c, n, writer).ok_or(Refusal::Name)?,
        rival: machine::look_up(m, c, n, rival).ok_or(Refusal::Name)?,
    })
}

// On an image that was checked.
fn rival_on(
    m: &[u64],
    c: usize,
    n: usize,
    cpu: u64,
    time: u64,
    writer: u64,
    rival: u64,
    rounds: u64,
) -> Game
    requires image { Image c n m.now }
    requires time_le_max_number { time ≤ max_number }
    ensures { (M : Machine) → m.now ≡ encode M → Fits c n M → result ≡ game_of rounds time m.now (parties n (get_percpu_block M cpu) (look_up M writer) (look_up M rival)) }
{
    match parties(m, c, n, cpu, writer, rival) {
        Err(refusal) => refused(refusal),
        Ok(p) if is_game(p, rounds) => play(m, p, time, rounds),
        Ok(_) => refused(Refusal::Game),
    }
}

// Whether the writer can force itself into charge at the end of the last round, of any words.
pub fn rival(image: &[u64], cpu: u64, time: u64, writer: u64, rival: u64, rounds: u64) -> Game
    ensures { result ≡ rival_call image.now cpu time writer rival rounds }
{
    match calls::check(image, time) {
        Err(refusal) => refused(refusal),
        Ok((c, n)) => rival_on(image, c, n, cpu, time, writer, rival, rounds),
    }
}

// Its three numbers, a space (32) between two.
impl fmt::Display for Game {
    ghost output = { λ a. Some (decimal a.refusal ++ 32 ∷ decimal a.forced ++ 32 ∷ decimal a.choice) };

    fn fmt<W: fmt::Write>(&self, f: &mut fmt::Formatter<W>) -> fmt::Result {
        write!(f, "{} {} {}", self.refusal, self.forced, self.choice)
    }
}
