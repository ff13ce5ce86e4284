// The choice and the stealing.
ghost use Rattle.std.specs.Prelude.{◌≡◌, false, List, ◌<◌, is_err, IfOk};
ghost use Rattle.percpu.specs.Cpu.{Cpu};
ghost use Rattle.machine.specs.Machine.{Machine};
ghost use Rattle.machine.specs.Encode.{encode};
ghost use Rattle.machine.specs.Shape.{Image, Fits};
ghost use Rattle.model.specs.State.{State, state_of, prev_runnable};
ghost use Rattle.stages.specs.Stage.{Ranged};
ghost use Rattle.schedule.specs.Stolen.{stolen_rule};
ghost use Rattle.schedule.specs.Part.{ruled_of, chosen_by, Part};
ghost use Rattle.schedule.specs.Named.{NamedBelow};
ghost use Rattle.stages.specs.Bounds.{t_timed, b_charged, b_stolen};

use crate::selecting::Next;
use answer::Rule;
use entries::Key;
use machine::CpuPlace;
use stages::NoRoom;
use steal_judge::Locked;

// An idle holder never counts as runnable.
pub fn prev_runnable(m: &[u64], cpu: CpuPlace) -> bool
    requires image { Image cpu.c cpu.n m.now }
    ensures { (M : Machine) → m.now ≡ encode M → Fits cpu.c cpu.n M → result ≡ prev_runnable (state_of cpu.k M) }
{
    let b = stages::load_block(m, cpu);
    b.sched_ctxt != b.idle_ctxt
        && machine::load(m, cpu.c, cpu.n, numbers::index(b.sched_ctxt))
            .status
            .is_runnable()
}

// Where nobody waits, the one who won was stolen.
#[tactic(auto, unfolding(crate::specs::Stolen::stolen_rule))]
fn after_stealing(rule: Rule, won: bool) -> Rule
    ensures { result ≡ stolen_rule won rule }
{
    if won && rule == Rule::Idle {
        return Rule::Stolen;
    }
    rule
}

// Who won after the stealing, and by which rule.
pub fn choose_and_steal(m: &mut [u64], cpu: CpuPlace, time: u64, runs: bool) -> Result<Next, NoRoom>
    requires image { Image cpu.c cpu.n m.old }
    requires ranged { Ranged cpu.c cpu.n t_timed b_charged m.old }
    requires runs_value { (M : Machine) → m.old ≡ encode M → Fits cpu.c cpu.n M → runs ≡ prev_runnable (state_of cpu.k M) }
    ensures part { Part cpu.c cpu.n cpu.k m.old m.new (is_err result) (ruled_of result) (λ (cpus : List Cpu) (s : State). chosen_by cpu.k time cpus s) }
    ensures named_below { IfOk result (λ next. NamedBelow cpu.n next.context × Ranged cpu.c cpu.n t_timed b_stolen m.new) }
{
    let b = stages::load_block(m, cpu);
    let none = Key {
        vd: 0,
        rem_slice: 0,
        ctxt_id: 0,
    };
    let mut keys = [none; select::MAX_KEYS];
    let s = select::select(m, cpu, time, &mut keys);
    let locked = Locked {
        sched_ctxt: numbers::index(b.sched_ctxt),
        best: s.locked,
    };
    let context = steal::steal(m, cpu, runs, locked, s.winner)?;
    let rule = after_stealing(s.rule, context.is_some());
    Ok(Next { context, rule })
}
