// The scan of a CPU's queue, the clean-up after it, and the choice of who runs next (`select_next_context` of context/switch.rs).
// In every function m is the image of a machine of c CPUs and n contexts (crate machine says why the three stay apart).
#![tactic(auto)]

mod choice;
mod clean_up;
mod read;
mod scan;

ghost use Rattle.std.specs.Prelude.{◌≡◌, false, ◌<◌, ◌≤◌};
ghost use Rattle.machine.specs.Machine.{Machine};
ghost use Rattle.machine.specs.Encode.{encode};
ghost use Rattle.machine.specs.Shape.{Fits, Image};
ghost use Rattle.model.specs.State.{State, state_of};
ghost use Rattle.model.specs.Choice.{choice, chosen};
ghost use Rattle.model.specs.Rule.{rule_of};
ghost use Rattle.model.specs.Schedule.{scanned};
ghost use Rattle.stages.specs.Stage.{Stage};
ghost use Rattle.select_judge.specs.Values.{choice_of, BestBelow, WinnerBelow};
ghost use Rattle.select.specs.Scanning.{found};
ghost use Rattle.select_judge.specs.Holding.{Holding};
ghost use Rattle.select.specs.Cleaning.{chosen_after};

use entries::Key;
use machine::CpuPlace;
use select_judge::{Holder, Scanned, Selected};

// how many keys a scan can remove
pub const MAX_KEYS: usize = 64;

// After the scan of the queue, which found w: the choice, the clean-up, and the winner's key out of the queue.
fn apply_choice(
    m: &mut [u64],
    d: &[Key; MAX_KEYS],
    cpu: CpuPlace,
    h: Holder,
    w: Scanned,
) -> Selected
    requires image { Image cpu.c cpu.n m.old }
    requires bounded { w.contexts_to_remove ≤ 64 }
    requires best_below { (BestBelow cpu.n w.eligible_best) × (BestBelow cpu.n w.ineligible_best) }
    ensures stage { (s : State) → Holding h s → Stage cpu.c cpu.n cpu.k m.old m.new false (choice_of result) (λ (a : State). chosen_after s (found a.contexts w d.now) a) (λ (a : State). choice s (found a.contexts w d.now)) }
    ensures winner_below { WinnerBelow cpu.n result.winner }
    ensures rule_value { (s : State) → Holding h s → (M : Machine) → m.old ≡ encode M → Fits cpu.c cpu.n M → result.rule ≡ rule_of s false (found M.contexts w d.now) }
{
    let r = choice::choose(m, cpu.c, cpu.n, h, w);
    let keys = &d[..w.contexts_to_remove];
    clean_up::clean_up(m, keys, cpu, w.weight_change, r.v);
    clean_up::take_out(m, cpu, r.winner);
    r
}

// The scan of the queue at a time, the clean-up and the choice. The scratch is for the keys to remove.
pub fn select(m: &mut [u64], cpu: CpuPlace, time: u64, scratch: &mut [Key; MAX_KEYS]) -> Selected
    requires image { Image cpu.c cpu.n m.old }
    ensures stage { Stage cpu.c cpu.n cpu.k m.old m.new false (choice_of result) (λ (s : State). chosen (choice s (scanned cpu.k time s)) (scanned cpu.k time s) s) (λ (s : State). choice s (scanned cpu.k time s)) }
    ensures winner_below { WinnerBelow cpu.n result.winner }
    ensures rule_value { (M : Machine) → m.old ≡ encode M → Fits cpu.c cpu.n M → result.rule ≡ rule_of (state_of cpu.k M) false (scanned cpu.k time (state_of cpu.k M)) }
{
    let b = stages::load_block(m, cpu);
    let h = read::holder(m, cpu, b);
    let t = read::scanner(cpu.k, time, b, h);
    let w = scan::scan_queue(m, scratch, cpu, t);
    apply_choice(m, scratch, cpu, h, w)
}
