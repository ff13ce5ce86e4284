// The choice, by what the scan found.
ghost use Rattle.std.specs.Prelude.{◌≡◌, false};
ghost use Rattle.machine.specs.Machine.{Machine};
ghost use Rattle.machine.specs.Encode.{encode};
ghost use Rattle.machine.specs.Shape.{Fits, Image};
ghost use Rattle.model.specs.State.{State};
ghost use Rattle.model.specs.Scan.{Scan};
ghost use Rattle.model.specs.Choice.{choice};
ghost use Rattle.model.specs.Rule.{rule_of};
ghost use Rattle.select_judge.specs.Values.{choice_of, BestBelow, WinnerBelow};
ghost use Rattle.select_judge.specs.Holding.{Holding, Chosen};

use select_judge::{Holder, Scanned, Selected};

// What the choice needs of the scan: the record of the eligible entry, where there is one.
pub fn choose(m: &[u64], c: usize, n: usize, h: Holder, w: Scanned) -> Selected
    requires image { Image c n m.now }
    requires best_below { (BestBelow n w.eligible_best) × (BestBelow n w.ineligible_best) }
    ensures result_value { (M : Machine) → m.now ≡ encode M → Fits c n M → (s : State) (f : Scan) → Holding h s → Chosen M.contexts w f → choice_of result ≡ choice s f }
    ensures winner_below { WinnerBelow n result.winner }
    ensures rule_value { (M : Machine) → m.now ≡ encode M → Fits c n M → (s : State) (f : Scan) → Holding h s → Chosen M.contexts w f → result.rule ≡ rule_of s false f }
{
    let late = w.ineligible_best;
    match w.eligible_best {
        None => select_judge::without_entry(h, late),
        Some(e) => {
            let x = numbers::index(e.context_ref);
            let q = machine::load(m, c, n, x);
            select_judge::against(h, late, e, q)
        }
    }
}
