// The calls, of any words: the image is checked, and refused by document 01's number or worked on.
#![tactic(auto)]

mod single;

ghost use Rattle.std.specs.Prelude.{◌≡◌};
ghost use Rattle.context_ops.specs.Reply.{reply};
ghost use Rattle.calls.specs.Call.{unblock_group_call, total_weight_call, call};
ghost use Rattle.asked.specs.OfReply.{asked};
ghost use Rattle.ask.specs.Ask.{ask, commit};
ghost use Rattle.window.specs.Shares.{share_answer};
ghost use Rattle.call_in_window.specs.CallInWindow.{window_reply, call_in_window};
ghost use Rattle.humblest.specs.Humblest.{humblest};
ghost use Rattle.rival.specs.Game.{rival_call};
ghost use Rattle.run.specs.Run.{run_reply, run};
ghost use Rattle.ronthuyal.specs.Demand.{DemandMet};
ghost use Rattle.ronthuyal.specs.Leaves.{Leaves};
ghost use Rattle.ronthuyal.specs.Apart.{apart_call};
ghost use Rattle.numbers.specs.Limits.{max_number, max_word};

use answer::Answer;
use asked::Asked;
use humblest::Humblest;
use operations::Call;
use refusal::refused;
use rival::Game;
pub use single::{
    ronthuyal_block, ronthuyal_direct_switch_to, ronthuyal_drain_ipi_context_wakeups,
    ronthuyal_hard_block, ronthuyal_switch, ronthuyal_tick, ronthuyal_unblock_context,
};
use window::Whose;

// Any operation, by its number; operations 1, 2 and 5 leave the context aside.
pub fn ronthuyal_call(
    image: &mut [u64],
    operation: u64,
    cpu: u64,
    time: u64,
    context: u64,
) -> Answer
    ensures image_after { reply result image.new ≡ call image.old operation cpu time context }
    ensures demand_met { DemandMet image.old image.new operation cpu time context result.refusal }
    ensures leaves { Leaves max_word image.old image.new result.refusal }
{
    let q = Call {
        operation,
        cpu,
        time,
        context,
    };
    operations::call(image, q)
}

// Any operation by the plain engine: the answer and every word are those of `ronthuyal_call`.
pub fn ronthuyal_plain_call(
    image: &mut [u64],
    operation: u64,
    cpu: u64,
    time: u64,
    context: u64,
) -> Answer
    ensures image_after { reply result image.new ≡ call image.old operation cpu time context }
    ensures demand_met { DemandMet image.old image.new operation cpu time context result.refusal }
    ensures leaves { Leaves max_word image.old image.new result.refusal }
{
    plain_calls::call(image, operation, cpu, time, context)
}

// Operation 4 for every context of the mask, by rising number, or for none. The result is how many were soft-blocked.
pub fn ronthuyal_unblock_group(image: &mut [u64], cpu: u64, time: u64, mask: u64) -> Answer
    ensures image_after { reply result image.new ≡ unblock_group_call image.old cpu time mask }
    ensures leaves { Leaves max_number image.old image.new result.refusal }
{
    let checked = calls::check(image, time);
    match checked {
        Err(refusal) => refused(refusal),
        Ok((c, n)) => group_ops::unblock_group(image, c, n, cpu, mask),
    }
}

// The weight of a CPU, added up from its contexts. The result is the sum.
pub fn ronthuyal_total_weight(image: &[u64], cpu: u64) -> Answer
    ensures { reply result image.now ≡ total_weight_call image.now cpu }
{
    let checked = calls::check(image, 0);
    match checked {
        Err(refusal) => refused(refusal),
        Ok((c, n)) => total_weight::answer(image, c, n, cpu),
    }
}

// What a switch at that time would answer and leave on that CPU. The image is only read.
pub fn ronthuyal_ask(image: &[u64], cpu: u64, time: u64) -> Asked
    ensures { result ≡ ask image.now cpu time }
{
    ask::ask(image, cpu, time)
}

// Operation 2, if what it would answer and leave on that CPU is what was given.
pub fn ronthuyal_commit(
    image: &mut [u64],
    cpu: u64,
    time: u64,
    refusal: u64,
    res: u64,
    in_charge: u64,
    current: u64,
    v: u64,
) -> Answer
    ensures image_after { reply result image.new ≡ commit image.old cpu time (asked refusal res in_charge current v) }
    ensures demand_met { DemandMet image.old image.new 2 cpu time 0 result.refusal }
    ensures leaves { Leaves max_word image.old image.new result.refusal }
{
    let given = Asked {
        refusal,
        result: res,
        in_charge,
        current,
        v,
    };
    ask::commit(image, cpu, time, given)
}

// Any operation, by its number, beside a window of that CPU's last decisions: an accepted decision adds the context in charge before it and its nanoseconds.
pub fn ronthuyal_call_in_window(
    image: &mut [u64],
    window: &mut [u64],
    operation: u64,
    cpu: u64,
    time: u64,
    context: u64,
) -> Answer
    ensures window_after { window_reply result image.new window.new ≡ call_in_window image.old window.old operation cpu time context }
    ensures demand_met { DemandMet image.old image.new operation cpu time context result.refusal }
    ensures leaves { Leaves max_word image.old image.new result.refusal }
{
    let q = Call {
        operation,
        cpu,
        time,
        context,
    };
    call_in_window::call(image, window, q)
}

// The nanoseconds of one context in a window, which is checked for that many contexts. The result is the sum.
pub fn ronthuyal_share(window: &[u64], contexts: u64, context: u64) -> Answer
    ensures { result ≡ share_answer contexts (Whose.Context context) window.now }
{
    window::share(window, contexts, Whose::Context(context))
}

// The nanoseconds of all contexts in a window. The result is the sum.
pub fn ronthuyal_share_of_all(window: &[u64], contexts: u64) -> Answer
    ensures { result ≡ share_answer contexts Whose.All window.now }
{
    window::share(window, contexts, Whose::All)
}

// The largest priority number with which the context, put last on the CPU's local list, would be in charge after a switch at that time. The image is only read.
pub fn ronthuyal_humblest(image: &[u64], cpu: u64, time: u64, context: u64) -> Humblest
    ensures { result ≡ humblest image.now cpu time context }
{
    humblest::find(image, cpu, time, context)
}

// Whether the writer can force itself into charge at the end of so many rounds, whatever the rival picks. The image is only read.
pub fn ronthuyal_rival(
    image: &[u64],
    cpu: u64,
    time: u64,
    writer: u64,
    rival: u64,
    rounds: u64,
) -> Game
    ensures { result ≡ rival_call image.now cpu time writer rival rounds }
{
    rival::rival(image, cpu, time, writer, rival, rounds)
}

// Whether the two CPUs name no context together, in any roles: their switches give the same in either order. The result is 1 if so. The image is
// only read.
pub fn ronthuyal_apart(image: &[u64], one: u64, other: u64) -> Answer
    ensures { reply result image.now ≡ apart_call image.now one other }
{
    let checked = calls::check(image, 0);
    match checked {
        Err(refusal) => refused(refusal),
        Ok((c, n)) => apart::answer(image, c, n, one, other),
    }
}

// Calls of four words each (operation, CPU, time, context), one after the other, and four words of answer for each (refusal, result, interrupt, rule).
// How many were made; where the lengths do not fit, 2^64 - 1, and nothing is written.
pub fn ronthuyal_run(image: &mut [u64], calls: &[u64], answers: &mut [u64]) -> u64
    ensures { run_reply result image.new answers.new ≡ run image.old calls.now answers.old }
{
    run::run(image, calls, answers).unwrap_or(u64::MAX)
}
