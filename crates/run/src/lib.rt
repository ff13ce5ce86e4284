// A run of calls on one image: each call is on the image that the one before it left.
#![tactic(auto)]

mod knowledge;

ghost use Rattle.std.specs.Prelude.{◌≡◌, ◌+◌, ◌*◌, ◌≤◌, length};
ghost use Rattle.run.specs.Run.{call_at, calls_of, put_answer, ran, run_calls, made_of, run_reply, run};

use answer::Answer;
use knowledge::Knowledge;
use operations::Call;

// the words of a call, and of an answer
pub const CALL_SIZE: usize = 4;

// Call i of the list.
fn call_at(calls: &[u64], i: usize) -> Call
    requires { 4 * i + 4 ≤ length calls.now }
    ensures { result ≡ call_at calls.now i }
{
    let at = CALL_SIZE * i;
    Call {
        operation: calls[at],
        cpu: calls[at + 1],
        time: calls[at + 2],
        context: calls[at + 3],
    }
}

// The answer of call i.
fn put_answer(answers: &mut [u64], i: usize, a: Answer)
    requires { 4 * i + 4 ≤ length answers.old }
    ensures { answers.new ≡ put_answer answers.old i a }
{
    let at = CALL_SIZE * i;
    answers[at] = a.refusal;
    answers[at + 1] = a.result;
    answers[at + 2] = a.interrupt;
    answers[at + 3] = a.rule;
}

// All of them, one after the other.
fn make_calls(image: &mut [u64], calls: &[u64], answers: &mut [u64], count: usize)
    requires { (4 * count ≡ length calls.now) × (length answers.old ≡ length calls.now) }
    ensures { ran image.new answers.new ≡ run_calls image.old (calls_of calls.now) }
{
    // an index into both lists: of a slice lent by `chunks_mut` a proof knows only the length afterwards (c)
    let mut s = Knowledge::Unknown { wait: 0 };
    for i in 0..count {
        let r = knowledge::make_call(image, s, call_at(calls, i));
        s = r.knowledge;
        put_answer(answers, i, r.answer);
    }
}

// The number of calls that were made, accepted or refused; none if the lengths do not fit.
pub fn run(image: &mut [u64], calls: &[u64], answers: &mut [u64]) -> Option<u64>
    ensures { run_reply (made_of result) image.new answers.new ≡ run image.old calls.now answers.old }
{
    if calls.len() % CALL_SIZE != 0 || answers.len() != calls.len() {
        return None;
    }
    let count = calls.len() / CALL_SIZE;
    make_calls(image, calls, answers, count);
    Some(numbers::word(count))
}
