// A call beside which a window is lent: an accepted decision adds its record to it.
#![tactic(auto)]

ghost use Rattle.std.specs.Prelude.{◌≡◌, ◌≤◌};
ghost use Rattle.machine.specs.Encode.{max_image_size};
ghost use Rattle.context_ops.specs.Reply.{reply};
ghost use Rattle.asked.specs.OfReply.{BlockInside};
ghost use Rattle.calls.specs.Call.{call};
ghost use Rattle.call_in_window.specs.CallInWindow.{turn_at, window_reply, own_first, call_in_window};
ghost use Rattle.refusal.specs.Number.{refusal_number};

use answer::Answer;
use operations::Call;
use percpu::places;
use refusal::{Refusal, refused};
use window::Record;

fn none() -> Record {
    Record {
        context: 0,
        time: 0,
    }
}

// What a decision at that time adds: the context in charge, and the time since the CPU's schedule time. Any of an image that has no such block.
fn turn(image: &[u64], n: usize, cpu: u64, time: u64) -> Record
    ensures { BlockInside n cpu image.now → result ≡ turn_at n cpu time image.now }
{
    if 64 < n || 3 < cpu {
        return none();
    }
    let at = machine::cpu_place(n, numbers::index(cpu));
    if image.len() < at + places::BLOCK_SIZE {
        return none();
    }
    Record {
        context: image[at + places::SCHED_CTXT],
        time: time.saturating_sub(image[at + places::SCHEDULE_TIME]),
    }
}

// As many words as a scratch has room for: all, where a call is accepted.
fn shorter(len: usize) -> usize
    ensures { (result ≤ len) × (result ≤ max_image_size) × (len ≤ max_image_size → result ≡ len) }
{
    len.min(machine::MAX_IMAGE_SIZE)
}

// The window is refused. What the call itself is refused for comes first; accepted, its words are put back.
fn refuse(image: &mut [u64], q: Call, refusal: Refusal) -> Answer
    ensures { reply result image.new ≡ own_first image.old (refusal_number refusal) (call image.old q.operation q.cpu q.time q.context) }
{
    let mut kept = [0u64; machine::MAX_IMAGE_SIZE];
    let len = shorter(image.len());
    words::copy(image, &mut kept, len);
    let a = operations::call(image, q);
    if a.refusal != 0 {
        return a;
    }
    words::copy(&kept, image, len);
    refused(refusal)
}

// The window is that of the call's CPU, which nothing in it says.
pub fn call(image: &mut [u64], window: &mut [u64], q: Call) -> Answer
    ensures { window_reply result image.new window.new ≡ call_in_window image.old window.old q.operation q.cpu q.time q.context }
{
    let n = asked::contexts(image);
    if let Err(refusal) = window::check(window, numbers::word(n)) {
        return refuse(image, q, refusal);
    }
    let holder = turn(image, n, q.cpu, q.time);
    let a = operations::call(image, q);
    if a.rule != 0 {
        window::add(window, holder);
    }
    a
}
