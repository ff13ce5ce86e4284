// Operations 1 to 7, each by a call of its own, as a C library exports them.
ghost use Rattle.std.specs.Prelude.{◌≡◌};
ghost use Rattle.context_ops.specs.Reply.{reply};
ghost use Rattle.calls.specs.Call.{
  tick_call,
  switch_call,
  direct_switch_to_call,
  unblock_context_call,
  drain_ipi_context_wakeups_call,
  block_call,
  hard_block_call,
};
ghost use Rattle.ronthuyal.specs.Demand.{DemandMet};
ghost use Rattle.ronthuyal.specs.Leaves.{Leaves};
ghost use Rattle.numbers.specs.Limits.{max_number, max_word};

use answer::Answer;

// Operation 1. The result is 0 if no switch is due, else as in operation 2.
#[unsafe(no_mangle)]
pub extern "C" fn ronthuyal_tick(image: &mut [u64], cpu: u64, time: u64) -> Answer
    ensures image_after { reply result image.new ≡ tick_call image.old cpu time }
    ensures demand_met { DemandMet image.old image.new 1 cpu time 0 result.refusal }
    ensures leaves { Leaves max_word image.old image.new result.refusal }
{
    ronthuyal::ronthuyal_tick(image, cpu, time)
}

// Operation 2. The result is 1 for Switched, 2 for AllContextsIdle.
#[unsafe(no_mangle)]
pub extern "C" fn ronthuyal_switch(image: &mut [u64], cpu: u64, time: u64) -> Answer
    ensures image_after { reply result image.new ≡ switch_call image.old cpu time }
    ensures demand_met { DemandMet image.old image.new 2 cpu time 0 result.refusal }
    ensures leaves { Leaves max_word image.old image.new result.refusal }
{
    ronthuyal::ronthuyal_switch(image, cpu, time)
}

// Operation 3. The result is as in operation 2.
#[unsafe(no_mangle)]
pub extern "C" fn ronthuyal_direct_switch_to(
    image: &mut [u64],
    cpu: u64,
    time: u64,
    context: u64,
) -> Answer
    ensures image_after { reply result image.new ≡ direct_switch_to_call image.old cpu time context }
    ensures demand_met { DemandMet image.old image.new 3 cpu time context result.refusal }
    ensures leaves { Leaves max_word image.old image.new result.refusal }
{
    ronthuyal::ronthuyal_direct_switch_to(image, cpu, time, context)
}

// Operation 4. The result is 1 if the context was soft-blocked.
#[unsafe(no_mangle)]
pub extern "C" fn ronthuyal_unblock_context(
    image: &mut [u64],
    cpu: u64,
    time: u64,
    context: u64,
) -> Answer
    ensures image_after { reply result image.new ≡ unblock_context_call image.old cpu time context }
    ensures leaves { Leaves max_number image.old image.new result.refusal }
{
    ronthuyal::ronthuyal_unblock_context(image, cpu, time, context)
}

// Operation 5. The result is 0.
#[unsafe(no_mangle)]
pub extern "C" fn ronthuyal_drain_ipi_context_wakeups(
    image: &mut [u64],
    cpu: u64,
    time: u64,
) -> Answer
    ensures image_after { reply result image.new ≡ drain_ipi_context_wakeups_call image.old cpu time }
    ensures leaves { Leaves max_number image.old image.new result.refusal }
{
    ronthuyal::ronthuyal_drain_ipi_context_wakeups(image, cpu, time)
}

// Operation 6. The result is 1 if the context was runnable.
#[unsafe(no_mangle)]
pub extern "C" fn ronthuyal_block(image: &mut [u64], cpu: u64, time: u64, context: u64) -> Answer
    ensures image_after { reply result image.new ≡ block_call image.old cpu time context }
    ensures leaves { Leaves max_number image.old image.new result.refusal }
{
    ronthuyal::ronthuyal_block(image, cpu, time, context)
}

// Operation 7, as Stopped. The result is 1 if the context was runnable.
#[unsafe(no_mangle)]
pub extern "C" fn ronthuyal_hard_block(
    image: &mut [u64],
    cpu: u64,
    time: u64,
    context: u64,
) -> Answer
    ensures image_after { reply result image.new ≡ hard_block_call image.old cpu time context }
    ensures leaves { Leaves max_number image.old image.new result.refusal }
{
    ronthuyal::ronthuyal_hard_block(image, cpu, time, context)
}
