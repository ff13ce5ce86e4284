// One priority tried: stored, with its context put last on the CPU's local list, and a switch made of it on a copy.
// In every function m is the image of a machine of c CPUs and n contexts (crate machine says why the three stay apart).
#![tactic(auto)]

ghost use Rattle.std.specs.Prelude.{◌≡◌, true, ◌+◌, ◌<◌, ◌≤◌, length};
ghost use Rattle.machine.specs.Machine.{Machine};
ghost use Rattle.machine.specs.Encode.{encode, cpu_place};
ghost use Rattle.machine.specs.Shape.{Image, Fits};
ghost use Rattle.context_ops.specs.Reply.{reply};
ghost use Rattle.priority_trial.specs.Works.{tried_machine, has_room, in_charge_after, works};
ghost use Rattle.priority_trial.specs.Ready.{Ready};

use answer::Answer;
use machine::CpuPlace;
use percpu::places;

// Whether there was room for the name; without it nothing is changed.
fn put(m: &mut [u64], cpu: CpuPlace, x: usize, priority: u64) -> bool
    requires image { Image cpu.c cpu.n m.old }
    requires bounded { (x < cpu.n) × (priority < 40) }
    ensures { (M : Machine) → m.old ≡ encode M → Fits cpu.c cpu.n M → (result ≡ has_room M cpu.k) × (result ≡ true → m.new ≡ encode (tried_machine cpu.k x priority M)) }
{
    let mut q = machine::load(m, cpu.c, cpu.n, x);
    q.prio = priority;
    let a = context_ops::wakeup_on(m, cpu, None, x, q, 0);
    a.refusal == 0
}

// Of a switch that answered a and left the image m.
fn in_charge_after(m: &[u64], n: usize, k: usize, x: usize, a: Answer) -> bool
    requires { (n ≤ 64) × (k < 4) × (cpu_place n (k + 1) ≤ length m.now) }
    ensures { result ≡ in_charge_after n k x (reply a m.now) }
{
    let at = machine::cpu_place(n, k) + places::SCHED_CTXT;
    a.refusal == 0 && m[at] == numbers::word(x)
}

// The copy is made anew for each trial: a switch may have left it anyhow.
pub fn works(
    image: &[u64],
    copy: &mut [u64],
    cpu: CpuPlace,
    time: u64,
    x: usize,
    priority: u64,
) -> bool
    requires ready { Ready image.now cpu.c cpu.n cpu.k time x }
    requires copy_len { (length copy.old ≡ length image.now) × (priority < 40) }
    ensures { result ≡ works image.now cpu.k time x priority }
{
    let len = image.len();
    words::copy(image, copy, len);
    if !put(copy, cpu, x, priority) {
        return false;
    }
    let a = trial::switch(copy, cpu.c, cpu.n, numbers::word(cpu.k), time);
    in_charge_after(copy, cpu.n, cpu.k, x, a)
}
