// Another CPU judged: whether it has enough, and how many of its entries are wanted.
ghost use Rattle.std.specs.Prelude.{◌≡◌, ◌-◌, ◌/◌, ◌≤◌, min, max};
ghost use Rattle.model.specs.Steal.{max_steal, my_load, can_steal_from, want};
ghost use Rattle.steal_judge.specs.Judged.{has_enough};
ghost use Rattle.plain_lists.specs.Lists.{Sized};
ghost use Rattle.plain_state.specs.States.{cpu_in, state_in, Sound};

use plain_state::{Cpu, State};

const STEAL_THRESHOLD: usize = 2;

const MAX_STEAL: usize = 2;

// The entries of this CPU, and its holder if that is not idle.
fn my_load(s: State, n: usize) -> usize
    requires { Sound n s }
    ensures { (result ≡ my_load (state_in n s)) × (result ≤ 65) }
{
    let b = s.cpu.block;
    if b.sched_ctxt == b.idle_ctxt {
        s.cpu.queue.len
    } else {
        s.cpu.queue.len + 1
    }
}

// The length is tested as published, without a sum that may wrap, then as it is.
#[tactic(auto, unfolding(steal_judge::specs::Judged::has_enough))]
fn has_enough(stealable: bool, published: usize, locked: bool, len: usize, load: usize) -> bool
    requires { (len ≤ 64) × (load ≤ 65) }
    ensures { result ≡ has_enough stealable published locked len load }
{
    stealable && load < published && !locked && load + STEAL_THRESHOLD <= len + 1
}

#[tactic(auto, unfolding(model::specs::Steal::can_steal_from))]
pub fn can_steal_from(s: State, n: usize, v: Cpu) -> bool
    requires { (Sound n s) × (Sized v.queue) }
    ensures { result ≡ can_steal_from (state_in n s) (cpu_in v) }
{
    let b = v.block;
    let load = my_load(s, n);
    let published = numbers::index(b.queue_len);
    b.present && has_enough(b.stealable, published, b.queue_locked, v.queue.len, load)
}

fn half_of(there: usize, here: usize) -> usize
    ensures { (result ≡ max 1 (min max_steal ((there - here) / 2))) × (result ≤ 2) }
{
    (there.saturating_sub(here) / 2).min(MAX_STEAL).max(1)
}

// Half of what it has more, at least one and at most MAX_STEAL.
pub fn want(s: State, n: usize, v: Cpu) -> usize
    requires { (Sound n s) × (Sized v.queue) }
    ensures { (result ≡ want (state_in n s) (cpu_in v)) × (result ≤ 2) }
{
    half_of(v.queue.len, s.cpu.queue.len)
}
