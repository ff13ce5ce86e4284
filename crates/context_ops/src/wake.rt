// Waking a context: its name goes on a wake-up list.
ghost use Rattle.std.specs.Prelude.{◌≡◌, ◌+◌, ◌<◌, get_or, IfSome};
ghost use Rattle.machine.specs.Machine.{Machine, set_context};
ghost use Rattle.machine.specs.Encode.{encode, cpu_place};
ghost use Rattle.machine.specs.Shape.{ContextFits, Image, Fits, Went};
ghost use Rattle.wakeup_lists.specs.Lists.{count_place};
ghost use Rattle.context_ops.specs.Wakeup.{other_cpu, push_on, list_for, wakeup_on};
ghost use Rattle.context_ops.specs.Reply.{reply, replied};

use crate::Answer;
use context::Context;
use machine::CpuPlace;
use percpu::places;
use refusal::{Refusal, refused};
use wakeup_lists::WakeupList;

// The CPU of a record's CPU word, if it is another than k and present.
pub fn other_cpu(m: &[u64], cpu: CpuPlace, cpu_id: u64) -> Option<usize>
    requires { Image cpu.c cpu.n m.now }
    ensures { (M : Machine) → m.now ≡ encode M → Fits cpu.c cpu.n M → result ≡ other_cpu cpu.k cpu_id M }
{
    if cpu_id == 0 {
        return None;
    }
    let home = cpu_id - 1;
    if numbers::index(home) == cpu.k {
        return None;
    }
    machine::get_percpu_block(m, cpu.c, cpu.n, home)
}

// The name of context x on a list of CPU t, which has room.
fn push(m: &mut [u64], c: usize, n: usize, t: usize, list: WakeupList, x: usize)
    requires image { Image c n m.old }
    requires t_lt_c { (t < c) × (x < n) × (get_or m.old (cpu_place n t + count_place list) 0 < 64) }
    ensures { Went c n m.old m.new (push_on list t x) }
{
    let at = machine::cpu_place(n, t);
    let end = at + places::BLOCK_SIZE;
    let name = numbers::word(x);
    wakeup_lists::push(&mut m[at..end], list, name);
}

// The CPU and the list that a name goes on: the interrupt list of another CPU, or k's local one.
fn list_for(k: usize, other: Option<usize>) -> (usize, WakeupList)
    ensures { result ≡ list_for k other }
{
    match other {
        Some(t) => (t, WakeupList::Ipi),
        None => (k, WakeupList::Local),
    }
}

// The record q of context x stored, and its name on the interrupt list of another CPU, or on this CPU's local list.
pub fn wakeup_on(
    m: &mut [u64],
    cpu: CpuPlace,
    other: Option<usize>,
    x: usize,
    q: Context,
    res: u64,
) -> Answer
    requires image { Image cpu.c cpu.n m.old }
    requires bounded { x < cpu.n }
    requires other { IfSome other (λ t. t < cpu.c) }
    requires context_fits { ContextFits cpu.c q }
    ensures { (M : Machine) → m.old ≡ encode M → Fits cpu.c cpu.n M → reply result m.new ≡ replied m.old (wakeup_on cpu.k x res (set_context x q M) other) }
{
    let (t, list) = list_for(cpu.k, other);
    let at = machine::cpu_place(cpu.n, t) + list.count();
    if 64 <= m[at] {
        return refused(Refusal::NoRoom);
    }
    push(m, cpu.c, cpu.n, t, list, x);
    machine::store(m, cpu.c, cpu.n, x, q);
    Answer {
        refusal: 0,
        result: res,
        interrupt: other.is_some() as u64,
        rule: 0,
    }
}
