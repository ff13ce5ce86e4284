// `unblock_group` on an image that was checked: `unblock_context` for every context of a set, by rising number, or for none.
// In every function m is the image of a machine of c CPUs and n contexts (crate machine says why the three stay apart).
#![tactic(auto)]

mod room;

ghost use Rattle.std.specs.Prelude.{◌≡◌, ℕ, ◌<◌};
ghost use Rattle.columns.specs.Common.{All};
ghost use Rattle.cpu_set.specs.Members.{members};
ghost use Rattle.machine.specs.Machine.{Machine};
ghost use Rattle.machine.specs.Encode.{encode};
ghost use Rattle.machine.specs.Shape.{Image, Fits};
ghost use Rattle.context_ops.specs.Reply.{reply, replied};
ghost use Rattle.group_ops.specs.Group.{first_check, name_refusal, names_refusal, unblock_each, unblock_group, Unblocked};
ghost use Rattle.refusal.specs.Number.{refusal_of, numbered};

use answer::Answer;
use machine::CpuPlace;
use refusal::{Refusal, refused};

// Of two refusals the one that is checked first.
fn first_check(
    first: Result<(), Refusal>,
    who: Result<(usize, usize), Refusal>,
) -> Result<(), Refusal>
    ensures { refusal_of result ≡ first_check (refusal_of first) (name_refusal (numbered who)) }
{
    let Err(b) = who else {
        return first;
    };
    if let Err(a) = first {
        if u64::from(a) < u64::from(b) {
            return first;
        }
    }
    Err(b)
}

// Refusals 5 and 6 of the whole set.
fn check_names(m: &[u64], c: usize, n: usize, cpu: u64, mask: u64) -> Result<(), Refusal>
    requires { Image c n m.now }
    ensures { (M : Machine) → m.now ≡ encode M → Fits c n M → refusal_of result ≡ names_refusal M cpu (members mask) }
{
    let mut first = Ok(());
    for x in cpu_set::iter(mask) {
        first = first_check(first, context_ops::resolve(m, c, n, cpu, x));
    }
    first
}

// On one CPU. Where a list has no room the image is left half-way.
fn unblock_each(m: &mut [u64], cpu: CpuPlace, mask: u64) -> Answer
    requires image { Image cpu.c cpu.n m.old }
    requires all { All (λ (x : ℕ). x < cpu.n) (members mask) }
    ensures { (M : Machine) → m.old ≡ encode M → Fits cpu.c cpu.n M → Unblocked m.new result (unblock_each cpu.k (members mask) M) }
{
    let mut count = 0;
    let mut interrupt = 0u64;
    for x in cpu_set::iter(mask) {
        let a = context_ops::unblock(m, cpu, numbers::index(x));
        if a.refusal != 0 {
            return a;
        }
        count += a.result;
        interrupt = interrupt.max(a.interrupt);
    }
    Answer {
        refusal: 0,
        result: count,
        interrupt,
        rule: 0,
    }
}

// The words are kept until it is known that there was room, and put back if not.
fn with_copy(m: &mut [u64], cpu: CpuPlace, mask: u64) -> Answer
    requires image { Image cpu.c cpu.n m.old }
    requires all { All (λ (x : ℕ). x < cpu.n) (members mask) }
    ensures { (M : Machine) → m.old ≡ encode M → Fits cpu.c cpu.n M → reply result m.new ≡ replied m.old (unblock_each cpu.k (members mask) M) }
{
    let mut saved = [0u64; machine::MAX_IMAGE_SIZE];
    let len = m.len();
    words::copy(m, &mut saved, len);
    let a = unblock_each(m, cpu, mask);
    if a.refusal != 0 {
        words::copy(&saved, m, len);
        return refused(Refusal::NoRoom);
    }
    a
}

pub fn unblock_group(m: &mut [u64], c: usize, n: usize, cpu: u64, mask: u64) -> Answer
    requires { Image c n m.old }
    ensures { (M : Machine) → m.old ≡ encode M → Fits c n M → reply result m.new ≡ unblock_group m.old M cpu mask }
{
    let Some(k) = machine::get_percpu_block(m, c, n, cpu) else {
        return refused(Refusal::Name);
    };
    if let Err(refusal) = check_names(m, c, n, cpu, mask) {
        return refused(refusal);
    }
    if room::has_room(m, c, n, cpu_set::count(mask)) {
        return unblock_each(m, CpuPlace { c, n, k }, mask);
    }
    with_copy(m, CpuPlace { c, n, k }, mask)
}
