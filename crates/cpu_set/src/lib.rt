// A set of CPUs in one word: bit k is CPU k (cpu_set.rs).
#![tactic(auto)]

ghost use Rattle.std.specs.Prelude.{◌≡◌, ℕ, ◌<◌, ◌≤◌, length};
ghost use Rattle.std.specs.Iterator.{YieldsFirst, item_count};
ghost use Rattle.cpu_set.specs.Set.{contains};
ghost use Rattle.cpu_set.specs.Members.{members, next_cpu, rest_cpus, with_cpu, without_cpu};

pub fn contains(mask: u64, cpu: u64) -> bool
    requires { cpu < 64 }
    ensures { result ≡ contains mask cpu }
{
    (mask >> cpu) % 2 == 1
}

pub fn set(mask: u64, cpu: u64) -> u64
    requires { cpu < 64 }
    ensures { result ≡ with_cpu mask cpu }
{
    mask | (1 << cpu)
}

pub fn clear(mask: u64, cpu: u64) -> u64
    requires { cpu < 64 }
    ensures { result ≡ without_cpu mask cpu }
{
    mask & !(1 << cpu)
}

// The lowest CPU of a set that is not empty.
pub fn next(mask: u64) -> u64
    requires { 0 < mask }
    ensures { (result ≡ next_cpu mask) × (result < 64) }
{
    u64::from(mask.trailing_zeros())
}

// The set without its lowest CPU.
pub fn rest(mask: u64) -> u64
    requires { 0 < mask }
    ensures { (result ≡ rest_cpus mask) × (result < mask) }
{
    mask - (1 << next(mask))
}

// The number of CPUs.
pub fn count(mask: u64) -> u64
    ensures { result ≡ length (members mask) }
{
    u64::from(mask.count_ones())
}

// The CPUs of a set by rising number, from the lowest on.
#[derive(Clone, Copy, Drop)]
pub struct Cpus {
    pub rest: u64,
}

impl Iterator for Cpus {
    type Item = u64;

    ghost next_gives = { YieldsFirst (λ s. members s.rest) };

    ghost remaining = { item_count (λ s. members s.rest) };

    fn next(&mut self) -> Option<u64> {
        if self.rest == 0 {
            return None;
        }
        let cpu = next(self.rest);
        self.rest = rest(self.rest);
        Some(cpu)
    }
}

pub fn iter(mask: u64) -> Cpus
    ensures { result.rest ≡ mask }
{
    Cpus { rest: mask }
}
