// Copying words.
#![tactic(auto)]

ghost use Rattle.std.specs.Prelude.{◌≡◌, ◌≤◌, length, take};

pub fn copy(from: &[u64], to: &mut [u64], len: usize)
    requires { (len ≤ length from.now) × (len ≤ length to.old) }
    ensures { take len to.new ≡ take len from.now }
{
    to[..len].copy_from_slice(&from[..len]);
}
