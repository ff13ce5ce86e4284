// Refusals 1 to 4 of document 01: the sizes, the length, every word's range, and the structure.
#![tactic(auto)]

ghost use Rattle.std.specs.Prelude.{◌≡◌, Bool, true, false, ℕ, ◌+◌, ◌*◌, ◌<◌, ◌≤◌, length, get_or};
ghost use Rattle.image.specs.Refusal.{in_bounds, ranges, sized_refusal, image_refusal};
ghost use Rattle.machine.specs.Encode.{cpu_place};
ghost use Rattle.refusal.specs.Number.{refusal_of};

use refusal::Refusal;

#[tactic(auto, unfolding(crate::specs::Refusal::in_bounds))]
fn in_bounds(size: u64, greatest: u64) -> bool
    ensures { result ≡ in_bounds size greatest }
{
    0 < size && size <= greatest
}

// The ranges of an image that has the length its sizes give.
#[tactic(auto, unfolding(crate::specs::Refusal::ranges, crate::specs::Refusal::ranges_to))]
fn in_ranges(m: &[u64], time: u64) -> bool
    requires m_len { length m.now ≡ cpu_place (get_or m.now 1 0) (get_or m.now 0 0) }
    requires m_bound { (get_or m.now 0 0 ≤ 4) × (1 ≤ get_or m.now 1 0) × (get_or m.now 1 0 ≤ 64) }
    ensures { result ≡ ranges time m.now }
{
    let c = numbers::index(m[0]);
    let n = numbers::index(m[1]);
    time <= numbers::MAX_NUMBER
        && image_ranges::contexts_in_range(m, m[0], n)
        && image_ranges::blocks_in_range(m, c, n)
}

// Refusals 2 to 4, of an image whose sizes are in their bounds.
fn check_sized(m: &[u64], time: u64) -> Result<(), Refusal>
    requires { (2 ≤ length m.now) × (get_or m.now 0 0 ≤ 4) × (1 ≤ get_or m.now 1 0) × (get_or m.now 1 0 ≤ 64) }
    ensures { refusal_of result ≡ sized_refusal time m.now }
{
    let c = numbers::index(m[0]);
    let n = numbers::index(m[1]);
    if m.len() != machine::cpu_place(n, c) {
        return Err(Refusal::Length);
    }
    if !in_ranges(m, time) {
        return Err(Refusal::Range);
    }
    if !image_structure::structure(m, c, n) {
        return Err(Refusal::Structure);
    }
    Ok(())
}

// An image and a call's time.
#[tactic(auto, unfolding(crate::specs::Refusal::image_refusal))]
pub fn check(m: &[u64], time: u64) -> Result<(), Refusal>
    ensures { refusal_of result ≡ image_refusal time m.now }
{
    if m.len() < 2 || !in_bounds(m[0], 4) || !in_bounds(m[1], 64) {
        return Err(Refusal::Size);
    }
    check_sized(m, time)
}
