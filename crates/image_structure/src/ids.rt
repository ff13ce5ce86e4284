// The ids of an image's contexts.
ghost use Rattle.std.specs.Prelude.{◌≡◌, Bool, true, false, ℕ, ◌+◌, ◌<◌, ◌≤◌, length};
ghost use Rattle.image_structure.specs.Structure.{id_of, is_new, ids_differ};
ghost use Rattle.context.specs.Words.{record_size};
ghost use Rattle.machine.specs.Encode.{context_place};

pub fn id_of(m: &[u64], x: usize) -> u64
    requires { (context_place x + record_size ≤ length m.now) × (x < 64) }
    ensures { result ≡ id_of m.now x }
{
    let at = machine::context_place(x) + context::places::DEBUG_ID;
    m[at]
}

// The id of context y is no id of one before it.
fn is_new(m: &[u64], y: usize) -> bool
    requires { (context_place y + record_size ≤ length m.now) × (y < 64) }
    ensures { result ≡ is_new m.now y }
{
    let id = id_of(m, y);
    for x in 0..y {
        if id_of(m, x) == id {
            return false;
        }
    }
    true
}

// Compares with the ids before it only where one of them may be the same.
fn is_new_if(m: &[u64], y: usize, compare: bool) -> bool
    requires record_size_in_bounds { (context_place y + record_size ≤ length m.now) × (y < 64) }
    requires true_value { compare ≡ false → true ≡ is_new m.now y }
    ensures { result ≡ is_new m.now y }
{
    !compare || is_new(m, y)
}

// Ids that leave different remainders differ: only equal remainders are looked at further.
pub fn ids_differ(m: &[u64], n: usize) -> bool
    requires { (context_place n ≤ length m.now) × (n ≤ 64) }
    ensures { result ≡ ids_differ m.now n }
{
    let mut seen = [false; 64];
    for y in 0..n {
        let id = id_of(m, y);
        let h = numbers::index(id % 64);
        if !is_new_if(m, y, seen[h]) {
            return false;
        }
        seen[h] = true;
    }
    true
}
