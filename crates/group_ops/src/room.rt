// Whether every wake-up list has room for a number of names.
ghost use Rattle.std.specs.Prelude.{◌≡◌, true, ℕ, ◌≤◌};
ghost use Rattle.machine.specs.Machine.{Machine, cpu_at};
ghost use Rattle.machine.specs.Encode.{encode};
ghost use Rattle.machine.specs.Shape.{Image, Fits};
ghost use Rattle.group_ops.specs.Room.{HasRoom};

use percpu::places;

pub fn has_room(m: &[u64], c: usize, n: usize, count: u64) -> bool
    requires image { Image c n m.now }
    requires count_bound { count ≤ 64 }
    ensures { (M : Machine) → m.now ≡ encode M → Fits c n M → result ≡ true → (t : ℕ) → HasRoom count (cpu_at M t) }
{
    for t in 0..c {
        let at = machine::cpu_place(n, t);
        let most = m[at + places::LOCAL_COUNT].max(m[at + places::IPI_COUNT]);
        if 64 < most + count {
            return false;
        }
    }
    true
}
