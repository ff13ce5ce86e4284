// Numbers of 8 bytes, lowest first: Rust's `u64::from_le_bytes` and `u64::to_le_bytes` on a lent slice.
#![tactic(auto)]

ghost use Rattle.std.specs.Prelude.{◌≡◌, ◌<◌, ◌%◌, length};
ghost use Rattle.le_bytes.specs.LeBytes.{from_le_bytes, to_le_bytes};

pub fn from_le_bytes(b: &[u8]) -> u64
    requires { length b.now ≡ 8 }
    ensures { result ≡ from_le_bytes b.now }
{
    u64::from_le_bytes(*b.first_chunk().unwrap())
}

pub fn to_le_bytes(b: &mut [u8], x: u64)
    requires { length b.old ≡ 8 }
    ensures { b.new ≡ to_le_bytes 8 x }
{
    b.copy_from_slice(&x.to_le_bytes());
}
