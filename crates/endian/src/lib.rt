// Numbers that stand in several bytes, the most significant first; or, of four, the least.
#![tactic(auto)]

ghost use Rattle.std.specs.Prelude.{◌≡◌, ◌+◌, ◌*◌, ◌<◌, ◌≤◌, length, take, drop};
ghost use Rattle.endian.specs.Word.{word, little_four};

// A byte as a number.
pub fn wide(x: u8) -> u64
    ensures { (result ≡ x) × (result < 256) }
{
    u64::from(x)
}

// The N bytes from i on.
fn part<const N: usize>(s: &[u8], i: usize) -> [u8; N]
    requires { i + N ≤ length s.now }
    ensures { result ≡ take N (drop i s.now) }
{
    *s[i..i + N].as_array().unwrap()
}

// The number of the two bytes from i on.
pub fn be2(s: &[u8], i: usize) -> u64
    requires { i + 2 ≤ length s.now }
    ensures { (result ≡ word 2 s.now i 0) × (result < 65536) }
{
    u64::from(u16::from_be_bytes(part(s, i)))
}

// The number of the four bytes from i on.
pub fn be4(s: &[u8], i: usize) -> u64
    requires { i + 4 ≤ length s.now }
    ensures { (result ≡ word 4 s.now i 0) × (result < 4294967296) }
{
    u64::from(u32::from_be_bytes(part(s, i)))
}

// The number of the eight bytes from i on.
pub fn be8(s: &[u8], i: usize) -> u64
    requires { i + 8 ≤ length s.now }
    ensures { result ≡ word 8 s.now i 0 }
{
    u64::from_be_bytes(part(s, i))
}

// The number of the four bytes from i on, the first byte the lowest.
pub fn le4(s: &[u8], i: usize) -> u32
    requires { i + 4 ≤ length s.now }
    ensures { result ≡ little_four s.now i }
{
    u32::from_le_bytes(part(s, i))
}
