// Bytes over the front of a lent part; each answers how many.
ghost use Rattle.std.specs.Prelude.{◌<◌, ◌≤◌, ◌^◌, length, replicate};
ghost use Rattle.meaning.specs.Encoding as encoding;
ghost use Rattle.meaning.specs.WrittenFile.{little_bytes};
ghost use Rattle.emit.specs.Laid.{Laid};

// w bytes of n, the most significant first.
pub fn big(out: &mut [u8], w: usize, n: u64) -> usize
    requires { (w ≤ 8) × (n < 256 ^ w) × (w ≤ length out.old) }
    ensures { Laid (encoding.big w n) 0 out.old out.new result }
{
    for i in 0..w {
        let s = 8 * (w - 1 - i);
        out[i] = ((n >> s) % 256) as u8;
    }
    w
}

// The 8 bytes of n, the least significant first.
pub fn little(out: &mut [u8], n: u64) -> usize
    requires { 8 ≤ length out.old }
    ensures { Laid (little_bytes 8 n) 0 out.old out.new result }
{
    for i in 0..8 {
        out[i] = ((n >> (8 * i)) % 256) as u8;
    }
    8
}

pub fn zeros(out: &mut [u8], n: usize) -> usize
    requires { n ≤ length out.old }
    ensures { Laid (replicate n 0) 0 out.old out.new result }
{
    out[..n].fill(0);
    n
}

// A plain loop, which the compiler makes move many bytes at once: copy_from_slice calls the C library's memmove, which a library for boxes then needs from outside, and for the few bytes of a
// key the call costs more.
pub fn copy(out: &mut [u8], s: &[u8]) -> usize
    requires { length s.now ≤ length out.old }
    ensures { Laid s.now 0 out.old out.new result }
{
    for i in 0..s.len() {
        out[i] = s[i];
    }
    s.len()
}
