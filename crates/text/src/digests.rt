// A number of a text, for a table that tells most texts apart without a comparison.
ghost use Rattle.std.specs.Prelude.{◌≡◌, ◌<◌, ◌≤◌, length};
ghost use Rattle.text.specs.Digest as digests;

use endian::be8;

// The digest h with the word w mixed in.
fn mix(h: u64, w: u64) -> u64
    ensures { result ≡ digests.mixed h w }
{
    let x = h ^ w;
    x % 4294967296 * 2654435761 + x / 4294967296
}

// Eight bytes or more, by words: in turn into two numbers, since a processor mixes these side by side, and then the last two words, which overlap those before.
fn mix_words(t: &[u8]) -> u64
    requires { 8 ≤ length t.now }
    ensures { result ≡ digests.of_words t.now }
{
    let n = t.len();
    let last = n - 8;
    let mut g = n as u64;
    let mut h = n as u64;
    for k in 0..n / 16 {
        g = mix(g, be8(t, 16 * k));
        h = mix(h, be8(t, 16 * k + 8));
    }
    g = mix(g, be8(t, last.saturating_sub(8)));
    mix(mix(g, be8(t, last)), h)
}

// Byte by byte.
fn mix_bytes(t: &[u8]) -> u64
    ensures { result ≡ digests.of_bytes t.now }
{
    let mut h = t.len() as u64;
    for b in t {
        h = mix(h, u64::from(*b));
    }
    h
}

// A number from 1 to 4294967295 that the text alone decides.
pub fn digest(t: &[u8]) -> u64
    ensures { (result ≡ digests.digest t.now) × (0 < result) × (result < 4294967296) }
{
    if t.len() < 8 {
        return mix_bytes(t) % 4294967295 + 1;
    }
    mix_words(t) % 4294967295 + 1
}
