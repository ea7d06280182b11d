// The finding of a component of f32 numbers: its smallest and largest, and how many NaNs it holds.
// A number is four bytes, the least significant first; bytes left over at the end count for nothing.
#![tactic(auto)]

pub mod table;

ghost use Rattle.std.specs.Prelude.{◌≡◌, ◌+◌, ◌*◌, ◌<◌, ◌≤◌, not, T, length};
ghost use Rattle.std.specs.Float.{binary32};
ghost use Rattle.std.specs.Float.Ieee.{of_bits, to_bits, nan_bits, is_nan};
ghost use Rattle.finding.specs.Finding as is;

#[derive(Clone, Copy)]
pub enum Finding {
    Empty,
    OnlyNaN(u64),
    Span(f32, f32, u64),
}

// The pattern of four bytes.
fn pattern(four: &[u8]) -> u32
    requires { length four.now ≡ 4 }
    ensures { (result ≡ is.pattern_at four.now 0) × (result < 4294967296) }
{
    u32::from_le_bytes([four[0], four[1], four[2], four[3]])
}

// Is this the pattern of a NaN?
fn nan(n: u32) -> bool
    ensures { result ≡ nan_bits binary32 n }
{
    n % 2147483648 > 2139095040
}

// The lesser of two, the kept one unless the other is below it. Not `f32::min`, which doesn't say which of two zeros it answers: the first met is kept.
fn lesser(kept: f32, x: f32) -> f32
    ensures { result ≡ is.lesser kept x }
{
    if x < kept { x } else { kept }
}

fn greater(kept: f32, x: f32) -> f32
    ensures { result ≡ is.greater kept x }
{
    if kept < x { x } else { kept }
}

// Neither below the smallest nor above the largest so far. Most numbers are: told by branches, they wait for none before them.
fn within(smallest: f32, largest: f32, x: f32) -> bool
    ensures { result ≡ is.within smallest largest x }
{
    !(x < smallest) && !(largest < x)
}

pub fn find(s: &[u8]) -> Finding
    ensures { result ≡ is.finding s.now }
{
    if s.len() < 4 {
        return Finding::Empty;
    }
    let mut smallest = f32::from_bits(0x7f80_0000);
    let mut largest = f32::from_bits(0xff80_0000);
    let mut nans = 0u64;
    let mut some = false;
    for four in s.chunks_exact(4) {
        let n = pattern(four);
        if nan(n) {
            nans += 1;
            continue;
        }
        let x = f32::from_bits(n);
        some = true;
        if within(smallest, largest, x) {
            continue;
        }
        smallest = lesser(smallest, x);
        largest = greater(largest, x);
    }
    if some {
        return Finding::Span(smallest, largest, nans);
    }
    Finding::OnlyNaN(nans)
}

// A finding in numbers: 1 empty, 2 only NaNs, 3 numbers; the patterns of the smallest and the largest; the count of NaNs.
#[derive(Clone, Copy)]
pub struct Shown {
    pub finding: u64,
    pub smallest: u64,
    pub largest: u64,
    pub nans: u64,
}

fn bits(x: f32) -> u64
    requires { T (not (is_nan x)) }
    ensures { result ≡ to_bits binary32 x }
{
    u64::from(x.to_bits())
}

pub fn in_numbers(f: Finding) -> Shown
    requires { is.Sound f }
    ensures { result ≡ is.shown f }
{
    match f {
        Finding::Empty => Shown {
            finding: 1,
            smallest: 0,
            largest: 0,
            nans: 0,
        },
        Finding::OnlyNaN(n) => Shown {
            finding: 2,
            smallest: 0,
            largest: 0,
            nans: n,
        },
        Finding::Span(a, b, n) => Shown {
            finding: 3,
            smallest: bits(a),
            largest: bits(b),
            nans: n,
        },
    }
}

pub fn finding_of(s: &[u8]) -> Shown
    ensures { result ≡ is.shown (is.finding s.now) }
{
    in_numbers(find(s))
}
