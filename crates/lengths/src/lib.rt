// Exact products and sums of 64-bit numbers: what a component's length has to be, and where it may lie. Nothing wraps.
#![tactic(auto)]

ghost use Rattle.std.specs.Prelude.{◌≡◌, ◌+◌, ◌*◌, ◌/◌, ◌%◌, ltb, eqb};
ghost use Rattle.meaning.specs.Types.{product};
ghost use Rattle.numbers.specs.Answered.{answered};
ghost use Rattle.lengths.specs.Place.{place_rule};

use numbers::Refusal;

const MOST: u64 = 0xffff_ffff_ffff_ffff;

// a × b is over 2^64 − 1.
fn too_big(a: u64, b: u64) -> bool
    ensures { result ≡ ltb 18446744073709551615 (a * b) }
{
    if a <= 0xffff_ffff {
        if b <= 0xffff_ffff {
            return false;
        }
    }
    if a == 0 {
        return false;
    }
    MOST / a < b
}

// n is a × b.
pub fn is_product(n: u64, a: u64, b: u64) -> bool
    ensures { result ≡ eqb n (a * b) }
{
    if too_big(a, b) {
        return false;
    }
    n == a * b
}

// A dense component of this shape, with `unit` bytes to an element, is n bytes long.
pub fn dense_length(n: u64, shape: &[u64], unit: u64) -> bool
    ensures { result ≡ eqb n (product shape.now * unit) }
{
    let mut p = unit;
    for (i, x) in shape.iter().enumerate() {
        if too_big(p, *x) {
            if shape[i..].contains(&0) {
                return n == 0;
            }
            return false;
        }
        p *= *x;
    }
    n == p
}

// n bytes are whole elements of `unit` bytes; as in the definition, n % 0 is n.
pub fn is_whole(n: u64, unit: u64) -> bool
    ensures { result ≡ eqb (n % unit) 0 }
{
    if unit == 0 {
        return n == 0;
    }
    n % unit == 0
}

// How many elements of `unit` bytes n bytes are; as in the definition, n / 0 is 0.
pub fn count_of(n: u64, unit: u64) -> u64
    ensures { result ≡ n / unit }
{
    if unit == 0 {
        return 0;
    }
    n / unit
}

// n bytes are the row pointers of so many rows.
pub fn pointer_length(n: u64, rows: u64) -> bool
    ensures { result ≡ eqb n (8 * (rows + 1)) }
{
    if rows == MOST {
        return false;
    }
    is_product(n, 8, rows + 1)
}

// n bytes are the coordinates of `count` elements.
pub fn coordinate_length(n: u64, rank: u64, count: u64) -> bool
    ensures { result ≡ eqb n (8 * rank * count) }
{
    if n % 8 != 0 {
        return false;
    }
    is_product(n / 8, rank, count)
}

// A component's place: ALIGN, then BOUNDS.
pub fn place(start: u64, offset: u64, length: u64) -> Result<(), Refusal>
    ensures { place_rule start offset length ≡ answered result }
{
    if offset % 64 != 0 {
        return Err(Refusal::Align);
    }
    if offset < 64 {
        return Err(Refusal::Bounds);
    }
    if MOST - offset < length {
        return Err(Refusal::Bounds);
    }
    if start < offset + length {
        return Err(Refusal::Bounds);
    }
    Ok(())
}
