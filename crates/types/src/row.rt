// Texts as three numbers of seven bytes each, by which known names are told apart: a table has such a row for each of its names.
ghost use Rattle.std.specs.Prelude.{◌≡◌, ◌+◌, ◌≤◌, ◌<◌, length, drop};
ghost use Rattle.types.specs.Row.{tagged as tagged_of, four_at, Tells, is_row, found as found_in, digit_of};

use endian::wide;

#[derive(Clone, Copy)]
pub struct Words {
    pub a: u64,
    pub b: u64,
    pub c: u64,
}

// At most three bytes as one number.
fn few(k: &[u8]) -> u64
    requires { length k.now ≤ 3 }
    ensures { (result ≡ tagged_of k.now) × (result < 33554432) }
{
    let n = k.len();
    if n == 0 {
        return 1;
    }
    let a = wide(k[0]);
    if n == 1 {
        return a + 256;
    }
    let b = wide(k[1]);
    if n == 2 {
        return a + b * 256 + 65536;
    }
    let c = wide(k[2]);
    a + b * 256 + c * 65536 + 16777216
}

// The four bytes from i on as one number, the first byte the lowest.
fn four(k: &[u8], i: usize) -> u64
    requires { i + 4 ≤ length k.now }
    ensures { (result ≡ four_at k.now i) × (result < 4294967296) }
{
    wide(k[i]) + wide(k[i + 1]) * 256 + wide(k[i + 2]) * 65536 + wide(k[i + 3]) * 16777216
}

// Of four to seven bytes those after the first four as one number, without a branch: the last four, with the digit 1 above, less those that are among the first.
fn after_four(k: &[u8]) -> u64
    requires { (4 ≤ length k.now) × (length k.now ≤ 7) }
    ensures { (result ≡ tagged_of (drop 4 k.now)) × (result < 33554432) }
{
    let n = k.len();
    let last = four(k, n - 4) + 4294967296;
    let common = 8 * (8 - n as u64);
    last >> common
}

// At most seven bytes as one number.
fn tagged(k: &[u8]) -> u64
    requires { length k.now ≤ 7 }
    ensures { result ≡ tagged_of k.now }
{
    if k.len() < 4 {
        return few(&k[0..]);
    }
    four(k, 0) + after_four(k) * 4294967296
}

// The numbers of a text's first seven bytes, of the next seven and of the rest. No name that is known is longer than 21 bytes or has a 0 there.
pub fn any_words(k: &[u8]) -> Words
    ensures { Tells result.a result.b result.c k.now }
{
    let n = k.len();
    if n <= 7 {
        return Words {
            a: tagged(&k[0..]),
            b: 1,
            c: 1,
        };
    }
    if n <= 14 {
        return Words {
            a: tagged(&k[0..7]),
            b: tagged(&k[7..]),
            c: 1,
        };
    }
    if n <= 21 {
        return Words {
            a: tagged(&k[0..7]),
            b: tagged(&k[7..14]),
            c: tagged(&k[14..]),
        };
    }
    Words { a: 0, b: 0, c: 0 }
}

// The same numbers, with short texts first: this is small enough to be inlined.
pub fn words_of(k: &[u8]) -> Words
    ensures { Tells result.a result.b result.c k.now }
{
    if k.len() <= 7 {
        return Words {
            a: tagged(&k[0..]),
            b: 1,
            c: 1,
        };
    }
    any_words(&k[0..])
}

// The row that begins at `at` is a, b, c.
fn row_is(rows: &[u64], at: usize, a: u64, b: u64, c: u64) -> bool
    requires { at + 3 ≤ length rows.now }
    ensures { result ≡ is_row rows.now at a b c }
{
    if rows[at] != a {
        return false;
    }
    if rows[at + 1] != b {
        return false;
    }
    rows[at + 2] == c
}

// The first row that is a, b, c, or the number of rows.
pub fn found(rows: &[u64], a: u64, b: u64, c: u64) -> usize
    ensures { result ≡ found_in rows.now a b c }
{
    let mut i: usize = 0;
    let mut at: usize = 0;
    while 3 <= rows.len() - at {
        if row_is(&rows[0..], at, a, b, c) {
            return i;
        }
        i += 1;
        at += 3;
    }
    i
}

// A digit of a table of hexadecimal digits, counted from the lowest.
pub fn digit(table: u64, i: u64) -> u64
    requires { i < 16 }
    ensures { result ≡ digit_of table i }
{
    (table >> (4 * i)) % 16
}
