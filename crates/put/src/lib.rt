// Pieces of a line: each writes its bytes into `out` from `at` on, as far as they fit, and answers the place past them.
#![tactic(auto)]

ghost use Rattle.std.specs.Prelude.{◌≡◌, [], ◌∷◌, ◌&&◌, not, ◌<◌, ◌+◌, eqb};
ghost use Rattle.meaning.specs.Text.{within};
ghost use Rattle.meaning.specs.Types.{storage_of};
ghost use Rattle.meaning.specs.Listing as is;
ghost use Rattle.put.specs.Wrote.{Wrote, capped};

// No text is as long as this, and no place is above it.
const MOST: usize = 0x8000_0000_0000_0000;

pub fn capped_place(at: usize) -> usize
    ensures { result ≡ capped at }
{
    at.min(MOST)
}

pub fn byte(out: &mut [u8], at: usize, b: u8) -> usize
    ensures { Wrote (b ∷ []) at out.old out.new result }
{
    if at < out.len() {
        out[at] = b;
        return at + 1;
    }
    capped_place(at.saturating_add(1))
}

pub fn word(out: &mut [u8], at: usize, w: &[u8]) -> usize
    ensures { Wrote w.now at out.old out.new result }
{
    let mut past = at;
    for b in w {
        past = byte(out, past, *b);
    }
    capped_place(past)
}

const DIGITS: [u8; 16] = *b"0123456789abcdef";

fn hex(n: u8) -> u8
    requires { n < 16 }
    ensures { result ≡ is.hex n }
{
    DIGITS[n as usize]
}

// Is this byte printed as itself?
fn plain(b: u8) -> bool
    ensures { result ≡ within 33 126 b && not (eqb b 92) }
{
    b.is_ascii_graphic() && b != 92
}

fn shown(out: &mut [u8], at: usize, b: u8) -> usize
    ensures { Wrote (is.shown b) at out.old out.new result }
{
    if plain(b) {
        return byte(out, at, b);
    }
    let first = byte(out, at, 92);
    let second = byte(out, first, hex(b / 16));
    byte(out, second, hex(b % 16))
}

pub fn text(out: &mut [u8], at: usize, t: &[u8]) -> usize
    ensures { Wrote (is.shown_text t.now) at out.old out.new result }
{
    let mut past = at;
    for b in t {
        past = shown(out, past, *b);
    }
    capped_place(past)
}

fn number(out: &mut [u8], at: usize, n: u64) -> usize
    ensures { Wrote (is.decimal n) at out.old out.new result }
{
    if n < 10 {
        return byte(out, at, 48 + n as u8);
    }
    let last = number(out, at, n / 10);
    byte(out, last, 48 + (n % 10) as u8)
}

// Four bytes for each storage's name, after how many of them it has.
pub const NAMES: [u8; 65] =
    *b"\x03f64 \x03f32 \x03f16 \x04bf16\x03i64 \x03i32 \x03i16 \x02i8  \x03u64 \x03u32 \x03u16 \x02u8  \x04bool";

// A storage's name, nothing for a code that has none.
fn storage(out: &mut [u8], at: usize, code: u64) -> usize
    ensures { Wrote (storage_of code).called at out.old out.new result }
{
    if code < 13 {
        let first = 5 * code as usize;
        let from = first + 1;
        let end = from + NAMES[first] as usize;
        return word(out, at, &NAMES[from..end]);
    }
    capped_place(at)
}

// The same, each after a blank.
pub fn blank_text(out: &mut [u8], at: usize, t: &[u8]) -> usize
    ensures { Wrote (32 ∷ is.shown_text t.now) at out.old out.new result }
{
    let from = byte(out, at, 32);
    text(out, from, t)
}

pub fn blank_number(out: &mut [u8], at: usize, n: u64) -> usize
    ensures { Wrote (32 ∷ is.decimal n) at out.old out.new result }
{
    let from = byte(out, at, 32);
    number(out, from, n)
}

pub fn blank_storage(out: &mut [u8], at: usize, code: u64) -> usize
    ensures { Wrote (32 ∷ (storage_of code).called) at out.old out.new result }
{
    let from = byte(out, at, 32);
    storage(out, from, code)
}
