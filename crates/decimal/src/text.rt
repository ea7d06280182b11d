// The text, into a lent buffer.
ghost use Rattle.std.specs.Prelude.{◌≡◌, ◌+◌, ◌*◌, ◌^◌, ◌<◌, ◌≤◌};
ghost use Rattle.put.specs.Wrote.{Wrote};
ghost use Rattle.decimal.specs.Text as is;

use crate::digits;
use crate::digits::Decimal;

// The last k digits of n.
fn low_digits(out: &mut [u8], at: usize, n: u64, k: u64) -> usize
    ensures { Wrote (is.low_digits k n) at out.old out.new result }
{
    if k == 0 {
        return put::capped_place(at);
    }
    let before = low_digits(out, at, n / 10, k - 1);
    put::byte(out, before, 48 + (n % 10) as u8)
}

fn exponent(out: &mut [u8], at: usize, place: u64) -> usize
    ensures { Wrote (is.exponent place) at out.old out.new result }
{
    if place < 45 {
        let minus = put::byte(out, at, 45);
        return low_digits(out, minus, 45 - place, 2);
    }
    let plus = put::byte(out, at, 43);
    low_digits(out, plus, place - 45, 2)
}

fn written(out: &mut [u8], at: usize, d: Decimal) -> usize
    ensures { Wrote (is.written d) at out.old out.new result }
{
    let digits = d.digits;
    let first = low_digits(out, at, digits / 100000000, 1);
    let point = put::byte(out, first, 46);
    let rest = low_digits(out, point, digits, 8);
    let e = put::byte(out, rest, 101);
    exponent(out, e, d.place)
}

fn number(out: &mut [u8], at: usize, x: u64, t: u64) -> usize
    requires { (x < 255) × (t < 8388608) }
    ensures { Wrote (is.number x t) at out.old out.new result }
{
    if x == 0 {
        if t == 0 {
            return put::word(out, at, b"0.00000000e+00");
        }
        return written(out, at, digits::nine(t, 0));
    }
    written(out, at, digits::nine(8388608 + t, x - 1))
}

fn unsigned(out: &mut [u8], at: usize, x: u64, t: u64) -> usize
    requires { (x < 256) × (t < 8388608) }
    ensures { Wrote (is.unsigned x t) at out.old out.new result }
{
    if x == 255 {
        if t == 0 {
            return put::word(out, at, b"inf");
        }
        return put::word(out, at, b"nan");
    }
    number(out, at, x, t)
}

// The text of the f32 of pattern n, from at on, as far as it fits; and the place past it.
pub fn float(out: &mut [u8], at: usize, n: u32) -> usize
    ensures { Wrote (is.text n) at out.old out.new result }
{
    let m = n as u64;
    let x = m % 2147483648 / 8388608;
    let t = m % 8388608;
    if m < 2147483648 {
        return unsigned(out, at, x, t);
    }
    let minus = put::byte(out, at, 45);
    unsigned(out, minus, x, t)
}
