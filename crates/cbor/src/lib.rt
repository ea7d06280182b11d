// Heads of CBOR items, and passing over one item of any kind (document 01, "CBOR carried"). Every slice begins with the item and may go on after it.
// An answer is the number of bytes that were passed, or 2^63 and a refusal number, which is above the length of every slice.
#![tactic(auto)]

ghost use Rattle.std.specs.Prelude.{◌≡◌, ◌+◌, ◌-◌, ◌*◌, ◌/◌, ◌%◌, ◌<◌, ◌≤◌, length, get_or};
ghost use Rattle.meaning.specs.Read as read;
ghost use Rattle.cbor.specs.Ending as spec;

use endian::{be2, be4, wide};
use numbers::Refusal;

pub const MALFORMED: usize = 0x8000_0000_0000_0006;

pub const DEEP: usize = 0x8000_0000_0000_0007;

// Why an item is refused, by an answer that is above the length of its slice.
pub fn refusal(answer: usize) -> Refusal
    ensures { result ≡ spec.refusal_of answer }
{
    if answer == DEEP {
        return Refusal::Deep;
    }
    Refusal::Cbor
}

// Of an indefinite length: more than any slice holds.
const ENDLESS: u64 = 0xffff_ffff_ffff_ffff;

// A head's argument, and how many bytes the head takes.
#[derive(Clone, Copy)]
pub struct Argued {
    pub value: u64,
    pub size: usize,
}

// The low five bits of an initial byte.
pub fn low_of(b: u8) -> u8
    ensures { result ≡ b % 32 }
{
    b & 31
}

// The major type: the top three bits.
pub fn major_of(b: u8) -> u8
    ensures { result ≡ b / 32 }
{
    b >> 5
}

fn argument(value: u64, size: usize) -> Argued
    ensures { result ≡ spec.argued value size }
{
    Argued {
        value: value,
        size: size,
    }
}

// The head that begins s, if its low five bits are 24 or more. The first four bytes of a long argument are read in one place: with two, `head` is too large to be
// inlined, and every item costs a call through memory.
fn long_head(s: &[u8], low: u8) -> Argued
    requires { (24 ≤ low) × (1 ≤ length s.now) × (low ≡ get_or s.now 0 0 % 32) }
    ensures { result ≡ spec.head_of s.now }
{
    let n = s.len();
    if low == 24 {
        if n < 2 {
            return argument(0, MALFORMED);
        }
        return argument(wide(s[1]), 2);
    }
    if low == 25 {
        if n < 3 {
            return argument(0, MALFORMED);
        }
        return argument(be2(s, 1), 3);
    }
    if low == 31 {
        return argument(ENDLESS, 1);
    }
    if 27 < low {
        return argument(0, MALFORMED);
    }
    if n < 5 {
        return argument(0, MALFORMED);
    }
    let high = be4(s, 1);
    if low == 26 {
        return argument(high, 5);
    }
    if n < 9 {
        return argument(0, MALFORMED);
    }
    argument(high * 4294967296 + be4(s, 5), 9)
}

// The head that begins s: its argument, and its size or a refusal.
pub fn head(s: &[u8]) -> Argued
    ensures { result ≡ spec.head_of s.now }
{
    if s.len() == 0 {
        return argument(0, MALFORMED);
    }
    let low = low_of(s[0]);
    if low < 24 {
        return argument(low as u64, 1);
    }
    long_head(s, low)
}

// Where a definite string ends that has a head of `size` bytes and `value` bytes of content, in `len` bytes.
fn string_end(len: usize, size: usize, value: u64) -> usize
    ensures { result ≡ spec.string_end len size value }
{
    if len < size {
        return MALFORMED;
    }
    if ((len - size) as u64) < value {
        return MALFORMED;
    }
    size + value as usize
}

// A chunk of an indefinite string: a definite string of this major type.
fn chunk(s: &[u8], major: u8) -> usize
    ensures { result ≡ spec.code (spec.ending s.now (read.chunk major s.now)) }
{
    if s.len() == 0 {
        return MALFORMED;
    }
    let b = s[0];
    if major_of(b) != major {
        return MALFORMED;
    }
    if low_of(b) == 31 {
        return MALFORMED;
    }
    let h = head(&s[0..]);
    string_end(s.len(), h.size, h.value)
}

// The chunks of an indefinite string, with the break.
fn chunks(s: &[u8], major: u8) -> usize
    ensures { result ≡ spec.code (spec.ending s.now (read.to_break (read.chunk major) s.now)) }
{
    let mut at = 0;
    while at < s.len() {
        if s[at] == 255 {
            return at + 1;
        }
        let r = chunk(&s[at..], major);
        if s.len() - at < r {
            return r;
        }
        at += r;
    }
    MALFORMED
}

// A string, definite or not.
fn string(s: &[u8]) -> usize
    ensures { spec.StringIs s.now result }
{
    if s.len() == 0 {
        return MALFORMED;
    }
    let b = s[0];
    if low_of(b) == 31 {
        let r = chunks(&s[1..], major_of(b));
        if s.len() - 1 < r {
            return r;
        }
        return r + 1;
    }
    let h = head(&s[0..]);
    string_end(s.len(), h.size, h.value)
}

// An item that holds no other: a number, a string, a simple value or a float. A simple value below 32 has no second byte; where that byte is missing, the head's value is 0.
fn plain(s: &[u8]) -> usize
    ensures { spec.PlainIs s.now result }
{
    if s.len() == 0 {
        return MALFORMED;
    }
    let b = s[0];
    if 64 <= b {
        if b < 128 {
            return string(&s[0..]);
        }
    }
    if low_of(b) == 31 {
        return MALFORMED;
    }
    let h = head(&s[0..]);
    if b == 248 {
        if h.value < 32 {
            return MALFORMED;
        }
    }
    h.size
}

// What an array, a map or a tag holds: items from `size` on, `count` of them (mode 0), or up to the break of an array (1) or of a map (2).
#[derive(Clone, Copy)]
pub struct Holding {
    pub size: usize,
    pub count: u64,
    pub mode: u64,
}

fn held(size: usize, count: u64, mode: u64) -> Holding
    ensures { result ≡ spec.held size count mode }
{
    Holding {
        size: size,
        count: count,
        mode: mode,
    }
}

// How many items n pairs are, or more than any slice holds.
pub fn doubled(n: u64) -> u64
    ensures { result ≡ spec.doubled n }
{
    if n < 0x4000_0000_0000_0000 {
        return n + n;
    }
    0x8000_0000_0000_0000
}

// The head of an array, a map or a tag.
fn holder(s: &[u8]) -> Holding
    ensures { spec.HolderIs s.now result }
{
    if s.len() == 0 {
        return held(MALFORMED, 0, 0);
    }
    let b = s[0];
    if b == 223 {
        return held(MALFORMED, 0, 0);
    }
    let h = head(&s[0..]);
    if 192 <= b {
        return held(h.size, 1, 0);
    }
    if b < 160 {
        if b == 159 {
            return held(h.size, h.value, 1);
        }
        return held(h.size, h.value, 0);
    }
    if b == 191 {
        return held(h.size, h.value, 2);
    }
    held(h.size, doubled(h.value), 0)
}

// The break byte at `at`, where `left` items are due.
pub fn broken(mode: u64, left: u64, at: usize) -> usize
    requires { at < spec.FAULT }
    ensures { result ≡ spec.code (spec.shift at (spec.broken mode left)) }
{
    if mode == 0 {
        return MALFORMED;
    }
    if mode == 1 {
        return at + 1;
    }
    if left % 2 == 0 {
        return MALFORMED;
    }
    at + 1
}

// Items where no level is left.
fn too_deep(s: &[u8], count: u64, mode: u64) -> usize
    requires { spec.Counted mode count }
    ensures { result ≡ spec.code (spec.rest mode count 0 s.now) }
{
    if count == 0 {
        return 0;
    }
    if s.len() == 0 {
        return MALFORMED;
    }
    if s[0] == 255 {
        return broken(mode, count, 0);
    }
    DEEP
}

// `count` items one after the other (mode 0), or items up to the break of an array (1) or of a map (2), where `left` levels are left.
fn items(s: &[u8], count: u64, mode: u64, left: u64) -> usize
    requires { spec.Counted mode count }
    ensures { result ≡ spec.code (spec.rest mode count left s.now) }
{
    if left == 0 {
        return too_deep(&s[0..], count, mode);
    }
    let mut at = 0;
    let mut due = count;
    while 0 < due {
        if s.len() <= at {
            return MALFORMED;
        }
        let b = s[at];
        if b == 255 {
            return broken(mode, due, at);
        }
        if 128 <= b {
            if b < 224 {
                let h = holder(&s[at..]);
                if s.len() - at < h.size {
                    return MALFORMED;
                }
                let from = at + h.size;
                let r = items(&s[from..], h.count, h.mode, left - 1);
                if s.len() - from < r {
                    return r;
                }
                at = from + r;
                due -= 1;
                continue;
            }
        }
        let r = plain(&s[at..]);
        if s.len() - at < r {
            return r;
        }
        at += r;
        due -= 1;
    }
    at
}

// The bytes of a head that begins with b, which begins an unsigned integer.
fn number_size(b: u8) -> usize
    requires { b < 28 }
    ensures { spec.SizeIs b result }
{
    if b < 24 {
        return 1;
    }
    if b == 24 {
        return 2;
    }
    if b == 25 {
        return 3;
    }
    if b == 26 {
        return 5;
    }
    9
}

// The same as `skip`. Unsigned integers and text of up to 255 bytes, which most values are, need no loop.
fn skip_value(s: &[u8], left: u64) -> usize
    ensures { result ≡ spec.code (spec.ending s.now (read.item read.no_note left s.now)) }
{
    if s.len() == 0 {
        return MALFORMED;
    }
    let b = s[0];
    if 0 < left {
        if b < 28 {
            return string_end(s.len(), number_size(b), 0);
        }
        if b == 120 {
            if 2 <= s.len() {
                return string_end(s.len(), 2, wide(s[1]));
            }
        }
    }
    items(&s[0..], 1, 0, left)
}

// The item that begins s, where `left` levels are left: how many bytes it takes, or the refusal. Short text, which most keys are, comes first.
pub fn skip(s: &[u8], left: u64) -> usize
    ensures { result ≡ spec.code (spec.ending s.now (read.item read.no_note left s.now)) }
{
    if s.len() == 0 {
        return MALFORMED;
    }
    let b = s[0];
    if 96 <= b {
        if b < 120 {
            if 0 < left {
                return string_end(s.len(), 1, low_of(b) as u64);
            }
        }
    }
    skip_value(&s[0..], left)
}
