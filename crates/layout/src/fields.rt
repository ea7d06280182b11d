// Ranges of the buffer, and fields: a key and its value, laid at a place.
ghost use Rattle.std.specs.Prelude.{◌≡◌, ◌++◌, ◌+◌, ◌<◌, ◌≤◌};
ghost use Rattle.meaning.specs.Text.{ascii};
ghost use Rattle.meaning.specs.Types.{storage_of};
ghost use Rattle.meaning.specs.Manifest.{shortest_head, number_bytes, text_bytes};
ghost use Rattle.emit.specs.Laid.{Room, Laid};
ghost use Rattle.layout.specs.Pieces.{range, optional};
ghost use Rattle.layout.specs.Pieces as is;
ghost use Rattle.layout.specs.Rows.{Within};

use emit::{bytes_at, head_at, number_at, text_at};
use put::NAMES;
use rows::absent;

// 0 where a range is absent, else 1.
pub fn presence(place: u64, size: u64) -> u64
    ensures { (result ≡ is.presence place size) × (result ≤ 1) }
{
    u64::from(!absent(place, size))
}

// A range's bytes as they are.
pub fn range_at(out: &mut [u8], at: usize, buffer: &[u8], place: u64, size: u64) -> usize
    requires within { Within buffer.now place size }
    requires room { Room (range buffer.now place size) at out.old }
    ensures { Laid (range buffer.now place size) at out.old out.new result }
{
    let start = place as usize;
    let end = start + size as usize;
    bytes_at(out, at, &buffer[start..end])
}

// A range as a text.
pub fn word_at(out: &mut [u8], at: usize, buffer: &[u8], place: u64, size: u64) -> usize
    requires within { Within buffer.now place size }
    requires room { Room (text_bytes (range buffer.now place size)) at out.old }
    ensures { Laid (text_bytes (range buffer.now place size)) at out.old out.new result }
{
    let start = place as usize;
    let end = start + size as usize;
    text_at(out, at, &buffer[start..end])
}

pub fn number_field(out: &mut [u8], at: usize, key: &[u8], n: u64) -> usize
    requires { Room (text_bytes key.now ++ number_bytes n) at out.old }
    ensures { Laid (text_bytes key.now ++ number_bytes n) at out.old out.new result }
{
    let past = text_at(out, at, key);
    number_at(out, past, n)
}

// A key and the head of the map under it.
pub fn map_field(out: &mut [u8], at: usize, key: &[u8], n: u64) -> usize
    requires { Room (text_bytes key.now ++ shortest_head 5 n) at out.old }
    ensures { Laid (text_bytes key.now ++ shortest_head 5 n) at out.old out.new result }
{
    let past = text_at(out, at, key);
    head_at(out, past, 5, n)
}

pub fn word_field(
    out: &mut [u8],
    at: usize,
    key: &[u8],
    buffer: &[u8],
    place: u64,
    size: u64,
) -> usize
    requires within { Within buffer.now place size }
    requires room { Room (text_bytes key.now ++ text_bytes (range buffer.now place size)) at out.old }
    ensures { Laid (text_bytes key.now ++ text_bytes (range buffer.now place size)) at out.old out.new result }
{
    let past = text_at(out, at, key);
    word_at(out, past, buffer, place, size)
}

// The same, nothing where the range is absent.
pub fn optional_word(
    out: &mut [u8],
    at: usize,
    key: &[u8],
    buffer: &[u8],
    place: u64,
    size: u64,
) -> usize
    requires within { Within buffer.now place size }
    requires room { Room (optional buffer.now key.now text_bytes place size) at out.old }
    ensures { Laid (optional buffer.now key.now text_bytes place size) at out.old out.new result }
{
    if absent(place, size) {
        return at;
    }
    word_field(out, at, key, buffer, place, size)
}

// An item that stands in the buffer, copied.
pub fn optional_item(
    out: &mut [u8],
    at: usize,
    key: &[u8],
    buffer: &[u8],
    place: u64,
    size: u64,
) -> usize
    requires within { Within buffer.now place size }
    requires room { Room (optional buffer.now key.now (λ bs. bs) place size) at out.old }
    ensures { Laid (optional buffer.now key.now (λ bs. bs) place size) at out.old out.new result }
{
    if absent(place, size) {
        return at;
    }
    let past = text_at(out, at, key);
    range_at(out, past, buffer, place, size)
}

// The name that stands at a storage's code.
pub fn storage_field(out: &mut [u8], at: usize, code: u64) -> usize
    requires { (code < 13) × Room (text_bytes (ascii "dtype") ++ text_bytes (storage_of code).called) at out.old }
    ensures { Laid (text_bytes (ascii "dtype") ++ text_bytes (storage_of code).called) at out.old out.new result }
{
    let past = text_at(out, at, b"dtype");
    let first = 5 * code as usize;
    let from = first + 1;
    let end = from + NAMES[first] as usize;
    text_at(out, past, &NAMES[from..end])
}
