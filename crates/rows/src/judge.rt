// What is asked of each row by itself, and of attributes: ranges inside the buffer, rank and code, exactly one map.
ghost use Rattle.std.specs.Prelude.{◌≡◌, ◌+◌, ◌*◌, ◌≤◌, length};
ghost use Rattle.meaning.specs.Columns.{object_width, component_width};
ghost use Rattle.meaning.specs.Text.{all};
ghost use Rattle.meaning.specs.Asked.{each_row, asked_object, asked_component};
ghost use Rattle.meaning.specs.Sound as is;

use crate::absent;
use columns::{
    ATTRIBUTES, ATTRIBUTES_LENGTH, DIGEST, DIGEST_LENGTH, DTYPE, FORMAT, FORMAT_LENGTH, LENGTH,
    NAME, NAME_LENGTH, OFFSET, RANK, TYPE, TYPE_LENGTH, inside,
};

// Exactly one map where so many levels are left, or one that gets too deep before any fault.
fn a_map(s: &[u8], levels: u64) -> bool
    ensures { result ≡ is.a_map levels s.now }
{
    if s.is_empty() || cbor::major_of(s[0]) != 5 {
        return false;
    }
    let end = cbor::skip(s, levels);
    end == s.len() || end == cbor::DEEP
}

// Absent, or a map inside the buffer.
pub fn attributes(buffer: &[u8], place: u64, size: u64, levels: u64) -> bool
    ensures { result ≡ is.attributes_sound buffer.now levels (record { place = place; size = size }) }
{
    inside(buffer.len(), place, size)
        && (absent(place, size) || a_map(&buffer[place as usize..(place + size) as usize], levels))
}

// The object whose row these numbers begin with.
fn object(buffer: &[u8], row: &[u64]) -> bool
    requires { object_width ≤ length row.now }
    ensures { result ≡ is.object_sound buffer.now (asked_object row.now) }
{
    let n = buffer.len();
    inside(n, row[NAME], row[NAME_LENGTH])
        && row[RANK] <= 8
        && inside(n, row[FORMAT], row[FORMAT_LENGTH])
        && attributes(
            buffer,
            row[ATTRIBUTES],
            row[ATTRIBUTES_LENGTH],
            numbers::IN_OBJECT,
        )
}

// Each of n objects.
pub fn objects(buffer: &[u8], rows: &[u64], n: u64) -> bool
    requires { object_width * n ≤ length rows.now }
    ensures { result ≡ all (is.object_sound buffer.now) (each_row asked_object object_width n rows.now) }
{
    (0..n as usize).all(|i| object(buffer, &rows[columns::OBJECT * i..]))
}

// The component whose row these numbers begin with.
fn component(buffer: &[u8], row: &[u64]) -> bool
    requires { component_width ≤ length row.now }
    ensures { result ≡ is.component_sound buffer.now (asked_component row.now) }
{
    let n = buffer.len();
    inside(n, row[NAME], row[NAME_LENGTH])
        && row[DTYPE] <= 12
        && inside(n, row[TYPE], row[TYPE_LENGTH])
        && inside(n, row[OFFSET], row[LENGTH])
        && inside(n, row[DIGEST], row[DIGEST_LENGTH])
}

// Each of n components.
pub fn components(buffer: &[u8], rows: &[u64], n: u64) -> bool
    requires { component_width * n ≤ length rows.now }
    ensures { result ≡ all (is.component_sound buffer.now) (each_row asked_component component_width n rows.now) }
{
    (0..n as usize).all(|i| component(buffer, &rows[columns::COMPONENT * i..]))
}
