// Components: their blobs, and their entries in the manifest.
ghost use Rattle.std.specs.Prelude.{◌≡◌, take};
ghost use Rattle.meaning.specs.WrittenFile.{over};
ghost use Rattle.emit.specs.Laid.{Room, Laid};
ghost use Rattle.layout.specs.Pieces as is;
ghost use Rattle.layout.specs.Rows.{Within, BlobRoom, FrontRoom, ComponentRow, ComponentRows};

use crate::fields::{number_field, optional_word, presence, range_at, storage_field, word_at};
use columns::{DIGEST, DIGEST_LENGTH, DTYPE, LENGTH, NAME, NAME_LENGTH, OFFSET, TYPE, TYPE_LENGTH};
use emit::{gap_at, head_at};
use sizes::placing::{offset_at, stepped};

// Where a piece ends in the output, and whose turn is next.
#[derive(Clone, Copy)]
pub struct Past {
    pub at: usize,
    pub turn: u64,
}

// A range of the buffer as a blob over the front of the output, which is laid up to `past`; zeros up to it where that isn't so far. Answers where the front then ends.
fn blob_at(out: &mut [u8], past: usize, start: usize, buffer: &[u8], place: u64, size: u64) -> usize
    requires within { Within buffer.now place size }
    requires blob_room { BlobRoom out.old past start size }
    ensures { Laid (over (take past out.old) start (is.range buffer.now place size)) 0 out.old out.new result }
{
    if past < start {
        let from = gap_at(out, past, start);
        return range_at(out, from, buffer, place, size);
    }
    let end = range_at(out, start, buffer, place, size);
    past.max(end)
}

// The blobs of n components over the front of the output, which is laid up to `at`, where the turn `turn` is reached: in any order, each at its offset.
pub fn blobs_at(
    out: &mut [u8],
    at: usize,
    buffer: &[u8],
    plan: &[u64],
    rows: &[u64],
    n: u64,
    first: usize,
    turn: u64,
) -> usize
    requires component_rows { ComponentRows buffer.now plan.now rows.now n first turn }
    requires front_room { FrontRoom (is.blobs_of buffer.now plan.now rows.now (take at out.old) n first turn) at out.old }
    ensures { Laid (is.blobs_of buffer.now plan.now rows.now (take at out.old) n first turn) 0 out.old out.new result }
{
    let mut past = at;
    let mut next = turn;
    for i in 0..n as usize {
        let row = first + columns::COMPONENT * i;
        let start = offset_at(plan, next) as usize;
        let size = rows[row + LENGTH];
        past = blob_at(out, past, start, buffer, rows[row + OFFSET], size);
        next = stepped(plan, next, size);
    }
    past
}

// The fields of the component whose row these numbers begin with.
fn component_fields(out: &mut [u8], at: usize, buffer: &[u8], row: &[u64], offset: u64) -> usize
    requires component_row { ComponentRow buffer.now row.now }
    requires room { Room (is.component_fields buffer.now row.now offset) at out.old }
    ensures { Laid (is.component_fields buffer.now row.now offset) at out.old out.new result }
{
    let a = storage_field(out, at, row[DTYPE]);
    let b = optional_word(out, a, b"type", buffer, row[TYPE], row[TYPE_LENGTH]);
    let c = number_field(out, b, b"offset", offset);
    let d = number_field(out, c, b"length", row[LENGTH]);
    optional_word(out, d, b"digest", buffer, row[DIGEST], row[DIGEST_LENGTH])
}

// Its entry: its name, and the map of these.
fn component_at(out: &mut [u8], at: usize, buffer: &[u8], row: &[u64], offset: u64) -> usize
    requires component_row { ComponentRow buffer.now row.now }
    requires room { Room (is.component_at buffer.now row.now offset) at out.old }
    ensures { Laid (is.component_at buffer.now row.now offset) at out.old out.new result }
{
    let a = word_at(out, at, buffer, row[NAME], row[NAME_LENGTH]);
    let n = 3 + presence(row[TYPE], row[TYPE_LENGTH]) + presence(row[DIGEST], row[DIGEST_LENGTH]);
    let b = head_at(out, a, 5, n);
    component_fields(out, b, buffer, row, offset)
}

// The entries of n components, where the turn `turn` is reached.
pub fn components_at(
    out: &mut [u8],
    at: usize,
    buffer: &[u8],
    plan: &[u64],
    rows: &[u64],
    n: u64,
    first: usize,
    turn: u64,
) -> Past
    requires component_rows { ComponentRows buffer.now plan.now rows.now n first turn }
    requires room { Room (is.components_of buffer.now plan.now rows.now n first turn) at out.old }
    ensures laid { Laid (is.components_of buffer.now plan.now rows.now n first turn) at out.old out.new result.at }
    ensures turn { result.turn ≡ is.reached_past plan.now rows.now n first turn }
{
    let mut past = at;
    let mut next = turn;
    for i in 0..n as usize {
        let row = first + columns::COMPONENT * i;
        let start = offset_at(plan, next);
        past = component_at(out, past, buffer, &rows[row..], start);
        next = stepped(plan, next, rows[row + LENGTH]);
    }
    Past {
        at: past,
        turn: next,
    }
}
