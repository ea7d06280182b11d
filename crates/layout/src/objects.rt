// Objects in the manifest, with their components.
ghost use Rattle.std.specs.Prelude.{◌+◌, ◌≤◌, length, get_or};
ghost use Rattle.meaning.specs.Columns.{rank_column, shape_column};
ghost use Rattle.emit.specs.Laid.{Room, Laid};
ghost use Rattle.layout.specs.Pieces as is;
ghost use Rattle.layout.specs.Rows.{ObjectRow, ObjectRows};

use crate::components::components_at;
use crate::fields::{map_field, optional_item, presence, word_at, word_field};
use columns::{
    ATTRIBUTES, ATTRIBUTES_LENGTH, COUNT, FORMAT, FORMAT_LENGTH, NAME, NAME_LENGTH, RANK, SHAPE,
};
use emit::{head_at, list_at, text_at};

// The shape of the object whose row these numbers begin with.
fn shape_field(out: &mut [u8], at: usize, row: &[u64]) -> usize
    requires rank_column_in_bounds { shape_column + get_or row.now rank_column 0 ≤ length row.now }
    requires room { Room (is.shape_field row.now) at out.old }
    ensures { Laid (is.shape_field row.now) at out.old out.new result }
{
    let past = text_at(out, at, b"shape");
    let end = SHAPE + row[RANK] as usize;
    list_at(out, past, &row[SHAPE..end])
}

// Its name and its shape.
fn front_at(out: &mut [u8], at: usize, buffer: &[u8], row: &[u64]) -> usize
    requires object_row { ObjectRow buffer.now row.now }
    requires room { Room (is.object_front buffer.now row.now) at out.old }
    ensures { Laid (is.object_front buffer.now row.now) at out.old out.new result }
{
    let a = word_at(out, at, buffer, row[NAME], row[NAME_LENGTH]);
    let b = head_at(
        out,
        a,
        5,
        3 + presence(row[ATTRIBUTES], row[ATTRIBUTES_LENGTH]),
    );
    shape_field(out, b, row)
}

// The rest of it.
fn rest_at(out: &mut [u8], at: usize, buffer: &[u8], row: &[u64]) -> usize
    requires object_row { ObjectRow buffer.now row.now }
    requires room { Room (is.object_rest buffer.now row.now) at out.old }
    ensures { Laid (is.object_rest buffer.now row.now) at out.old out.new result }
{
    let a = word_field(out, at, b"format", buffer, row[FORMAT], row[FORMAT_LENGTH]);
    let b = optional_item(
        out,
        a,
        b"attributes",
        buffer,
        row[ATTRIBUTES],
        row[ATTRIBUTES_LENGTH],
    );
    map_field(out, b, b"components", row[COUNT])
}

// All of it, up to its components.
fn object_at(out: &mut [u8], at: usize, buffer: &[u8], row: &[u64]) -> usize
    requires object_row { ObjectRow buffer.now row.now }
    requires room { Room (is.object_at buffer.now row.now) at out.old }
    ensures { Laid (is.object_at buffer.now row.now) at out.old out.new result }
{
    let front = front_at(out, at, buffer, row);
    rest_at(out, front, buffer, row)
}

// The entries of n objects, the first at the rows' start, their components from the place `first` on, where the turn `turn` is reached.
pub fn objects_at(
    out: &mut [u8],
    at: usize,
    buffer: &[u8],
    plan: &[u64],
    rows: &[u64],
    n: u64,
    first: usize,
    turn: u64,
) -> usize
    requires object_rows { ObjectRows buffer.now plan.now rows.now n 0 first turn }
    requires room { Room (is.objects_of buffer.now plan.now rows.now n 0 first turn) at out.old }
    ensures { Laid (is.objects_of buffer.now plan.now rows.now n 0 first turn) at out.old out.new result }
{
    let mut past = at;
    let mut from = first;
    let mut next = turn;
    for i in 0..n as usize {
        let row = columns::OBJECT * i;
        let count = rows[row + COUNT];
        let begun = object_at(out, past, buffer, &rows[row..]);
        let p = components_at(out, begun, buffer, plan, rows, count, from, next);
        past = p.at;
        next = p.turn;
        from += columns::COMPONENT * count as usize;
    }
    past
}
