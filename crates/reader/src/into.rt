// A file read into a lent table (document 01, "The table and the view"): the acceptance check, the room, and then the rows.
ghost use Rattle.std.specs.Prelude.{◌≡◌, ◌+◌, ◌*◌, ◌<◌, ◌≤◌, length, leb};
ghost use Rattle.meaning.specs.Columns.{object_width, component_width};
ghost use Rattle.meaning.specs.Rows.{read_into, table_after};
ghost use Rattle.meaning.specs.Layouts.{current, layout_of};
ghost use Rattle.cbor.specs.Ending.{FAULT};
ghost use Rattle.numbers.specs.Numbered.{number_of};
ghost use Rattle.reader.specs.Answer as is;

use crate::manifest;
use fields::place_of;
use frame::Framed;
use numbers::{FileFault, Refusal};
use table::span::{Span, item_at};

// The verdict; and for a file that is accepted both counts, the manifest's start, and the place and length of the root's attributes. All 0 on refusal.
#[repr(C)]
#[derive(Clone, Copy)]
pub struct Answer {
    pub number: u64,
    pub object: u64,
    pub component: u64,
    pub objects: u64,
    pub components: u64,
    pub start: u64,
    pub place: u64,
    pub size: u64,
}

fn refused(fault: FileFault) -> Answer
    ensures { result ≡ is.refused (number_of fault.refusal) fault.object fault.component }
{
    Answer {
        number: u64::from(fault.refusal),
        object: fault.object as u64,
        component: fault.component as u64,
        objects: 0,
        components: 0,
        start: 0,
        place: 0,
        size: 0,
    }
}

// Room for the rows of so many objects and components.
fn fits(room: usize, objects: usize, components: usize) -> bool
    ensures { result ≡ leb (object_width * objects + component_width * components) room }
{
    columns::holds(room, objects as u64, components as u64)
}

// The root's attributes, which have `left` bytes left in m, in a file where m ends at `end`.
pub fn attributes(m: &[u8], left: usize, end: usize) -> Span
    ensures { is.AttributesIs m.now left end result }
{
    item_at(m, left, numbers::IN_ROOT, end)
}

// The numbers of a table that stand before the rows of so many objects and components: none, or where the rows are its last all that they don't need.
fn before_rows(last: bool, room: usize, objects: usize, components: usize) -> usize
    requires { object_width * objects + component_width * components ≤ room }
    ensures { result ≡ is.before_rows last room (object_width * objects + component_width * components) }
{
    if last {
        return room - (columns::OBJECT * objects + columns::COMPONENT * components);
    }
    0
}

// The manifest m, which begins at `start`, read into t: its beginning, or its last numbers.
fn fill(layout: u64, m: &[u8], start: usize, last: bool, t: &mut [u64]) -> Answer
    requires { start + length m.now < FAULT }
    ensures { is.Filled (layout_of layout) last start m.now t.old result t.new }
{
    match manifest(layout, m, start as u64) {
        Err(fault) => refused(fault),
        Ok(told) => {
            let objects = told.objects;
            let components = told.components;
            if !fits(t.len(), objects, components) {
                return refused(FileFault::from(Refusal::Room));
            }
            let end = start + m.len();
            let place = place_of(m.len(), told.place);
            let first = before_rows(last, t.len(), objects, components);
            objects::lay(
                layout,
                &m[place..],
                start as u64,
                end,
                columns::OBJECT * objects,
                &mut t[first..],
            );
            let a = attributes(m, told.attributes, end);
            Answer {
                number: 0,
                object: 0,
                component: 0,
                objects: objects as u64,
                components: components as u64,
                start: start as u64,
                place: a.place,
                size: a.size,
            }
        }
    }
}

// A file of this layout, lent whole, read into a lent table: its beginning, or its last numbers.
fn place(layout: u64, file: &[u8], last: bool, t: &mut [u64]) -> Answer
    ensures { (result ≡ is.answered (read_into (layout_of layout) file.now (length t.old))) × (t.new ≡ is.placed last t.old (read_into (layout_of layout) file.now (length t.old))) }
{
    match frame::frame(layout, file) {
        Err(refusal) => refused(FileFault::from(refusal)),
        Ok(Framed { start, size }) => {
            let end = start + size;
            fill(layout, &file[start..end], start, last, t)
        }
    }
}

// A file of this layout, lent whole, read into a lent table.
pub fn read_as(layout: u64, file: &[u8], t: &mut [u64]) -> Answer
    ensures { (result ≡ is.answered (read_into (layout_of layout) file.now (length t.old))) × (t.new ≡ table_after t.old (read_into (layout_of layout) file.now (length t.old))) }
{
    place(layout, file, false, t)
}

// Likewise, but the rows are the table's last numbers.
pub fn read_last(layout: u64, file: &[u8], t: &mut [u64]) -> Answer
    ensures { (result ≡ is.answered (read_into (layout_of layout) file.now (length t.old))) × (t.new ≡ is.end_after t.old (read_into (layout_of layout) file.now (length t.old))) }
{
    place(layout, file, true, t)
}

// A file of 1.2.0.
pub fn read(file: &[u8], t: &mut [u64]) -> Answer
    ensures { (result ≡ is.answered (read_into current file.now (length t.old))) × (t.new ≡ table_after t.old (read_into current file.now (length t.old))) }
{
    read_as(0, file, t)
}
