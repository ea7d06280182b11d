// What differs between two components of one name, and between two objects of one name by themselves, from the rows of two files.
#![tactic(auto)]

ghost use Rattle.std.specs.Prelude.{◌≡◌, ◌≤◌, MatchOption};
ghost use Rattle.std.proofs.Math.Option.{none, some};
ghost use Rattle.changes.specs.Changes.{other_type, bit};
ghost use Rattle.differing.specs.Rows.{part_at, shape_at, format_at, Ranked};
ghost use Rattle.differing.specs.Bits.{told, own_what};

use columns::{
    COMPONENT, DTYPE, FORMAT, FORMAT_LENGTH, LENGTH, OFFSET, RANK, SHAPE, TYPE, TYPE_LENGTH,
};
use matching::Row;
use rows::absent;

// 8, 16 and 32 where dtype, type and bytes differ, else 0; and where the bytes do, and at how many positions.
#[derive(Clone, Copy)]
pub struct Differences {
    pub dtype: u64,
    pub kind: u64,
    pub bytes: u64,
    pub position: u64,
    pub count: u64,
}

// What the component's type is called, if it has one.
fn type_name<'a>(part: Row<'a, COMPONENT>) -> Option<&'a [u8]>
    ensures { let type = (part_at part.entry.file.now part.entry.table.now part.entry.at).type in MatchOption result (type ≡ none) (λ name. type ≡ some name.now) }
{
    let place = part.table[part.at + TYPE];
    let length = part.table[part.at + TYPE_LENGTH];
    if absent(place, length) {
        None
    } else {
        Some(view::part(part.file, place, length))
    }
}

// One type is there and the other isn't, or both are and differ.
fn other_type(first: Row<'_, COMPONENT>, second: Row<'_, COMPONENT>) -> bool
    ensures { let a = first.entry in let b = second.entry in result ≡ other_type (part_at a.file.now a.table.now a.at) (part_at b.file.now b.table.now b.at) }
{
    match (type_name(first), type_name(second)) {
        (None, None) => false,
        (Some(x), Some(y)) => !text::same(x, y),
        _ => true,
    }
}

// n where they differ: a sum of these is the entry's number (document 02), and `n * u64::from(differ)` is no plainer.
fn flag(n: u64, differ: bool) -> u64
    ensures { result ≡ bit n differ }
{
    if differ { n } else { 0 }
}

// The bytes of the component.
fn blob<'a>(part: Row<'a, COMPONENT>) -> &'a [u8]
    ensures { result.now ≡ (part_at part.entry.file.now part.entry.table.now part.entry.at).blob }
{
    view::part(
        part.file,
        part.table[part.at + OFFSET],
        part.table[part.at + LENGTH],
    )
}

// Of two components.
pub fn of_parts(first: Row<'_, COMPONENT>, second: Row<'_, COMPONENT>) -> Differences
    ensures { result ≡ told (part_at first.entry.file.now first.entry.table.now first.entry.at) (part_at second.entry.file.now second.entry.table.now second.entry.at) }
{
    let dtypes = first.table[first.at + DTYPE] != second.table[second.at + DTYPE];
    let s = apart::of_bytes(blob(first), blob(second));
    Differences {
        dtype: flag(8, dtypes),
        kind: flag(16, other_type(first, second)),
        bytes: flag(32, s.count != 0),
        position: s.position,
        count: s.count,
    }
}

// An object of a file, by the place of its row in the file's table.
#[derive(Clone, Copy)]
pub struct Object<'a> {
    pub file: &'a [u8],
    pub table: &'a [u64],
    pub at: usize,
    ghost ranked: { Ranked table.now at },
}

impl<'a> Object<'a> {
    fn shape(self) -> &'a [u64]
        ensures { result.now ≡ shape_at self.entry.table.now self.entry.at }
    {
        let start = self.at + SHAPE;
        let end = start + self.table[self.at + RANK] as usize;
        &self.table[start..end]
    }

    fn format(self) -> &'a [u8]
        ensures { result.now ≡ format_at self.entry.file.now self.entry.table.now self.entry.at }
    {
        view::part(
            self.file,
            self.table[self.at + FORMAT],
            self.table[self.at + FORMAT_LENGTH],
        )
    }
}

// 1 where the shapes of two objects differ, 2 where the formats do.
pub fn of_objects(first: Object<'_>, second: Object<'_>) -> u64
    ensures { let a = first.entry in let b = second.entry in (result ≡ own_what (shape_at a.table.now a.at) (format_at a.file.now a.table.now a.at) (shape_at b.table.now b.at) (format_at b.file.now b.table.now b.at)) × (result ≤ 3) }
{
    let shapes = first.shape() != second.shape();
    let formats = !text::same(first.format(), second.format());
    flag(1, shapes) + flag(2, formats)
}
