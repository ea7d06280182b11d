// Two objects of one name: what differs between them, an entry for that, and those of their components after it. The entry's place is kept free until its components have been seen.
#![tactic(auto)]

ghost use Rattle.std.specs.Prelude.{◌≡◌, ◌+◌, ◌≤◌};
ghost use Rattle.meaning.specs.Limit.{component_limit};
ghost use Rattle.put.specs.Wrote.{Wrote};
ghost use Rattle.changes.specs.Changes.{flat, in_both};
ghost use Rattle.parts.specs.Parts.{parts_at};
ghost use Rattle.parts.specs.Seen.{PartsSeen, LonesSeen};
ghost use Rattle.pairs.specs.Objects.{object_at, count_at, Sized, BothSeen};

use columns::{COMPONENT, COUNT};
use matching::Names;
use parts::{Lone, Pair, Seen, either};

// An object of a file, by the places in the file's table of its row and of its components' rows.
#[derive(Clone, Copy)]
pub struct Object<'a> {
    pub file: &'a [u8],
    pub table: &'a [u64],
    pub at: usize,
    pub parts: usize,
    ghost sized: { Sized table.now at parts },
}

impl<'a> Object<'a> {
    // Its components' rows.
    fn components(self) -> Names<'a, COMPONENT>
        ensures { let a = self.entry in (result.file ≡ a.file) × (result.table ≡ a.table) × (result.first ≡ a.parts) × (result.count ≡ count_at a.table.now a.at) }
    {
        Names {
            file: self.file,
            table: self.table,
            first: self.parts,
            count: self.table[self.at + COUNT] as usize,
        }
    }

    // Its own row.
    fn itself(self) -> differing::Object<'a>
        ensures { (result.file ≡ self.entry.file) × (result.table ≡ self.entry.table) × (result.at ≡ self.entry.at) }
    {
        differing::Object {
            file: self.file,
            table: self.table,
            at: self.at,
        }
    }
}

// The components of the first, beside those of the second.
fn firsts(
    first: Names<'_, COMPONENT>,
    second: Names<'_, COMPONENT>,
    pair: Pair,
    list: &mut [u64],
    at: usize,
) -> Seen
    requires { second.count ≤ component_limit }
    ensures { let a = first.entry in let b = second.entry in PartsSeen (parts_at a.file.now a.table.now a.first a.count) (parts_at b.file.now b.table.now b.first b.count) pair.i pair.j at list.old list.new result }
{
    let mut numbers = [0u16; 16];
    let sorted = second.sort(&mut numbers);
    parts::of_first(first, &sorted, pair, list, at)
}

// Those of the second whose names the first's lack.
fn seconds(
    second: Names<'_, COMPONENT>,
    first: Names<'_, COMPONENT>,
    pair: Pair,
    list: &mut [u64],
    at: usize,
) -> Lone
    requires { first.count ≤ component_limit }
    ensures { let a = first.entry in let b = second.entry in LonesSeen (parts_at b.file.now b.table.now b.first b.count) (parts_at a.file.now a.table.now a.first a.count) pair.i pair.j at list.old list.new result }
{
    let mut numbers = [0u16; 16];
    let sorted = first.sort(&mut numbers);
    parts::of_second(second, &sorted, pair, list, at)
}

// The components of both.
fn of_components(
    first: Names<'_, COMPONENT>,
    second: Names<'_, COMPONENT>,
    pair: Pair,
    list: &mut [u64],
    at: usize,
) -> Seen
    requires { (first.count ≤ component_limit) × (second.count ≤ component_limit) }
    ensures { let a = first.entry in let b = second.entry in BothSeen (parts_at a.file.now a.table.now a.first a.count) (parts_at b.file.now b.table.now b.first b.count) pair.i pair.j at list.old list.new result }
{
    let f = firsts(first, second, pair, list, at);
    let s = seconds(second, first, pair, list, f.at);
    Seen {
        at: s.at,
        names: either(f.names, s.names),
        ..f
    }
}

// Two objects of one name.
pub fn of_pair(
    first: Object<'_>,
    second: Object<'_>,
    pair: Pair,
    list: &mut [u64],
    at: usize,
) -> usize
    ensures { let a = first.entry in let b = second.entry in Wrote (flat (in_both pair.i pair.j (object_at a.file.now a.table.now a.at a.parts) (object_at b.file.now b.table.now b.at b.parts))) at list.old list.new result }
{
    let own = differing::of_objects(first.itself(), second.itself());
    let past = entries::past(at, 8);
    let s = of_components(first.components(), second.components(), pair, list, past);
    let what = own + s.names + s.dtypes + s.kinds + s.bytes;
    if what == 0 {
        return put::capped_place(at);
    }
    entries::entry(list, at, [3, pair.i, pair.j, 0, 0, what, 0, 0]);
    s.at
}
