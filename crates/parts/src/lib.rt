// The components of two objects of one name: an entry for each that differs or is in one only, and what of them differs.
#![tactic(auto)]

ghost use Rattle.std.specs.Prelude.{◌≡◌, cond, eqb};
ghost use Rattle.std.proofs.Math.Option.{some};
ghost use Rattle.changes.specs.Changes.{part};
ghost use Rattle.differing.specs.Rows.{part_at};
ghost use Rattle.parts.specs.Parts.{parts_at, Beside};
ghost use Rattle.parts.specs.Seen.{PartSeen, PartsSeen, LoneSeen, LonesSeen};

use columns::COMPONENT;
use matching::{Names, Row, SortedNames};

// The place past the entries; 4, 8, 16 and 32 where names, dtypes, types and bytes differ, else 0.
#[derive(Clone, Copy)]
pub struct Seen {
    pub at: usize,
    pub names: u64,
    pub dtypes: u64,
    pub kinds: u64,
    pub bytes: u64,
}

// The same, of names only.
#[derive(Clone, Copy)]
pub struct Lone {
    pub at: usize,
    pub names: u64,
}

// The first that isn't 0: two of one kind are the same number or 0, and their sum must not count it twice (document 02 fixes the numbers).
pub fn either(a: u64, b: u64) -> u64
    ensures { result ≡ cond (eqb a 0) b a }
{
    if a == 0 { b } else { a }
}

impl Seen {
    // Nothing differs, and nothing is written.
    fn none(at: usize) -> Seen
        ensures { result ≡ record { at = at; names = 0; dtypes = 0; kinds = 0; bytes = 0 } }
    {
        Seen {
            at,
            names: 0,
            dtypes: 0,
            kinds: 0,
            bytes: 0,
        }
    }

    // With what was seen after it.
    fn then(self, later: Seen) -> Seen
        ensures { result ≡ record { at = later.at; names = cond (eqb self.names 0) later.names self.names; dtypes = cond (eqb self.dtypes 0) later.dtypes self.dtypes; kinds = cond (eqb self.kinds 0) later.kinds self.kinds; bytes = cond (eqb self.bytes 0) later.bytes self.bytes } }
    {
        Seen {
            at: later.at,
            names: either(self.names, later.names),
            dtypes: either(self.dtypes, later.dtypes),
            kinds: either(self.kinds, later.kinds),
            bytes: either(self.bytes, later.bytes),
        }
    }
}

// The numbers of the two objects in their models.
#[derive(Clone, Copy)]
pub struct Pair {
    pub i: u64,
    pub j: u64,
}

// The number of the component among the other object's that has this one's name.
fn beside(part: Row<'_, COMPONENT>, others: &SortedNames<'_, '_, COMPONENT>) -> Option<usize>
    ensures { let a = part.entry in Beside (part_at a.file.now a.table.now a.at) others.now.names.file.now others.now.names.table.now others.now.names.first others.now.names.count result }
{
    others.find(part.name())
}

// The component k of the first, and the second's of its name, which is l.
fn of_shared(
    first: Row<'_, COMPONENT>,
    second: Row<'_, COMPONENT>,
    pair: Pair,
    k: u64,
    l: u64,
    list: &mut [u64],
    at: usize,
) -> Seen
    ensures { let a = first.entry in let b = second.entry in PartSeen (part_at a.file.now a.table.now a.at) (some (record { index = l; it = part_at b.file.now b.table.now b.at })) pair.i pair.j k at list.old list.new result }
{
    let d = differing::of_parts(first, second);
    let what = d.dtype + d.kind + d.bytes;
    if what == 0 {
        return Seen::none(put::capped_place(at));
    }
    let numbers = [4, pair.i, pair.j, k, l, what, d.position, d.count];
    Seen {
        at: entries::entry(list, at, numbers),
        names: 0,
        dtypes: d.dtype,
        kinds: d.kind,
        bytes: d.bytes,
    }
}

// The component k of the first, beside the second's.
fn of_part(
    first: Row<'_, COMPONENT>,
    second: &SortedNames<'_, '_, COMPONENT>,
    pair: Pair,
    k: u64,
    list: &mut [u64],
    at: usize,
) -> Seen
    ensures { let a = first.entry in let b = second.now.names in let c = part_at a.file.now a.table.now a.at in PartSeen c (part c.name (parts_at b.file.now b.table.now b.first b.count)) pair.i pair.j k at list.old list.new result }
{
    match beside(first, second) {
        None => {
            let past = entries::entry(list, at, [5, pair.i, pair.j, k, 0, 0, 0, 0]);
            Seen {
                names: 4,
                ..Seen::none(past)
            }
        }
        Some(l) => of_shared(first, second.names.row(l), pair, k, l as u64, list, at),
    }
}

// The components of the first.
pub fn of_first(
    first: Names<'_, COMPONENT>,
    second: &SortedNames<'_, '_, COMPONENT>,
    pair: Pair,
    list: &mut [u64],
    at: usize,
) -> Seen
    ensures { let a = first.entry in let b = second.now.names in PartsSeen (parts_at a.file.now a.table.now a.first a.count) (parts_at b.file.now b.table.now b.first b.count) pair.i pair.j at list.old list.new result }
{
    let mut seen = Seen::none(at);
    for k in 0..first.count {
        let s = of_part(first.row(k), second, pair, k as u64, list, seen.at);
        seen = seen.then(s);
    }
    Seen {
        at: put::capped_place(seen.at),
        ..seen
    }
}

// The component l of the second, if the first's lack its name.
fn of_lone(
    part: Row<'_, COMPONENT>,
    first: &SortedNames<'_, '_, COMPONENT>,
    pair: Pair,
    l: u64,
    list: &mut [u64],
    at: usize,
) -> Lone
    ensures { let a = first.now.names in LoneSeen (part_at part.entry.file.now part.entry.table.now part.entry.at) (parts_at a.file.now a.table.now a.first a.count) pair.i pair.j l at list.old list.new result }
{
    match beside(part, first) {
        None => Lone {
            at: entries::entry(list, at, [6, pair.i, pair.j, 0, l, 0, 0, 0]),
            names: 4,
        },
        Some(_) => Lone {
            at: put::capped_place(at),
            names: 0,
        },
    }
}

// The components of the second.
pub fn of_second(
    second: Names<'_, COMPONENT>,
    first: &SortedNames<'_, '_, COMPONENT>,
    pair: Pair,
    list: &mut [u64],
    at: usize,
) -> Lone
    ensures { let b = second.entry in let a = first.now.names in LonesSeen (parts_at b.file.now b.table.now b.first b.count) (parts_at a.file.now a.table.now a.first a.count) pair.i pair.j at list.old list.new result }
{
    let mut past = at;
    let mut names: u64 = 0;
    for l in 0..second.count {
        let s = of_lone(second.row(l), first, pair, l as u64, list, past);
        past = s.at;
        names = either(names, s.names);
    }
    Lone {
        at: put::capped_place(past),
        names,
    }
}
