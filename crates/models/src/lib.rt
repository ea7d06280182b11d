// All objects of two tables: the list of what changed between their models, in n log n comparisons of names.
#![tactic(auto)]

ghost use Rattle.std.specs.Prelude.{◌≡◌, ◌*◌, ◌<◌, ◌≤◌, length};
ghost use Rattle.meaning.specs.Columns.{object_width};
ghost use Rattle.put.specs.Wrote.{Wrote};
ghost use Rattle.changes.specs.Changes.{flat, of_object, object, if_absent, entry};
ghost use Rattle.models.specs.Tables.{start_of, Starts, Table, Beside, object_of, objects_from, olds_from, news_from, changes_of};

use columns::{COMPONENT, COUNT, OBJECT};
use matching::{Names, SortedNames};
use parts::Pair;

// All objects of a file, by the file's table.
#[derive(Clone, Copy)]
pub struct Objects<'a> {
    pub file: &'a [u8],
    pub table: &'a [u64],
    pub count: usize,
    ghost read: { Table table.now count },
}

impl<'a> Objects<'a> {
    fn names(self) -> Names<'a, OBJECT>
        ensures { (result.file ≡ self.entry.file) × (result.table ≡ self.entry.table) × (result.first ≡ 0) × (result.count ≡ self.entry.count) }
    {
        Names {
            file: self.file,
            table: self.table,
            first: 0,
            count: self.count,
        }
    }

    // Where the components' rows of each begin.
    fn put_starts(self, starts: &mut [usize])
        requires { self.count ≤ length starts.old }
        ensures { Starts self.entry.table.now self.entry.count starts.new × (length starts.new ≡ length starts.old) }
    {
        let mut at = OBJECT * self.count;
        for j in 0..self.count {
            starts[j] = at;
            at += COMPONENT * self.table[OBJECT * j + COUNT] as usize;
        }
    }

    // With room for the numbers of their names and for where their components begin.
    fn model<'b>(self, numbers: &'b mut [u16], starts: &'b mut [usize]) -> Model<'a, 'b>
        requires { (self.count ≤ length numbers.old) × (self.count ≤ length starts.old) }
        ensures { (result.sorted.names.file ≡ self.entry.file) × (result.sorted.names.table ≡ self.entry.table) × (result.sorted.names.count ≡ self.entry.count) }
    {
        self.put_starts(starts);
        let sorted = self.names().sort(numbers);
        Model { sorted, starts }
    }
}

// A file's objects, their names sorted, and where the components' rows of each begin.
#[derive(Clone, Copy)]
struct Model<'a, 'b> {
    sorted: SortedNames<'a, 'b, OBJECT>,
    starts: &'b [usize],
    ghost from: { sorted.names.first ≡ 0 },
    ghost read: { Table sorted.names.table.now sorted.names.count },
    ghost begin: { Starts sorted.names.table.now sorted.names.count starts.now },
}

impl<'a, 'b> Model<'a, 'b> {
    // The number of the object of this name.
    fn find(&self, name: &[u8]) -> Option<usize>
        ensures { Beside name.now self.now.sorted.names.file.now self.now.sorted.names.table.now self.now.sorted.names.count result }
    {
        self.sorted.find(name)
    }

    // The object of number i.
    fn object(&self, i: usize) -> pairs::Object<'a>
        requires { i < self.now.sorted.names.count }
        ensures { (result.file ≡ self.now.sorted.names.file) × (result.table ≡ self.now.sorted.names.table) × (result.at ≡ object_width * i) × (result.parts ≡ start_of self.now.sorted.names.table.now self.now.sorted.names.count i) }
    {
        pairs::Object {
            file: self.sorted.names.file,
            table: self.sorted.names.table,
            at: OBJECT * i,
            parts: self.starts[i],
        }
    }
}

// The object i of the first, beside the second's.
fn of_object(
    first: &Model<'_, '_>,
    i: usize,
    second: &Model<'_, '_>,
    list: &mut [u64],
    at: usize,
) -> usize
    requires { i < first.now.sorted.names.count }
    ensures { let a = first.now.sorted.names in let b = second.now.sorted.names in let o = object_of a.file.now a.table.now a.count i in Wrote (flat (of_object i o (object o.name (objects_from b.file.now b.table.now b.count 0 b.count)))) at list.old list.new result }
{
    match second.find(first.sorted.names.name(i)) {
        None => entries::entry(list, at, [1, i as u64, 0, 0, 0, 0, 0, 0]),
        Some(j) => {
            let pair = Pair {
                i: i as u64,
                j: j as u64,
            };
            pairs::of_pair(first.object(i), second.object(j), pair, list, at)
        }
    }
}

// All of the first's objects.
fn of_first(first: &Model<'_, '_>, second: &Model<'_, '_>, list: &mut [u64], at: usize) -> usize
    ensures { let a = first.now.sorted.names in let b = second.now.sorted.names in Wrote (flat (olds_from (objects_from b.file.now b.table.now b.count 0 b.count) 0 (objects_from a.file.now a.table.now a.count 0 a.count))) at list.old list.new result }
{
    let mut past = at;
    for i in 0..first.sorted.names.count {
        past = of_object(first, i, second, list, past);
    }
    put::capped_place(past)
}

// The object j of the second if the first's lack its name.
fn of_new(
    second: &Model<'_, '_>,
    j: usize,
    first: &Model<'_, '_>,
    list: &mut [u64],
    at: usize,
) -> usize
    requires { j < second.now.sorted.names.count }
    ensures { let a = first.now.sorted.names in let b = second.now.sorted.names in Wrote (flat (if_absent (entry 2 0 j 0 0 0 0 0) (object (object_of b.file.now b.table.now b.count j).name (objects_from a.file.now a.table.now a.count 0 a.count)))) at list.old list.new result }
{
    match first.find(second.sorted.names.name(j)) {
        None => entries::entry(list, at, [2, 0, j as u64, 0, 0, 0, 0, 0]),
        Some(_) => put::capped_place(at),
    }
}

// All of the second's objects.
fn of_second(second: &Model<'_, '_>, first: &Model<'_, '_>, list: &mut [u64], at: usize) -> usize
    ensures { let a = first.now.sorted.names in let b = second.now.sorted.names in Wrote (flat (news_from (objects_from a.file.now a.table.now a.count 0 a.count) 0 (objects_from b.file.now b.table.now b.count 0 b.count))) at list.old list.new result }
{
    let mut past = at;
    for j in 0..second.sorted.names.count {
        past = of_new(second, j, first, list, past);
    }
    put::capped_place(past)
}

// The whole list, as far as it fits, and the place past it.
pub fn of_tables(first: Objects<'_>, second: Objects<'_>, list: &mut [u64]) -> usize
    ensures { let a = first.entry in let b = second.entry in Wrote (flat (changes_of (objects_from a.file.now a.table.now a.count 0 a.count) (objects_from b.file.now b.table.now b.count 0 b.count))) 0 list.old list.new result }
{
    let mut numbers = [0u16; 1024];
    let mut starts = [0usize; 1024];
    let ours = first.model(&mut numbers, &mut starts);
    let mut other_numbers = [0u16; 1024];
    let mut other_starts = [0usize; 1024];
    let theirs = second.model(&mut other_numbers, &mut other_starts);
    let past = of_first(&ours, &theirs, list, 0);
    of_second(&theirs, &ours, list, past)
}
