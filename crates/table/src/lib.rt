// The rows of the lent table (document 01, "The table and the view"), one at a time: an object's and a component's, put where the walkers that judge them meet them.
// Every slice runs to the manifest's end, which is the file's place `end`; a place in it is the number of bytes left there, 0 for none. What would stand beyond the table's end is left out.
#![tactic(auto)]

pub mod lay;
pub mod object_row;
pub mod row;
pub mod span;
pub mod stored;

// Where an object's rows go: the manifest's end in the file, the object's number, where its own row begins in the table and where its components' begin.
#[derive(Clone, Copy)]
pub struct Place {
    pub end: usize,
    pub owner: u64,
    pub row: usize,
    pub from: usize,
}
