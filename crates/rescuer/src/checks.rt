// A file rescued (document 02, Req 14): every check that comes before ROOM. What is kept is measured with one object's rows at a time, without the lent rows.
ghost use Rattle.sieve.specs.Sieved.{Bounded};
ghost use Rattle.rescuer.specs.Checked.{Measured, CheckedIs};

use crate::opening;
use numbers::{FileFault, Refusal};
use sieve::Sieve;
use sizes::piece;

// Where the manifest begins and ends, where the map of its objects begins, and place and length of the root's attributes; how many objects are kept and dropped, how many components are kept; and how long
// the rescued file is.
#[derive(Clone, Copy)]
pub struct Verdict {
    pub start: usize,
    pub end: usize,
    pub first: usize,
    pub place: u64,
    pub size: u64,
    pub kept: usize,
    pub dropped: usize,
    pub components: usize,
    pub long: u64,
}

// What is kept and dropped of the objects whose map begins s.
fn measured(layout: u64, s: &[u8], start: u64, end: usize) -> Sieve
    ensures sums { Measured layout s.now start end result }
    ensures small { Bounded result }
{
    let mut window = [0u64; 208];
    let mut none = [0u64; 1];
    sieve::sift(
        layout,
        &s[0..],
        start,
        end,
        false,
        0,
        &mut window,
        &mut none,
    )
}

pub fn checked(layout: u64, file: &[u8]) -> Result<Verdict, FileFault>
    ensures { CheckedIs layout file.now result }
{
    let found = opening::file(layout, file)?;
    let sum = measured(
        layout,
        &file[found.first..found.end],
        found.start as u64,
        found.end,
    );
    if numbers::END_MOST < sum.place {
        return Err(FileFault::from(Refusal::Count));
    }
    let head = piece::head(sum.kept as u64);
    let m = piece::capped(23 + piece::attributes(found.place, found.size) + head + sum.total);
    if numbers::MANIFEST_MOST < m {
        return Err(FileFault::from(Refusal::Big));
    }
    Ok(Verdict {
        start: found.start,
        end: found.end,
        first: found.first,
        place: found.place,
        size: found.size,
        kept: sum.kept,
        dropped: sum.dropped,
        components: sum.components,
        long: sum.place + m + 16,
    })
}
