// Why a file is refused before anything is said of its tree (document 02, Request 08): its frame, 1 to 5, or the reading of its manifest, 6 and 7.
#![tactic(auto)]

ghost use Rattle.std.specs.Prelude.{◌≡◌};
ghost use Rattle.unread.specs.Unread as is;

use fields::place_of;
use numbers::Refusal;
use sentence::Explanation;

const SHORT: u64 = Refusal::Short as u64;

const HEADER: u64 = Refusal::Header as u64;

const FOOTER: u64 = Refusal::Footer as u64;

// A refusal that belongs to no object, by its number, and the bytes at fault.
pub fn alone(number: u64, place: u64, length: u64) -> Explanation
    ensures { is.explanation result ≡ is.lone number place length }
{
    Explanation {
        number: number,
        object: 0,
        component: 0,
        objectname: 0,
        objectsize: 0,
        componentname: 0,
        componentsize: 0,
        place: place,
        length: length,
        room: 0,
    }
}

// A file that is refused by its frame with the number n: SHORT, the file; HEADER, the first eight bytes; FOOTER, the last eight; BIG and FIT, the size's eight.
// By its number: a caller may give any, and document 02's notes name this function.
pub fn framed(layout: u64, n: u64, file: &[u8]) -> Explanation
    ensures { is.Unframed layout file.now n result }
{
    let length = file.len();
    if n == SHORT {
        return alone(n, 0, length as u64);
    }
    if n == HEADER {
        return alone(n, 0, 8);
    }
    if n == FOOTER {
        return alone(n, place_of(length, 8) as u64, 8);
    }
    let back = frame::size_back(layout);
    alone(n, place_of(length, back) as u64, 8)
}

// Bytes left where the reading of the manifest m stops, if it does; 0 where they ended early.
fn left_at(m: &[u8]) -> usize
    ensures { is.StopsAt m.now result }
{
    match stop::pass(&m[0..], numbers::AT_ROOT) {
        Ok(n) => m.len() - n,
        Err(left) => left,
    }
}

// A manifest m that ends at `end` and is refused with the number n as it is read.
// By its number: a caller may give any, and document 02's notes name this function.
pub fn unread(n: u64, m: &[u8], end: usize) -> Explanation
    ensures { is.Unread m.now end n result }
{
    let left = left_at(&m[0..]);
    if left == 0 {
        return alone(n, end as u64, 0);
    }
    alone(n, place_of(end, left) as u64, 1)
}
