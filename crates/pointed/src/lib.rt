// The explanation of a check that breaks in a manifest's tree (document 02, Request 08): its numbers, the names that it belongs to, and the bytes at fault.
#![tactic(auto)]

ghost use Rattle.pointed.specs.Pointed as is;

use fields::place_of;
use sentence::Explanation;
use table::span::text_span_at;

// The check with the number n, for the object o and the component c of the manifest m, which ends at `end`: it looks where `left` bytes are left. The names stand
// where `object` and `role` bytes are left, 0 for none.
// By its number: a caller may give any, and document 02's notes name this function.
pub fn pointed(
    m: &[u8],
    end: usize,
    n: u64,
    o: u64,
    c: u64,
    object: usize,
    role: usize,
    left: usize,
) -> Explanation
    ensures { is.Pointed m.now end n o c object role left result }
{
    let name = text_span_at(&m[0..], object, end);
    let part = text_span_at(&m[0..], role, end);
    let size = cursor::size(&m[0..], left);
    let place = place_of(end, left);
    Explanation {
        number: n,
        object: o,
        component: c,
        objectname: name.place,
        objectsize: name.size,
        componentname: part.place,
        componentsize: part.size,
        place: place as u64,
        length: size as u64,
        room: 0,
    }
}
