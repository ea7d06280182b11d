// A component's value: one walk passes over its map and notes where its fields stand, then the fields are judged from these places.
// Every slice runs to the manifest's end, and a place is the number of bytes left there, 0 for none.
#![tactic(auto)]

mod judge;
mod pass;
pub mod place;
pub mod value;

ghost use Rattle.std.specs.Prelude.{◌≡◌};
ghost use Rattle.cbor.specs.Ending.{code, item_end};
ghost use Rattle.meaning.specs.Layouts.{layout_of};
ghost use Rattle.component.specs.Value.{given};
ghost use Rattle.component.specs.Verdict.{ComponentIs};

use judge::verdict;
use numbers::Refusal;
use pass::entries;
use walk::Opening;

// The dtype's code, the place of the type, offset, length and the place of the digest.
#[derive(Clone, Copy)]
pub struct Judged {
    pub code: u64,
    pub kind: usize,
    pub offset: u64,
    pub length: u64,
    pub digest: usize,
}

// Where a value ends, as `cbor::skip` answers it, and what it says if it is well-formed.
#[derive(Clone, Copy)]
pub struct Whole {
    pub end: usize,
    pub verdict: Result<Judged, Refusal>,
}

// The component that begins c, at depth 5, of a file whose manifest begins at `start`. `above` is the code that its object gives it, 13 or more for none.
pub fn component(layout: u64, above: u64, c: &[u8], start: u64) -> Whole
    ensures { (result.end ≡ code (item_end 28 c.now)) × ComponentIs (layout_of layout) (given above) c.now start result.verdict }
{
    let mut p = [0usize; 10];
    match walk::map(&c[0..]) {
        None => Whole {
            end: cbor::skip(&c[0..], numbers::IN_COMPONENTS),
            verdict: Err(Refusal::Kind),
        },
        Some(Opening { mode, count, size }) => {
            let e = entries(layout, &c[size..], mode, count, &mut p);
            let v = verdict(layout, above, &c[size..], start, &p);
            if c.len() - size < e {
                return Whole { end: e, verdict: v };
            }
            Whole {
                end: size + e,
                verdict: v,
            }
        }
    }
}
