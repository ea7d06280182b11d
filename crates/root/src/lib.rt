// The root of a manifest: one walk passes over its map, its objects among them, and notes where its fields stand; then the fields are judged from these places.
// Every slice runs to the manifest's end, and a place is the number of bytes left there, 0 for none.
#![tactic(auto)]

mod judge;
mod pass;

ghost use Rattle.std.specs.Prelude.{◌≡◌, false};
ghost use Rattle.meaning.specs.Layouts.{layout_of};
ghost use Rattle.cbor.specs.Ending.{code, item_end};
ghost use Rattle.root.specs.Verdict.{WholeIs, RootIs, ObjectsAt};

use judge::verdict;
use numbers::{FileFault, Refusal};
use pass::entries;
use walk::Opening;

// How many objects and components there are, and the place of the attributes, 0 for none.
#[derive(Clone, Copy)]
pub struct Judged {
    pub objects: usize,
    pub components: usize,
    pub attributes: usize,
}

// Where a value ends, as `cbor::skip` answers it, what it says if it is well-formed, and the place of its objects, 0 for none.
#[derive(Clone, Copy)]
pub struct Whole {
    pub end: usize,
    pub verdict: Result<Judged, FileFault>,
    pub objects: usize,
}

// The root that begins s, of a file whose manifest begins at `start`, with its objects' names alone unless `deep`.
fn judged_root(layout: u64, s: &[u8], start: u64, deep: bool) -> Whole
    ensures { (result.end ≡ code (item_end 32 s.now)) × WholeIs deep (layout_of layout) s.now start result.verdict × ObjectsAt (layout_of layout) s.now result.objects }
{
    let mut p = [0usize; 6];
    match walk::map(&s[0..]) {
        None => Whole {
            end: cbor::skip(&s[0..], numbers::AT_ROOT),
            verdict: Err(FileFault::from(Refusal::Kind)),
            objects: 0,
        },
        Some(Opening { mode, count, size }) => {
            let w = entries(layout, &s[size..], start, deep, mode, count, &mut p);
            let e = w.end;
            let found = w.found;
            let v = verdict(&s[size..], &p, found);
            let left = p[2];
            if s.len() - size < e {
                return Whole {
                    end: e,
                    verdict: v,
                    objects: left,
                };
            }
            Whole {
                end: size + e,
                verdict: v,
                objects: left,
            }
        }
    }
}

// The root that begins s, of a file whose manifest begins at `start`.
pub fn root(layout: u64, s: &[u8], start: u64) -> Whole
    ensures { (result.end ≡ code (item_end 32 s.now)) × RootIs (layout_of layout) s.now start result.verdict × ObjectsAt (layout_of layout) s.now result.objects }
{
    judged_root(layout, &s[0..], start, true)
}

// The root that begins s, judged up to its objects' names: what stands in them is passed over, so that no components are counted.
pub fn opened(layout: u64, s: &[u8]) -> Whole
    ensures { (result.end ≡ code (item_end 32 s.now)) × WholeIs false (layout_of layout) s.now 0 result.verdict × ObjectsAt (layout_of layout) s.now result.objects }
{
    judged_root(layout, &s[0..], 0, false)
}
