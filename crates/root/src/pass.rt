// Passing over the entries of the root's map.
ghost use Rattle.std.specs.Prelude.{◌≡◌, ◌≤◌, replicate};
ghost use Rattle.meaning.specs.Layouts.{layout_of};
ghost use Rattle.cbor.specs.Ending.{code, item_end, rest};
ghost use Rattle.fields.specs.Slots.{SlotIs};
ghost use Rattle.root.specs.Walk as is;
ghost use Rattle.walk.specs.Places.{Modes};

use numbers::FileFault;
use objects::{Found, Whole};
use walk::Entry;

// The slot of the key that begins s.
fn slot(layout: u64, s: &[u8]) -> usize
    ensures { (result ≤ 4) × SlotIs (layout_of layout).root s.now result }
{
    let Some(letters) = walk::text(&s[0..]) else {
        return 4;
    };
    let at = letters.at;
    let e = at + letters.size;
    types::root_key(layout, &s[at..e])
}

// The value that begins c, whose key has slot k. The first `objects` (their slot still holds 0, which is `seen`) are walked; with any other value, what was found
// before stays. Objects are judged, or their names alone unless `deep`.
fn value(
    layout: u64,
    c: &[u8],
    start: u64,
    deep: bool,
    k: usize,
    seen: usize,
    found: Result<Found, FileFault>,
) -> Whole
    ensures { (result.end ≡ code (item_end 31 c.now)) × is.ValueIs deep (layout_of layout) start k seen c.now found result.found }
{
    if k == 2 {
        if seen == 0 {
            return objects::objects(layout, &c[0..], start, deep);
        }
    }
    Whole {
        end: cbor::skip(&c[0..], numbers::IN_ROOT),
        found: found,
    }
}

// Entries that begin s, counted as `walk::map` says: where they end, and what was found among the objects. The places of the known fields are left in p.
pub fn entries(
    layout: u64,
    s: &[u8],
    start: u64,
    deep: bool,
    mode: u64,
    count: u64,
    p: &mut [usize],
) -> Whole
    requires { (p.old ≡ replicate 6 0) × Modes mode count }
    ensures { (result.end ≡ code (rest mode count 31 s.now)) × is.Walked deep (layout_of layout) start mode count s.now p.new result.found }
{
    let mut at = 0;
    let mut due = count;
    let mut found = Ok(Found {
        objects: 0,
        components: 0,
    });
    loop {
        match walk::past_key(&s[at..], mode, due, numbers::IN_ROOT) {
            Entry::End(e) => {
                if s.len() - at < e {
                    return Whole {
                        end: e,
                        found: found,
                    };
                }
                return Whole {
                    end: at + e,
                    found: found,
                };
            }
            Entry::Value(k) => {
                let v = at + k;
                let j = slot(layout, &s[at..]);
                let w = value(layout, &s[v..], start, deep, j, p[2], found);
                let e = w.end;
                found = w.found;
                if s.len() - v < e {
                    return Whole {
                        end: e,
                        found: found,
                    };
                }
                fields::mark(p, 3, j, s.len() - v);
                at = v + e;
                due -= 2;
            }
        }
    }
}
