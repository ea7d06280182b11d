// Passing over the entries of an object's map.
ghost use Rattle.std.specs.Prelude.{◌≡◌, ◌≤◌, length, replicate};
ghost use Rattle.meaning.specs.Layouts.{layout_of};
ghost use Rattle.cbor.specs.Ending.{code, item_end, rest};
ghost use Rattle.fields.specs.Slots.{SlotIs};
ghost use Rattle.walk.specs.Places.{Modes};
ghost use Rattle.object.specs.Verdict.{waiting, ValueIs};
ghost use Rattle.object.specs.Laying.{ValuePut, Walked};

use components::Whole;
use numbers::ObjectFault;
use table::Place;
use walk::Entry;

// The slot of the key that begins s.
fn slot(layout: u64, s: &[u8]) -> usize
    ensures { (result ≤ 6) × SlotIs (layout_of layout).object s.now result }
{
    let Some(letters) = walk::text(&s[0..]) else {
        return 6;
    };
    let at = letters.at;
    let e = at + letters.size;
    types::object_key(layout, &s[at..e])
}

// No components that are judged where they stand: another field, components again, or layout 1.0.
fn waits(layout: u64, k: usize, seen: usize) -> bool
    ensures { result ≡ waiting layout k seen }
{
    if layout == 1 {
        return true;
    }
    if k == 4 {
        return seen != 0;
    }
    true
}

// The value that begins c, whose key has slot k. The first components (slot 4 still holds 0, which is `seen`) are judged and their rows put; with any other
// value, what was found before stays. In layout 1.0 components wait for their tensor's dtype.
fn value(
    layout: u64,
    c: &[u8],
    start: u64,
    k: usize,
    seen: usize,
    found: Result<usize, ObjectFault>,
    to: Place,
    rows: &mut [u64],
    t: &mut [u64],
) -> Whole
    requires { length rows.old ≡ 64 }
    ensures { (result.end ≡ code (item_end 29 c.now)) × (length rows.new ≡ 64) × ValueIs layout start k seen c.now found rows.old result.found rows.new × ValuePut layout start to k seen c.now t.old t.new }
{
    if waits(layout, k, seen) {
        return Whole {
            end: cbor::skip(&c[0..], numbers::IN_OBJECT),
            found: found,
        };
    }
    components::components(layout, 4, 13, &c[0..], start, to, rows, t)
}

// Entries that begin s, counted as `walk::map` says: where they end, and what was found in the components. The places of the known fields are left in p, the
// components' rows in rows and in t.
pub fn entries(
    layout: u64,
    s: &[u8],
    start: u64,
    mode: u64,
    count: u64,
    to: Place,
    p: &mut [usize],
    rows: &mut [u64],
    t: &mut [u64],
) -> Whole
    requires { (p.old ≡ replicate 8 0) × (length rows.old ≡ 64) × Modes mode count }
    ensures { (result.end ≡ code (rest mode count 29 s.now)) × Walked layout start to mode count s.now t.old p.new result.found rows.new t.new }
{
    let mut at = 0;
    let mut due = count;
    let mut found = Ok(0);
    loop {
        match walk::past_key(&s[at..], mode, due, numbers::IN_OBJECT) {
            Entry::End(e) => {
                if s.len() - at < e {
                    return Whole {
                        end: e,
                        found: found,
                    };
                }
                return Whole {
                    end: at + e,
                    found: found,
                };
            }
            Entry::Value(k) => {
                let v = at + k;
                let j = slot(layout, &s[at..]);
                let w = value(layout, &s[v..], start, j, p[4], found, to, rows, t);
                let e = w.end;
                found = w.found;
                if s.len() - v < e {
                    return Whole {
                        end: e,
                        found: found,
                    };
                }
                fields::mark(p, 5, j, s.len() - v);
                at = v + e;
                due -= 2;
            }
        }
    }
}
