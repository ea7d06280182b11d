// The keys of a map with known fields: the leftmost that isn't whole text, and the leftmost second copy of a known field (document 02, Request 08).
// A map's level is 0 for a root, 1 for an object, any other for a component.
#![tactic(auto)]

ghost use Rattle.std.specs.Prelude.{◌≡◌, ℕ, ◌+◌, ◌≤◌, length, replicate};
ghost use Rattle.types.specs.Known.{field_at};
ghost use Rattle.fields.specs.Slots.{SlotIs};
ghost use Rattle.keys.specs.Odd as is;
ghost use Rattle.walk.specs.Places.{Modes};

use walk::{Entry, Letters};

// Bytes left at the leftmost key that isn't whole text, and at the leftmost second copy; 0 for none, as in the slots that `fields` fills, so that no Option is plainer.
#[derive(Clone, Copy)]
pub struct Odd {
    pub key: usize,
    pub again: usize,
}

fn first(seen: usize, left: usize) -> usize
    ensures { result ≡ is.first_or seen left }
{
    if seen == 0 {
        return left;
    }
    seen
}

// The first odd key after one with so many bytes left and this slot.
fn odd_key(known: usize, slot: usize, left: usize, seen: usize) -> usize
    requires { known ≤ 7 }
    ensures { result ≡ is.after_key known slot left seen }
{
    if slot == known + 1 {
        return first(seen, left);
    }
    seen
}

// The first second copy after a key with so many bytes left, whose slot holds `held`.
fn copy(known: usize, slot: usize, held: usize, left: usize, seen: usize) -> usize
    ensures { result ≡ is.after_copy known slot held left seen }
{
    if slot < known {
        if held == 0 {
            return seen;
        }
        return first(seen, left);
    }
    seen
}

// How many places a list of fields has.
fn known(level: u64) -> usize
    ensures { (result ≤ 7) × ((l : ℕ) → length (is.slots_at l level) ≡ result) }
{
    if level == 0 {
        return 3;
    }
    if level == 1 {
        return 5;
    }
    7
}

// The place of the field that k names.
fn named(layout: u64, level: u64, k: &[u8]) -> usize
    ensures { result ≡ field_at (is.slots_at layout level) k.now }
{
    if level == 0 {
        return types::root_key(layout, k);
    }
    if level == 1 {
        return types::any_object_key(layout, k);
    }
    types::any_component_key(layout, k)
}

// The slot of the key that begins s.
fn slot(layout: u64, level: u64, s: &[u8]) -> usize
    ensures { (result ≤ length (is.slots_at layout level) + 1) × SlotIs (is.slots_at layout level) s.now result }
{
    match walk::text(&s[0..]) {
        None => known(level) + 1,
        Some(Letters { at, size: n }) => {
            let e = at + n;
            named(layout, level, &s[at..e])
        }
    }
}

// Entries that begin s, counted as `walk::map` says, whose keys and values have `left` levels left. The places of the known fields are left in p.
pub fn entries(
    layout: u64,
    level: u64,
    left: u64,
    s: &[u8],
    mode: u64,
    count: u64,
    p: &mut [usize],
) -> Odd
    requires { (p.old ≡ replicate (length (is.slots_at layout level) + 3) 0) × Modes mode count }
    ensures { is.Noted (is.slots_at layout level) left mode count s.now p.new result }
{
    let mut at = 0;
    let mut due = count;
    let mut key = 0;
    let mut again = 0;
    loop {
        match walk::past_key(&s[at..], mode, due, left) {
            Entry::End(_) => {
                return Odd {
                    key: key,
                    again: again,
                };
            }
            Entry::Value(k) => {
                let v = at + k;
                let e = cbor::skip(&s[v..], left);
                if s.len() - v < e {
                    return Odd {
                        key: key,
                        again: again,
                    };
                }
                let n = known(level);
                let j = slot(layout, level, &s[at..]);
                key = odd_key(n, j, s.len() - at, key);
                again = copy(n, j, p[j], s.len() - at, again);
                fields::mark(p, n, j, s.len() - v);
                at = v + e;
                due -= 2;
            }
        }
    }
}
