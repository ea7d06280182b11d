// The entry of an index in a map of names (document 02, Request 08). Every slice begins with the map and runs to the manifest's end; a place is the number of bytes left there.
#![tactic(auto)]

ghost use Rattle.std.specs.Prelude.{◌≡◌};
ghost use Rattle.entry.specs.Nth as is;
ghost use Rattle.walk.specs.Places.{Modes};

use walk::{Entry, Opening};

// Bytes left at the key and at the value; 0 and 0 for none: no Option, since all who ask go on with a place that `fields::place_of` takes, where 0 is none.
#[derive(Clone, Copy)]
pub struct Places {
    pub key: usize,
    pub value: usize,
}

fn places_of(key: usize, value: usize) -> Places
    ensures { result ≡ is.places key value }
{
    Places {
        key: key,
        value: value,
    }
}

// What is held after the entry n, whose key and value have so many bytes left.
fn chosen(index: usize, n: usize, key: usize, value: usize, held: Places) -> Places
    ensures { result ≡ is.chosen index n key value held }
{
    if n == index {
        return places_of(key, value);
    }
    held
}

// Entries that begin s, counted as `walk::map` says, whose keys and values have `left` levels left.
fn entries(s: &[u8], left: u64, mode: u64, count: u64, index: usize) -> Places
    requires { Modes mode count }
    ensures { is.Held left mode count s.now index result }
{
    let mut at = 0;
    let mut due = count;
    let mut n = 0;
    let mut held = places_of(0, 0);
    loop {
        match walk::past_key(&s[at..], mode, due, left) {
            Entry::End(_) => return held,
            Entry::Value(k) => {
                let v = at + k;
                let e = cbor::skip(&s[v..], left);
                if s.len() - v < e {
                    return held;
                }
                held = chosen(index, n, s.len() - at, s.len() - v, held);
                n += 1;
                at = v + e;
                due -= 2;
            }
        }
    }
}

// The entry `index` of the map that begins s.
pub fn entry(s: &[u8], left: u64, index: usize) -> Places
    ensures { is.EntryIs left s.now index result }
{
    match walk::map(&s[0..]) {
        None => places_of(0, 0),
        Some(Opening { mode, count, size }) => entries(&s[size..], left, mode, count, index),
    }
}
