// What stands at a place of the manifest, for the tree that is read there. Every slice begins with the item and runs to the manifest's end; a place is kept as the
// number of bytes left there, and 0 is absence.
#![tactic(auto)]

ghost use Rattle.std.specs.Prelude.{◌-◌, ◌<◌, ◌≤◌};
ghost use Rattle.walk.specs.Places as places;

// Whole text: where its letters begin, and how many there are.
#[derive(Clone, Copy)]
pub struct Letters {
    pub at: usize,
    pub size: usize,
}

// A map or an array: how its parts are counted, how many are due, and where they begin.
#[derive(Clone, Copy)]
pub struct Opening {
    pub mode: u64,
    pub count: u64,
    pub size: usize,
}

// The whole text that begins s, with any head.
fn any_text(s: &[u8]) -> Option<Letters>
    ensures { places.Inside s.now result × places.TextIs s.now result }
{
    if s.len() == 0 {
        return None;
    }
    let b = s[0];
    if b < 96 {
        return None;
    }
    if 124 <= b {
        return None;
    }
    let h = cbor::head(&s[0..]);
    if s.len() < h.size {
        return None;
    }
    if ((s.len() - h.size) as u64) < h.value {
        return None;
    }
    Some(Letters {
        at: h.size,
        size: h.value as usize,
    })
}

// The whole text that begins s. Short text is seen at once; two calls of `any_text` keep it apart, so that this is small enough to be inlined.
pub fn text(s: &[u8]) -> Option<Letters>
    ensures { places.Inside s.now result × places.TextIs s.now result }
{
    if s.len() == 0 {
        return any_text(&s[0..]);
    }
    let b = s[0];
    if 96 <= b {
        if b < 120 {
            let n = (b - 96) as usize;
            if n < s.len() {
                return Some(Letters { at: 1, size: n });
            }
        }
    }
    any_text(&s[0..])
}

// The unsigned integer that begins s.
pub fn number(s: &[u8]) -> Option<u64>
    ensures { places.NumberIs s.now result }
{
    if s.len() == 0 {
        return None;
    }
    if 28 <= s[0] {
        return None;
    }
    let h = cbor::head(&s[0..]);
    Some(h.value)
}

// Is null at the start of s?
pub fn null(s: &[u8]) -> bool
    ensures { places.NullIs s.now result }
{
    if s.len() == 0 {
        return false;
    }
    s[0] == 246
}

// The map that begins s, with any head.
fn any_map(s: &[u8]) -> Option<Opening>
    ensures { places.MapIs s.now result }
{
    if s.len() == 0 {
        return None;
    }
    let b = s[0];
    if b < 160 {
        return None;
    }
    if 192 <= b {
        return None;
    }
    let h = cbor::head(&s[0..]);
    if s.len() < h.size {
        return None;
    }
    if b == 191 {
        return Some(Opening {
            mode: 2,
            count: h.value,
            size: h.size,
        });
    }
    Some(Opening {
        mode: 0,
        count: cbor::doubled(h.value),
        size: h.size,
    })
}

// The map that begins s. A short one is seen at once, as in `text`.
pub fn map(s: &[u8]) -> Option<Opening>
    ensures { places.MapIs s.now result }
{
    if s.len() == 0 {
        return any_map(&s[0..]);
    }
    let b = s[0];
    if 160 <= b {
        if b < 184 {
            return Some(Opening {
                mode: 0,
                count: cbor::doubled((b - 160) as u64),
                size: 1,
            });
        }
    }
    any_map(&s[0..])
}

// The array that begins s.
pub fn list(s: &[u8]) -> Option<Opening>
    ensures { places.ListIs s.now result }
{
    if s.len() == 0 {
        return None;
    }
    let b = s[0];
    if b < 128 {
        return None;
    }
    if 160 <= b {
        return None;
    }
    let h = cbor::head(&s[0..]);
    if s.len() < h.size {
        return None;
    }
    if b == 159 {
        return Some(Opening {
            mode: 1,
            count: h.value,
            size: h.size,
        });
    }
    Some(Opening {
        mode: 0,
        count: h.value,
        size: h.size,
    })
}

// Is one more item of an array due from s on, after `done` of `count` (mode 0), or up to the break?
pub fn more(s: &[u8], mode: u64, count: u64, done: usize) -> bool
    ensures { places.MoreIs mode (count - done) s.now result }
{
    if mode == 0 {
        return (done as u64) < count;
    }
    if s.len() == 0 {
        return false;
    }
    if s[0] == 255 {
        return false;
    }
    true
}

// A turn over a map's entries: how they end, or where the value of the next begins.
#[derive(Clone, Copy)]
pub enum Entry {
    End(usize),
    Value(usize),
}

// The entries of a map from s on, of which `due` items are left: past the next key, where `left` levels are left.
pub fn past_key(s: &[u8], mode: u64, due: u64, left: u64) -> Entry
    requires { 1 ≤ mode → 0 < due }
    ensures { places.EntryIs left mode due s.now result }
{
    if due == 0 {
        return Entry::End(0);
    }
    if s.len() == 0 {
        return Entry::End(cbor::MALFORMED);
    }
    if s[0] == 255 {
        return Entry::End(cbor::broken(mode, due, 0));
    }
    let k = cbor::skip(&s[0..], left);
    if s.len() < k {
        return Entry::End(k);
    }
    Entry::Value(k)
}
