// The first check that breaks in a map of names, and where (document 02, Request 08): its kind, its keys, UTF-8, count, repeats.
// The number of the check that breaks is known, so the names' letters are read for UTF-8 only where it is TEXT, and for repeats only where it is TWICE.
#![tactic(auto)]

ghost use Rattle.std.specs.Prelude.{◌≡◌, cond, false, ◌≤◌, ◌<◌, length};
ghost use Rattle.spot.specs.Shown.{told};
ghost use Rattle.badnames.specs.Keys as is;
ghost use Rattle.walk.specs.Places.{Modes};

use naming::Tally;
use numbers::Refusal;
use spot::{Spot, at};
use walk::{Entry, Letters, Opening};

const TEXT: u64 = Refusal::Text as u64;

const TWICE: u64 = Refusal::Twice as u64;

// The tally of a map's keys; the bytes left at the first that isn't whole text, and at the first that isn't UTF-8, where the tally says that there is one.
#[derive(Clone, Copy)]
pub struct Keys {
    pub tally: Tally,
    pub key: usize,
    pub text: usize,
}

// What is held, once one is found; until then the key at hand, which has `left` bytes left.
fn kept(found: bool, held: usize, left: usize) -> usize
    ensures { result ≡ cond found held left }
{
    if found {
        return held;
    }
    left
}

// Notes the key that begins s as `naming::note` does, but doesn't read its letters, and finds none that isn't UTF-8.
fn unread(s: &[u8], t: Tally, left: &mut [usize], size: &mut [usize]) -> Tally
    requires { t.count < 9223372036854775808 }
    ensures { is.NotedIf false s.now t left.old size.old result left.new size.new }
{
    match walk::text(&s[0..]) {
        None => {
            naming::put(left, t.count, 0);
            naming::put(size, t.count, 0);
            Tally {
                count: t.count + 1,
                odd: true,
                bad: t.bad,
            }
        }
        Some(Letters { at, size: n }) => {
            naming::put(left, t.count, s.len() - at);
            naming::put(size, t.count, n);
            Tally {
                count: t.count + 1,
                odd: t.odd,
                bad: t.bad,
            }
        }
    }
}

// Notes the key that begins s, after those that t tells of. UTF-8 may be tested.
fn noted(s: &[u8], t: Tally, tested: bool, left: &mut [usize], size: &mut [usize]) -> Tally
    requires { t.count < 9223372036854775808 }
    ensures { is.NotedIf tested s.now t left.old size.old result left.new size.new }
{
    if tested {
        return naming::note(s, t, left, size);
    }
    unread(s, t, left, size)
}

// Entries that begin s, counted as `walk::map` says, whose keys and values have `levels` levels left. Their names are noted in left and size.
fn entries(
    s: &[u8],
    levels: u64,
    mode: u64,
    count: u64,
    tested: bool,
    left: &mut [usize],
    size: &mut [usize],
) -> Keys
    requires { (length size.old ≡ length left.old) × Modes mode count }
    ensures { (length left.new ≡ length left.old) × is.Walked tested levels mode count s.now left.new size.new result }
{
    let mut at = 0;
    let mut due = count;
    let mut key = 0;
    let mut text = 0;
    let mut tally = Tally {
        count: 0,
        odd: false,
        bad: false,
    };
    loop {
        match walk::past_key(&s[at..], mode, due, levels) {
            Entry::End(_) => {
                return Keys {
                    tally: tally,
                    key: key,
                    text: text,
                };
            }
            Entry::Value(k) => {
                let v = at + k;
                let e = cbor::skip(&s[v..], levels);
                if s.len() - v < e {
                    return Keys {
                        tally: tally,
                        key: key,
                        text: text,
                    };
                }
                key = kept(tally.odd, key, s.len() - at);
                text = kept(tally.bad, text, s.len() - at);
                tally = noted(&s[at..], tally, tested, left, size);
                at = v + e;
                due -= 2;
            }
        }
    }
}

// The second copy of a name, of n that are noted, in the map that begins s and has its entries `from` bytes on; none where all differ.
fn repeated(
    s: &[u8],
    from: usize,
    levels: u64,
    n: usize,
    left: &[usize],
    size: &[usize],
    ix: &mut [u16],
) -> Result<(), Spot>
    requires { (from ≤ length s.now) × (n ≤ length ix.old) × (n ≤ 65536) }
    ensures { is.Repeated s.now from levels n left.now size.now (told result) }
{
    let k = names::leading(&s[from..], left, size, n, ix);
    if k == n {
        return Ok(());
    }
    let e = entry::entry(s, levels, k);
    Err(at(Refusal::Twice, e.key))
}

// Keys, UTF-8, count, repeats, of the map that begins s and has its entries `from` bytes on.
fn judged(
    s: &[u8],
    from: usize,
    levels: u64,
    n: u64,
    keys: Keys,
    left: &[usize],
    size: &[usize],
    ix: &mut [u16],
) -> Result<(), Spot>
    requires { (from ≤ length s.now) × (length left.now ≤ length ix.old) × (length left.now ≤ 65536) }
    ensures { is.Judged s.now from levels n keys left.now size.now (told result) }
{
    if keys.tally.odd {
        return Err(at(Refusal::Key, keys.key));
    }
    if keys.tally.bad {
        return Err(at(Refusal::Text, keys.text));
    }
    let count = keys.tally.count;
    if left.len() < count {
        return Err(at(Refusal::Count, s.len()));
    }
    if n != TWICE {
        return Ok(());
    }
    repeated(s, from, levels, count, left, size, ix)
}

// The map that begins s, whose keys and values have `levels` levels left. It may have as many names as left, size and ix have room for.
// If a check breaks, n is its number.
// By its number: a caller may give any, and document 02's notes name this function.
pub fn named(
    s: &[u8],
    levels: u64,
    n: u64,
    left: &mut [usize],
    size: &mut [usize],
    ix: &mut [u16],
) -> Result<(), Spot>
    requires { (length size.old ≡ length left.old) × (length left.old ≤ length ix.old) × (length left.old ≤ 65536) }
    ensures { is.NamesAt levels s.now (length left.old) n (told result) }
{
    let tested = n == TEXT;
    match walk::map(&s[0..]) {
        None => Err(at(Refusal::Kind, s.len())),
        Some(
            Opening {
                mode,
                count,
                size: from,
            },
        ) => {
            let keys = entries(&s[from..], levels, mode, count, tested, left, size);
            judged(s, from, levels, n, keys, left, size, ix)
        }
    }
}
