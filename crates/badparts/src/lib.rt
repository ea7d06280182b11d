// The components of an object, then the rules of its format: the first check that breaks, where, and in which component (document 02, Request 08). The reader's number and index
// say where to look. Every slice runs to the manifest's end; a place is the number of bytes left there, 0 for none.
#![tactic(auto)]

ghost use Rattle.std.specs.Prelude.{◌≡◌};
ghost use Rattle.badnames.specs.Keys.{NamesAt};
ghost use Rattle.spot.specs.Shown as shown;
ghost use Rattle.badparts.specs.Parts as is;

use fields::place_of;
use numbers::Refusal;
use spot::Spot;
use table::Place;

const RANK: u64 = Refusal::Rank as u64;

const ROLE: u64 = Refusal::Role as u64;

const LENGTH: u64 = Refusal::Length as u64;

// A spot, and the bytes left at the name of the component that it belongs to, 0 for none.
#[derive(Clone, Copy)]
pub struct Owned {
    pub spot: Result<(), Spot>,
    pub key: usize,
}

pub fn told(spot: Result<(), Spot>, key: usize) -> Owned
    ensures { is.owning result ≡ is.owned (shown.told spot) key }
{
    Owned { spot, key }
}

// The names of the map that begins s; if a check of theirs breaks, n is its number.
fn names(s: &[u8], n: u64) -> Result<(), Spot>
    ensures { NamesAt 28 s.now 16 n (shown.told result) }
{
    let mut left = [0usize; 16];
    let mut size = [0usize; 16];
    let mut ix = [0u16; 16];
    badnames::named(s, numbers::IN_COMPONENTS, n, &mut left, &mut size, &mut ix)
}

// What breaks in component c of the map that begins s, whose object has the code `code`.
fn inside(layout: u64, code: u64, s: &[u8], start: u64, c: usize) -> Owned
    ensures { is.InsideIs layout code s.now start c (is.owning result) }
{
    let e = entry::entry(s, numbers::IN_COMPONENTS, c);
    let v = place_of(s.len(), e.value);
    told(badcomponent::component(layout, code, &s[v..], start), e.key)
}

// ROLE, at component c of the map that begins s.
fn at_value(s: &[u8], c: usize) -> Owned
    ensures { is.ValueIs s.now c (is.owning result) }
{
    let e = entry::entry(s, numbers::IN_COMPONENTS, c);
    told(Err(spot::at(Refusal::Role, e.value)), e.key)
}

// LENGTH, at that of component c of the map that begins s.
fn at_length(layout: u64, s: &[u8], c: usize) -> Owned
    ensures { is.LengthIs layout s.now c (is.owning result) }
{
    let e = entry::entry(s, numbers::IN_COMPONENTS, c);
    let v = place_of(s.len(), e.value);
    told(
        Err(spot::at(Refusal::Length, badcomponent::length_at(layout, &s[v..]))),
        e.key,
    )
}

// Is an index role of the components that begin s to blame, where these are sound?
fn to_blame(layout: u64, format: u64, code: u64, s: &[u8], start: u64) -> bool
    ensures { is.BlameIs layout format code s.now start result }
{
    let mut rows = [0u64; 64];
    let mut none = [0u64; 0];
    let to = Place {
        end: 0,
        owner: 0,
        row: 0,
        from: 0,
    };
    let w = components::components(layout, format, code, s, start, to, &mut rows, &mut none);
    let found = w.found;
    match found {
        Err(_) => false,
        Ok(m) => {
            if 16 < m {
                return false;
            }
            let e = 4 * m;
            badrules::blames(format, &rows[0..e])
        }
    }
}

// ROLE: the component of the index role that is to blame, else the map that begins s.
fn role(layout: u64, format: u64, code: u64, s: &[u8], start: u64, c: usize) -> Owned
    ensures { is.RoleIs layout format code s.now start c (is.owning result) }
{
    if to_blame(layout, format, code, s, start) {
        return at_value(s, c);
    }
    told(Err(spot::at(Refusal::Role, s.len())), 0)
}

// Of an object that is refused with number n for component c, its values up to its attributes sound: its shape has `a` bytes of s left, its components b.
// By its number: a caller may give any, and document 02's notes name this function.
pub fn within(
    layout: u64,
    format: u64,
    code: u64,
    s: &[u8],
    start: u64,
    a: usize,
    b: usize,
    n: u64,
    c: usize,
) -> Owned
    ensures { is.WithinIs layout format code s.now start a b n c (is.owning result) }
{
    let from = place_of(s.len(), b);
    match names(&s[from..], n) {
        Err(spot) => told(Err(spot), 0),
        Ok(()) => {
            if n == RANK {
                return told(Err(spot::at(Refusal::Rank, a)), 0);
            }
            if n == ROLE {
                return role(layout, format, code, &s[from..], start, c);
            }
            if n == LENGTH {
                return at_length(layout, &s[from..], c);
            }
            inside(layout, code, &s[from..], start, c)
        }
    }
}
