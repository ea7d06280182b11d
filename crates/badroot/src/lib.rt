// The root of a manifest: the first check that breaks before its objects' own, and where; and where the objects stand (document 02, Request 08).
// Every slice runs to the manifest's end, and a place is the number of bytes left there, 0 for none. If a check breaks, n is its number: the reader found it.
#![tactic(auto)]

ghost use Rattle.std.specs.Prelude.{◌≡◌, ◌≤◌, length};
ghost use Rattle.meaning.specs.Limit.{object_limit};
ghost use Rattle.meaning.specs.Layouts.{layout_of};
ghost use Rattle.badnames.specs.Keys.{NamesAt};
ghost use Rattle.spot.specs.Shown.{told};
ghost use Rattle.badroot.specs.Opening as is;

use fields::place_of;
use numbers::Refusal;
use spot::{Spot, at};
use walk::{Letters, Opening};

// The first check that breaks, and the place of the objects.
#[derive(Clone, Copy)]
pub struct Rooted {
    pub spot: Result<(), Spot>,
    pub objects: usize,
}

// The version that begins s: its kind, shape and major.
fn version(s: &[u8]) -> Result<(), Spot>
    ensures { is.VersionIs s.now (told result) }
{
    match walk::text(&s[0..]) {
        None => Err(at(Refusal::Kind, s.len())),
        Some(Letters { at: from, size: n }) => {
            let e = from + n;
            if versions::version_shape(&s[from..e]) {
                if versions::major_one(&s[from..e]) {
                    return Ok(());
                }
                return Err(at(Refusal::Major, s.len()));
            }
            Err(at(Refusal::Version, s.len()))
        }
    }
}

// The names of the objects that begin s.
fn names(s: &[u8], n: u64) -> Result<(), Spot>
    ensures { NamesAt 30 s.now object_limit n (told result) }
{
    let mut left = [0usize; 1024];
    let mut size = [0usize; 1024];
    let mut ix = [0u16; 1024];
    badnames::named(s, numbers::IN_OBJECTS, n, &mut left, &mut size, &mut ix)
}

// Attributes, objects and their names, of a root that has `whole` bytes left. Its entries begin s, and p has the places of its fields.
fn later(s: &[u8], p: &[usize], whole: usize, n: u64) -> Result<(), Spot>
    requires { 3 ≤ length p.now }
    ensures { is.LaterIs s.now p.now whole n (told result) }
{
    if !fields::attributes(s, p[1]) {
        return Err(at(Refusal::Kind, p[1]));
    }
    if p[2] == 0 {
        return Err(at(Refusal::Missing, whole));
    }
    let o = place_of(s.len(), p[2]);
    names(&s[o..], n)
}

// The version, and then the others.
fn values(s: &[u8], p: &[usize], whole: usize, n: u64) -> Result<(), Spot>
    requires { 3 ≤ length p.now }
    ensures { is.ValuesIs s.now p.now whole n (told result) }
{
    if p[0] == 0 {
        return Err(at(Refusal::Missing, whole));
    }
    let v = place_of(s.len(), p[0]);
    version(&s[v..])?;
    later(s, p, whole, n)
}

// The root that begins s.
// By its number: a caller may give any, and document 02's notes name this function.
pub fn root(layout: u64, s: &[u8], n: u64) -> Rooted
    ensures { is.RootIs (layout_of layout) s.now n (told result.spot) × is.ObjectsAt (layout_of layout) s.now result.objects }
{
    let mut p = [0usize; 6];
    match walk::map(&s[0..]) {
        None => Rooted {
            spot: Err(at(Refusal::Kind, s.len())),
            objects: 0,
        },
        Some(Opening { mode, count, size }) => {
            let k = badfields::first(layout, 0, numbers::IN_ROOT, &s[size..], mode, count, &mut p);
            let objects = p[2];
            match k {
                Err(spot) => Rooted {
                    spot: Err(spot),
                    objects: objects,
                },
                Ok(()) => Rooted {
                    spot: values(&s[size..], &p, s.len(), n),
                    objects: objects,
                },
            }
        }
    }
}

// The place of the objects of the root that begins s.
pub fn objects(layout: u64, s: &[u8]) -> usize
    ensures { is.ObjectsAt (layout_of layout) s.now result }
{
    let mut p = [0usize; 6];
    match walk::map(&s[0..]) {
        None => 0,
        Some(Opening { mode, count, size }) => {
            let _ = badfields::first(layout, 0, numbers::IN_ROOT, &s[size..], mode, count, &mut p);
            p[2]
        }
    }
}
