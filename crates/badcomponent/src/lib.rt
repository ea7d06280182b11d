// The first check of document 01's order that breaks in a component, and where; and where its length stands (document 02, Request 08). Every slice runs to the
// manifest's end; a place is the number of bytes left there, 0 for none.
#![tactic(auto)]

ghost use Rattle.std.specs.Prelude.{◌≡◌, length};
ghost use Rattle.meaning.specs.Layouts.{layout_of};
ghost use Rattle.component.specs.Value.{given};
ghost use Rattle.spot.specs.Shown.{told};
ghost use Rattle.badcomponent.specs.Steps as is;

use component::place::{digested, dtype_at, encoded, number_at, typed, unpacked};
use numbers::Refusal;
use spot::{Spot, at};
use walk::Opening;

// A component's map, for `keys::entries`.
const COMPONENT: u64 = 2;

// Where the bytes lie, by the offset o, which has `left` bytes left, and the length l.
fn blob(start: u64, o: u64, l: u64, left: usize) -> Result<(), Spot>
    ensures { is.BlobIs start o l left (told result) }
{
    match lengths::place(start, o, l) {
        Ok(()) => Ok(()),
        Err(refusal) => Err(at(refusal, left)),
    }
}

// Uncompressed length, encoding, digest; then where the bytes lie.
fn extras(s: &[u8], start: u64, p: &[usize], o: u64, l: u64) -> Result<(), Spot>
    requires { length p.now ≡ 10 }
    ensures { is.ExtrasAre s.now start p.now o l (told result) }
{
    match unpacked(s, p[4]) {
        Err(refusal) => Err(at(refusal, p[4])),
        Ok(()) => match encoded(s, p[5]) {
            Err(refusal) => Err(at(refusal, p[5])),
            Ok(()) => match digested(s, p[6]) {
                Err(refusal) => Err(at(refusal, p[6])),
                Ok(_) => blob(start, o, l, p[2]),
            },
        },
    }
}

// Offset and length; then the others.
fn extent(s: &[u8], start: u64, p: &[usize]) -> Result<(), Spot>
    requires { length p.now ≡ 10 }
    ensures { is.ExtentIs s.now start p.now (told result) }
{
    match number_at(s, p[2]) {
        None => Err(at(Refusal::Kind, p[2])),
        Some(o) => match number_at(s, p[3]) {
            None => Err(at(Refusal::Kind, p[3])),
            Some(l) => extras(s, start, p, o, l),
        },
    }
}

// The place of a dtype, or else of the component.
fn either(left: usize, whole: usize) -> usize
    ensures { result ≡ is.either_of left whole }
{
    if left == 0 {
        return whole;
    }
    left
}

// The values of a component that has `whole` bytes left, none that is needed missing.
fn values(
    layout: u64,
    above: u64,
    s: &[u8],
    start: u64,
    p: &[usize],
    whole: usize,
) -> Result<(), Spot>
    requires { length p.now ≡ 10 }
    ensures { is.ValuesAre (layout_of layout) (given above) s.now start p.now whole (told result) }
{
    match dtype_at(layout, s, p[0], above) {
        Err(refusal) => Err(at(refusal, either(p[0], whole))),
        Ok(code) => match typed(s, p[1], code) {
            Err(refusal) => Err(at(refusal, p[1])),
            Ok(_) => extent(s, start, p),
        },
    }
}

// Is a needed field missing?
fn lacks(layout: u64, p: &[usize]) -> bool
    requires { length p.now ≡ 10 }
    ensures { result ≡ is.lacks layout p.now }
{
    if p[2] == 0 {
        return true;
    }
    if p[3] == 0 {
        return true;
    }
    if layout == 1 {
        return false;
    }
    p[0] == 0
}

// The component that begins c, of a file whose manifest begins at `start`. `above` is the code that its object gives it, 13 or more for none.
pub fn component(layout: u64, above: u64, c: &[u8], start: u64) -> Result<(), Spot>
    ensures { is.ComponentIs (layout_of layout) (given above) c.now start (told result) }
{
    let mut p = [0usize; 10];
    match walk::map(&c[0..]) {
        None => Err(at(Refusal::Kind, c.len())),
        Some(Opening { mode, count, size }) => {
            badfields::first(
                layout,
                COMPONENT,
                numbers::IN_COMPONENT,
                &c[size..],
                mode,
                count,
                &mut p,
            )?;
            if lacks(layout, &p) {
                return Err(at(Refusal::Missing, c.len()));
            }
            values(layout, above, &c[size..], start, &p, c.len())
        }
    }
}

// Bytes left at the length of the component that begins c; at the component, where it has none.
pub fn length_at(layout: u64, c: &[u8]) -> usize
    ensures { is.LengthIs (layout_of layout) c.now result }
{
    let mut p = [0usize; 10];
    match walk::map(&c[0..]) {
        None => c.len(),
        Some(Opening { mode, count, size }) => {
            let _ = badfields::first(
                layout,
                COMPONENT,
                numbers::IN_COMPONENT,
                &c[size..],
                mode,
                count,
                &mut p,
            );
            either(p[3], c.len())
        }
    }
}
