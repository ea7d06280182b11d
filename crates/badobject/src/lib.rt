// The first check that breaks in an object that the reader refused, where, and in which component (document 02, Request 08). Every slice runs to the manifest's end; a place
// is the number of bytes left there, 0 for none.
#![tactic(auto)]

ghost use Rattle.std.specs.Prelude.{◌≡◌, length};
ghost use Rattle.badparts.specs.Parts.{owning};
ghost use Rattle.badobject.specs.Owner as is;

use badparts::{Owned, told};
use badvalues::Valued;
use numbers::Refusal;
use walk::Opening;

// An object's map, for `keys::entries`.
const OBJECT: u64 = 1;

// Is a needed field missing?
fn lacks(layout: u64, p: &[usize]) -> bool
    requires { length p.now ≡ 8 }
    ensures { result ≡ is.lacks layout p.now }
{
    if p[1] == 0 {
        return true;
    }
    if p[2] == 0 {
        return true;
    }
    if p[4] == 0 {
        return true;
    }
    if layout == 1 {
        return p[0] == 0;
    }
    false
}

// The values, then the components and the rules, none that is needed missing.
fn values(layout: u64, s: &[u8], start: u64, p: &[usize], n: u64, c: usize) -> Owned
    requires { length p.now ≡ 8 }
    ensures { is.ValuesAre layout s.now start p.now n c (owning result) }
{
    match badvalues::values(layout, s, p) {
        Err(odd) => told(Err(odd), 0),
        Ok(Valued { code, format }) => badparts::within(
            layout, format, code, s, start, p[1], p[4], n, c,
        ),
    }
}

// The object that begins s, of a file whose manifest begins at `start`, refused with number n for component c.
// By its number: a caller may give any, and document 02's notes name this function.
pub fn object(layout: u64, s: &[u8], start: u64, n: u64, c: usize) -> Owned
    ensures { is.ObjectIs layout s.now start n c (owning result) }
{
    let mut p = [0usize; 8];
    match walk::map(&s[0..]) {
        None => told(Err(spot::at(Refusal::Kind, s.len())), 0),
        Some(Opening { mode, count, size }) => {
            let known = badfields::first(
                layout,
                OBJECT,
                numbers::IN_OBJECT,
                &s[size..],
                mode,
                count,
                &mut p,
            );
            match known {
                Err(spot) => told(Err(spot), 0),
                Ok(()) => {
                    if lacks(layout, &p) {
                        return told(Err(spot::at(Refusal::Missing, s.len())), 0);
                    }
                    values(layout, &s[size..], start, &p, n, c)
                }
            }
        }
    }
}
