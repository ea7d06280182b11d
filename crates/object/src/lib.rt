// An object's value: one walk passes over its map, notes where its fields stand, judges its components and puts their rows; then the fields are judged from these places, and its own row is put.
// Whoever wants no rows lends an empty table.
// Every slice runs to the manifest's end, and a place is the number of bytes left there, 0 for none.
#![tactic(auto)]

mod judge;
pub mod pass;
pub mod place;

ghost use Rattle.std.specs.Prelude.{◌≡◌, length};
ghost use Rattle.cbor.specs.Ending.{code, item_end};
ghost use Rattle.meaning.specs.Layouts.{layout_of};
ghost use Rattle.table.specs.Objects.{WholePut};
ghost use Rattle.object.specs.Verdict.{counted, ObjectIs};
ghost use Rattle.object.specs.Laying.{OwnPut};

use judge::{Measured, verdict};
use numbers::{ObjectFault, Refusal};
use pass::entries;
use table::Place;
use table::object_row::put_object;
use walk::Opening;

// Where a value ends, as `cbor::skip` answers it, and if it is well-formed how many components there are, or the first fault.
#[derive(Clone, Copy)]
pub struct Whole {
    pub end: usize,
    pub verdict: Result<usize, ObjectFault>,
}

// Puts the row of an object that passes, whose key begins s; p holds the places of its fields in m, and dims its dimensions. The judge's answer is given back without the rank.
fn own(
    s: &[u8],
    m: &[u8],
    p: &[usize],
    dims: &[u64],
    v: Result<Measured, ObjectFault>,
    to: Place,
    t: &mut [u64],
) -> Result<usize, ObjectFault>
    requires { (length p.now ≡ 8) × (length dims.now ≡ 8) }
    ensures { (result ≡ counted v) × OwnPut s.now m.now p.now dims.now v to t.old t.new }
{
    let Measured { count, rank } = v?;
    put_object(
        &s[0..],
        &m[0..],
        &p[0..],
        rank,
        &dims[0..],
        count,
        to.end,
        to.row,
        t,
    );
    Ok(count)
}

// The object whose key begins s and whose value begins c, at depth 3, of a file whose manifest begins at `start`. Its rows are put into t, and for the judge its components' into rows, which may hold anything
// before.
pub fn object(
    layout: u64,
    s: &[u8],
    c: &[u8],
    start: u64,
    to: Place,
    rows: &mut [u64],
    t: &mut [u64],
) -> Whole
    requires { length rows.old ≡ 64 }
    ensures { (result.end ≡ code (item_end 30 c.now)) × ObjectIs (layout_of layout) c.now start result.verdict × WholePut layout s.now c.now start to.end to.owner to.row to.from t.old t.new }
{
    let mut p = [0usize; 8];
    match walk::map(&c[0..]) {
        None => Whole {
            end: cbor::skip(&c[0..], numbers::IN_OBJECTS),
            verdict: Err(ObjectFault::from(Refusal::Kind)),
        },
        Some(Opening { mode, count, size }) => {
            let w = entries(layout, &c[size..], start, mode, count, to, &mut p, rows, t);
            let found = w.found;
            let mut dims = [0u64; 8];
            let v = verdict(layout, &c[size..], start, &p, found, to, &mut dims, rows, t);
            let told = own(&s[0..], &c[size..], &p, &dims, v, to, t);
            if c.len() - size < w.end {
                return Whole {
                    end: w.end,
                    verdict: told,
                };
            }
            Whole {
                end: size + w.end,
                verdict: told,
            }
        }
    }
}
