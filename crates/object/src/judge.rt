// The judgement of an object in pieces, from the places of its fields in s, what was found in its components, and their rows.
ghost use Rattle.std.specs.Prelude.{◌≡◌, length, replicate, get_or};
ghost use Rattle.table.specs.Late.{LatePut};
ghost use Rattle.object.specs.Place.{DimensionsAt};
ghost use Rattle.object.specs.Verdict as is;
ghost use Rattle.object.specs.Laying.{WaitedPut, ShapedPut, Once};

use crate::place::{format_at, shape_at, tensor_at};
use fields::place_of;
use numbers::{ObjectFault, Refusal};
use table::Place;

// How many components and how many dimensions there are.
#[derive(Clone, Copy)]
pub struct Measured {
    pub count: usize,
    pub rank: usize,
}

// Is the dtype missing, where `left` bytes are left at it? Only a 1.0 tensor needs one.
fn lacks_dtype(layout: u64, left: usize) -> bool
    ensures { result ≡ is.lacks_dtype layout left }
{
    if layout == 1 {
        return left == 0;
    }
    false
}

// Keys, repeats, missing fields.
fn known(layout: u64, p: &[usize]) -> Result<(), Refusal>
    requires { length p.now ≡ 8 }
    ensures { result ≡ is.known layout p.now }
{
    if p[6] != 0 {
        return Err(Refusal::Key);
    }
    if p[7] != 0 {
        return Err(Refusal::Twice);
    }
    if lacks_dtype(layout, p[0]) {
        return Err(Refusal::Missing);
    }
    if p[1] == 0 {
        return Err(Refusal::Missing);
    }
    if p[2] == 0 {
        return Err(Refusal::Missing);
    }
    if p[4] == 0 {
        return Err(Refusal::Missing);
    }
    Ok(())
}

// The format at a, the attributes at b.
fn described(s: &[u8], a: usize, b: usize) -> Result<u64, Refusal>
    ensures { is.DescribedAt s.now a b result }
{
    let code = format_at(&s[0..], a)?;
    if fields::attributes(&s[0..], b) {
        return Ok(code);
    }
    Err(Refusal::Kind)
}

// The format's rules over m components and the first `rank` of dims. Neither is ever above its limit here: what was refused before isn't judged by rules.
fn ruled(
    code: u64,
    dims: &[u64],
    rank: usize,
    rows: &[u64],
    m: usize,
) -> Result<Measured, ObjectFault>
    requires { length rows.now ≡ 64 }
    ensures { is.RuledIs code dims.now rank rows.now m result }
{
    if dims.len() < rank {
        return Err(ObjectFault::from(Refusal::Count));
    }
    if 16 < m {
        return Err(ObjectFault::from(Refusal::Count));
    }
    let e = 4 * m;
    formats::judge(code, &dims[0..rank], &rows[0..e])?;
    Ok(Measured { count: m, rank })
}

// What was found in the components; in layout 1.0 they are looked at now, where `left` bytes of s are left, and their rows are put.
fn late(
    layout: u64,
    format: u64,
    code: u64,
    s: &[u8],
    start: u64,
    left: usize,
    found: Result<usize, ObjectFault>,
    to: Place,
    rows: &mut [u64],
    t: &mut [u64],
) -> Result<usize, ObjectFault>
    requires { length rows.old ≡ 64 }
    ensures { (length rows.new ≡ 64) × is.LateIs layout format code s.now start left found rows.old result rows.new × WaitedPut layout format code s.now start left to t.old t.new }
{
    if layout == 1 {
        let at = place_of(s.len(), left);
        let w = components::components(layout, format, code, &s[at..], start, to, rows, t);
        return w.found;
    }
    found
}

// The fields that stand at the places in p, where none that is needed is missing, in an object whose dtype has this code, 13 for none. Its dimensions are put into dims.
fn shaped(
    layout: u64,
    d: u64,
    s: &[u8],
    start: u64,
    p: &[usize],
    found: Result<usize, ObjectFault>,
    to: Place,
    dims: &mut [u64],
    rows: &mut [u64],
    t: &mut [u64],
) -> Result<Measured, ObjectFault>
    requires { (length p.now ≡ 8) × (dims.old ≡ replicate 8 0) × (length rows.old ≡ 64) }
    ensures { is.ShapedIs layout d s.now start p.now found rows.old result × Once result (ShapedPut layout d s.now start p.now to t.old t.new) × Once result (DimensionsAt s.now (get_or p.now 1 0) dims.new) }
{
    let rank = shape_at(&s[0..], p[1], dims)?;
    let code = described(&s[0..], p[2], p[3])?;
    let m = late(layout, code, d, &s[0..], start, p[4], found, to, rows, t)?;
    ruled(code, &dims[0..], rank, &rows[0..], m)
}

// The same, from the dtype on.
fn sound(
    layout: u64,
    s: &[u8],
    start: u64,
    p: &[usize],
    found: Result<usize, ObjectFault>,
    to: Place,
    dims: &mut [u64],
    rows: &mut [u64],
    t: &mut [u64],
) -> Result<Measured, ObjectFault>
    requires { (length p.now ≡ 8) × (dims.old ≡ replicate 8 0) × (length rows.old ≡ 64) }
    ensures { is.SoundIs layout s.now start p.now found rows.old result × Once result (LatePut layout s.now p.now start to.end to.owner to.from t.old t.new) × Once result (DimensionsAt s.now (get_or p.now 1 0) dims.new) }
{
    let d = tensor_at(layout, &s[0..], p[0])?;
    shaped(layout, d, &s[0..], start, &p[0..], found, to, dims, rows, t)
}

// The object whose entries begin s, from the slots p and its components.
pub fn verdict(
    layout: u64,
    s: &[u8],
    start: u64,
    p: &[usize],
    found: Result<usize, ObjectFault>,
    to: Place,
    dims: &mut [u64],
    rows: &mut [u64],
    t: &mut [u64],
) -> Result<Measured, ObjectFault>
    requires { (length p.now ≡ 8) × (dims.old ≡ replicate 8 0) × (length rows.old ≡ 64) }
    ensures { is.VerdictIs layout s.now start p.now found rows.old result × Once result (LatePut layout s.now p.now start to.end to.owner to.from t.old t.new) × Once result (DimensionsAt s.now (get_or p.now 1 0) dims.new) }
{
    known(layout, &p[0..])?;
    sound(layout, &s[0..], start, &p[0..], found, to, dims, rows, t)
}
