// The judgement of a component in pieces, from the places of its fields in s.
ghost use Rattle.std.specs.Prelude.{◌≡◌, length};
ghost use Rattle.meaning.specs.Layouts.{layout_of};
ghost use Rattle.numbers.specs.Answered.{answered};
ghost use Rattle.component.specs.Value.{given};
ghost use Rattle.component.specs.Verdict as is;

use crate::Judged;
use crate::place::{digested, dtype_at, encoded, number_at, typed, unpacked};
use numbers::Refusal;

// The dtype's code, and the place of the type.
#[derive(Clone, Copy)]
pub struct Stored {
    pub code: u64,
    pub kind: usize,
}

// Offset and length.
#[derive(Clone, Copy)]
pub struct Stretch {
    pub offset: u64,
    pub length: u64,
}

// Is the dtype missing, where `left` bytes are left at it? In layout 1.0 a component has none.
fn lacks_dtype(layout: u64, left: usize) -> bool
    ensures { result ≡ is.lacks_dtype layout left }
{
    if layout == 1 {
        return false;
    }
    left == 0
}

// Keys, repeats, missing fields.
fn known(layout: u64, p: &[usize]) -> Result<(), Refusal>
    requires { length p.now ≡ 10 }
    ensures { result ≡ is.known layout p.now }
{
    if p[8] != 0 {
        return Err(Refusal::Key);
    }
    if p[9] != 0 {
        return Err(Refusal::Twice);
    }
    if lacks_dtype(layout, p[0]) {
        return Err(Refusal::Missing);
    }
    if p[2] == 0 {
        return Err(Refusal::Missing);
    }
    if p[3] == 0 {
        return Err(Refusal::Missing);
    }
    Ok(())
}

// The dtype at a, or else the code from above; the type at b.
fn storage(layout: u64, above: u64, s: &[u8], a: usize, b: usize) -> Result<Stored, Refusal>
    ensures { is.StorageAt (layout_of layout) (given above) s.now a b result }
{
    let code = dtype_at(layout, &s[0..], a, above)?;
    let kind = typed(&s[0..], b, code)?;
    Ok(Stored { code, kind })
}

// The offset at a, the length at b.
fn extent(s: &[u8], a: usize, b: usize) -> Result<Stretch, Refusal>
    ensures { is.ExtentAt s.now a b result }
{
    let Some(offset) = number_at(&s[0..], a) else {
        return Err(Refusal::Kind);
    };
    let Some(length) = number_at(&s[0..], b) else {
        return Err(Refusal::Kind);
    };
    Ok(Stretch { offset, length })
}

// The uncompressed length at a, the encoding at b, the digest at c.
fn extras(s: &[u8], a: usize, b: usize, c: usize) -> Result<usize, Refusal>
    ensures { is.ExtrasAt s.now a b c result }
{
    unpacked(&s[0..], a)?;
    encoded(&s[0..], b)?;
    digested(&s[0..], c)
}

// A component of this storage, stretch and digest, in a file whose manifest begins at `start`.
fn judge_place(
    start: u64,
    stored: Stored,
    stretch: Stretch,
    digest: usize,
) -> Result<Judged, Refusal>
    ensures { answered result ≡ is.judged_place start stored stretch digest }
{
    lengths::place(start, stretch.offset, stretch.length)?;
    Ok(Judged {
        code: stored.code,
        kind: stored.kind,
        offset: stretch.offset,
        length: stretch.length,
        digest: digest,
    })
}

// The fields that stand at the places in p, where none that is needed is missing.
fn sound(layout: u64, above: u64, s: &[u8], start: u64, p: &[usize]) -> Result<Judged, Refusal>
    requires { length p.now ≡ 10 }
    ensures { is.SoundIs (layout_of layout) (given above) s.now start p.now result }
{
    let stored = storage(layout, above, &s[0..], p[0], p[1])?;
    let stretch = extent(&s[0..], p[2], p[3])?;
    let digest = extras(&s[0..], p[4], p[5], p[6])?;
    judge_place(start, stored, stretch, digest)
}

// The component whose entries begin s, from the slots p.
pub fn verdict(
    layout: u64,
    above: u64,
    s: &[u8],
    start: u64,
    p: &[usize],
) -> Result<Judged, Refusal>
    requires { length p.now ≡ 10 }
    ensures { is.VerdictIs (layout_of layout) (given above) s.now start p.now result }
{
    known(layout, &p[0..])?;
    sound(layout, above, &s[0..], start, &p[0..])
}
