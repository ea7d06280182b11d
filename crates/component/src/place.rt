// The fields of a component at their places in s; `left` is 0 for one that is absent.
ghost use Rattle.meaning.specs.Layouts.{layout_of};
ghost use Rattle.component.specs.Value as is;

use crate::value::{dtype_of, raw_of, text_of, type_of};
use fields::place_of;
use numbers::Refusal;

// The dtype, or where it is absent the code from above, 13 or more for none.
pub fn dtype_at(layout: u64, s: &[u8], left: usize, above: u64) -> Result<u64, Refusal>
    ensures { is.DtypeAt (layout_of layout) (is.given above) s.now left result }
{
    if left == 0 {
        if above < 13 {
            return Ok(above);
        }
        return Err(Refusal::Missing);
    }
    let at = place_of(s.len(), left);
    dtype_of(layout, &s[at..])
}

// The offset or the length, which isn't absent.
pub fn number_at(s: &[u8], left: usize) -> Option<u64>
    ensures { is.NumberAt s.now left result }
{
    let at = place_of(s.len(), left);
    walk::number(&s[at..])
}

// The place of the type, over the storage with this code; 0 for none.
pub fn typed(s: &[u8], left: usize, code: u64) -> Result<usize, Refusal>
    ensures { is.Typed s.now left code result }
{
    if left == 0 {
        return Ok(0);
    }
    let at = place_of(s.len(), left);
    if walk::null(&s[at..]) {
        return Ok(0);
    }
    type_of(&s[at..], code)
}

// The place of the digest; 0 for none.
pub fn digested(s: &[u8], left: usize) -> Result<usize, Refusal>
    ensures { is.Digested s.now left result }
{
    if left == 0 {
        return Ok(0);
    }
    let at = place_of(s.len(), left);
    if walk::null(&s[at..]) {
        return Ok(0);
    }
    text_of(&s[at..])
}

// The uncompressed length, of any value.
pub fn unpacked(s: &[u8], left: usize) -> Result<(), Refusal>
    ensures { is.Unpacked s.now left result }
{
    if left == 0 {
        return Ok(());
    }
    let at = place_of(s.len(), left);
    if walk::null(&s[at..]) {
        return Ok(());
    }
    match walk::number(&s[at..]) {
        None => Err(Refusal::Kind),
        Some(_) => Ok(()),
    }
}

// The encoding, which null doesn't make absent.
pub fn encoded(s: &[u8], left: usize) -> Result<(), Refusal>
    ensures { is.Encoded s.now left result }
{
    if left == 0 {
        return Ok(());
    }
    let at = place_of(s.len(), left);
    raw_of(&s[at..])
}
