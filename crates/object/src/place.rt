// The shape and the format of an object, which aren't absent, at their places in s.
ghost use Rattle.std.specs.Prelude.{◌≡◌, replicate};
ghost use Rattle.meaning.specs.Text.{utf8};
ghost use Rattle.meaning.specs.Layouts.{layout_of};
ghost use Rattle.types.specs.Known.{position, format_names};
ghost use Rattle.object.specs.Place as is;

use fields::place_of;
use numbers::Refusal;

// The shape, where `left` bytes are left: its dimensions are put into dims, over zeros.
pub fn shape_at(s: &[u8], left: usize, dims: &mut [u64]) -> Result<usize, Refusal>
    requires { dims.old ≡ replicate 8 0 }
    ensures { is.ShapeAt s.now left dims.new result }
{
    let at = place_of(s.len(), left);
    shape::shape(&s[at..], numbers::IN_SHAPE, dims)
}

// Is a format with this code UTF-8? One that is known needs no look.
fn legible(k: &[u8], code: u64) -> bool
    requires { code ≡ position format_names k.now }
    ensures { result ≡ utf8 k.now }
{
    if code < 4 {
        return true;
    }
    utf8::utf8(k)
}

// The code (types::format_code) of the format that begins s.
fn format_of(s: &[u8]) -> Result<u64, Refusal>
    ensures { is.FormatIs s.now result }
{
    let Some(letters) = walk::text(&s[0..]) else {
        return Err(Refusal::Kind);
    };
    let at = letters.at;
    let e = at + letters.size;
    let code = types::format_code(&s[at..e]);
    if legible(&s[at..e], code) {
        return Ok(code);
    }
    Err(Refusal::Text)
}

// The format, where `left` bytes are left.
pub fn format_at(s: &[u8], left: usize) -> Result<u64, Refusal>
    ensures { is.FormatAt s.now left result }
{
    let at = place_of(s.len(), left);
    format_of(&s[at..])
}

// The storage that a tensor's dtype names, at the start of s.
fn tensor_of(layout: u64, s: &[u8]) -> Result<u64, Refusal>
    ensures { is.TensorIs (layout_of layout) s.now result }
{
    let Some(letters) = walk::text(&s[0..]) else {
        return Err(Refusal::Kind);
    };
    let at = letters.at;
    let e = at + letters.size;
    let code = types::dtype_code(layout, &s[at..e]);
    if code < 13 {
        return Ok(code);
    }
    Err(Refusal::Dtype)
}

// The dtype of a 1.0 tensor, where `left` bytes are left; 13 where there is none.
pub fn tensor_at(layout: u64, s: &[u8], left: usize) -> Result<u64, Refusal>
    ensures { is.TensorAt (layout_of layout) s.now left result }
{
    if left == 0 {
        return Ok(13);
    }
    let at = place_of(s.len(), left);
    tensor_of(layout, &s[at..])
}
