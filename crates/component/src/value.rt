// The texts of a component, each of the item that begins s.
ghost use Rattle.meaning.specs.Layouts.{layout_of};
ghost use Rattle.component.specs.Value as is;

use numbers::Refusal;

// The storage that it names.
pub fn dtype_of(layout: u64, s: &[u8]) -> Result<u64, Refusal>
    ensures { is.DtypeIs (layout_of layout) s.now result }
{
    let Some(letters) = walk::text(&s[0..]) else {
        return Err(Refusal::Kind);
    };
    let at = letters.at;
    let e = at + letters.size;
    let code = types::dtype_code(layout, &s[at..e]);
    if code < 13 {
        return Ok(code);
    }
    Err(Refusal::Dtype)
}

// It is "raw".
pub fn raw_of(s: &[u8]) -> Result<(), Refusal>
    ensures { is.RawIs s.now result }
{
    let Some(letters) = walk::text(&s[0..]) else {
        return Err(Refusal::Kind);
    };
    let at = letters.at;
    let e = at + letters.size;
    if types::is_raw(&s[at..e]) {
        return Ok(());
    }
    Err(Refusal::Encoding)
}

// A text that is UTF-8: its place, as bytes left.
pub fn text_of(s: &[u8]) -> Result<usize, Refusal>
    ensures { is.TextIs s.now result }
{
    let Some(letters) = walk::text(&s[0..]) else {
        return Err(Refusal::Kind);
    };
    let at = letters.at;
    let e = at + letters.size;
    if utf8::utf8(&s[at..e]) {
        return Ok(s.len());
    }
    Err(Refusal::Text)
}

// A logical type over the storage with this code: its place.
pub fn type_of(s: &[u8], code: u64) -> Result<usize, Refusal>
    ensures { is.TypeIs s.now code result }
{
    let Some(letters) = walk::text(&s[0..]) else {
        return Err(Refusal::Kind);
    };
    let at = letters.at;
    let e = at + letters.size;
    if utf8::utf8(&s[at..e]) {
        if types::type_fits(&s[at..e], code) {
            return Ok(s.len());
        }
        return Err(Refusal::Type);
    }
    Err(Refusal::Text)
}
