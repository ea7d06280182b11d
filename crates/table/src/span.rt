// Where texts stand in the file.
ghost use Rattle.table.specs.Spans as is;

use fields::place_of;

// A place in the file and a length; 0 and 0 for what is absent.
#[derive(Clone, Copy)]
pub struct Span {
    pub place: u64,
    pub size: u64,
}

// The letters of the text that begins s.
pub fn text_span(s: &[u8], end: usize) -> Span
    ensures { is.TextSpanIs s.now end result }
{
    let h = cbor::head(&s[0..]);
    if s.len() < h.size {
        return Span { place: 0, size: 0 };
    }
    let at = place_of(end, s.len());
    Span {
        place: (at + h.size) as u64,
        size: h.value,
    }
}

// The letters of the text that has `left` bytes left in c.
pub fn text_span_at(c: &[u8], left: usize, end: usize) -> Span
    ensures { is.TextSpanAt c.now left end result }
{
    if left == 0 {
        return Span { place: 0, size: 0 };
    }
    let at = place_of(c.len(), left);
    text_span(&c[at..], end)
}

// The whole item that takes `size` bytes where `left` bytes are left.
fn whole(left: usize, size: usize, end: usize) -> Span
    ensures { is.WholeIs left size end result }
{
    if left == 0 {
        return Span { place: 0, size: 0 };
    }
    Span {
        place: place_of(end, left) as u64,
        size: size as u64,
    }
}

// The whole item that stands where `left` bytes of m are left, with so many levels under it.
pub fn item_at(m: &[u8], left: usize, depth: u64, end: usize) -> Span
    ensures { is.ItemIs depth m.now left end result }
{
    let at = place_of(m.len(), left);
    let size = cbor::skip(&m[at..], depth);
    whole(left, size, end)
}

// The whole item that begins c and takes `size` bytes.
pub fn whole_from(c: &[u8], size: usize, end: usize) -> Span
    ensures { is.WholeFrom c.now size end result }
{
    whole(c.len(), size, end)
}
