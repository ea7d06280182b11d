// The row of an object, from the places of its fields in m.
ghost use Rattle.std.specs.Prelude.{◌≡◌, length};
ghost use Rattle.std.proofs.lemmas.List.Edits.{sets};
ghost use Rattle.table.specs.Spans.{spanned};
ghost use Rattle.table.specs.Object as is;

use crate::lay::{five, put};
use crate::span::{Span, item_at, text_span, text_span_at};

// Columns of the third and of the eighth dimension.
const THIRD: usize = columns::SHAPE + 2;

const EIGHTH: usize = columns::SHAPE + 7;

// Puts sixteen numbers.
fn put_sixteen(
    t: &mut [u64],
    i: usize,
    name: Span,
    rank: u64,
    d: &[u64],
    format: Span,
    attributes: Span,
    count: u64,
)
    requires { length d.now ≡ 8 }
    ensures { t.new ≡ sets t.old i (is.sixteen (spanned name) rank (is.eight d.now) (spanned format) (spanned attributes) count) }
{
    if i < t.len() {
        five(t, i, name.place, name.size, rank, d[0], d[1]);
        five(t, i + THIRD, d[2], d[3], d[4], d[5], d[6]);
        five(
            t,
            i + EIGHTH,
            d[7],
            format.place,
            format.size,
            attributes.place,
            attributes.size,
        );
        put(t, i + columns::COUNT, count);
    }
}

// Puts the row of an object with `count` components, whose key begins s; p holds the places of its fields, and d its dimensions, `rank` of them, zeros after them.
pub fn put_object(
    s: &[u8],
    m: &[u8],
    p: &[usize],
    rank: usize,
    d: &[u64],
    count: usize,
    end: usize,
    i: usize,
    t: &mut [u64],
)
    requires { (length p.now ≡ 8) × (length d.now ≡ 8) }
    ensures { is.ObjectPut s.now m.now p.now rank d.now count end i t.old t.new }
{
    if t.len() <= i {
        return;
    }
    let name = text_span(&s[0..], end);
    let format = text_span_at(&m[0..], p[2], end);
    let attributes = item_at(&m[0..], p[3], numbers::IN_OBJECT, end);
    put_sixteen(
        t,
        i,
        name,
        rank as u64,
        &d[0..],
        format,
        attributes,
        count as u64,
    );
}
