// The row of a component.
ghost use Rattle.std.specs.Prelude.{◌≡◌};
ghost use Rattle.std.proofs.lemmas.List.Edits.{sets};
ghost use Rattle.table.specs.Spans.{spanned};
ghost use Rattle.table.specs.Row.{twelve, RowPut};

use crate::lay::{five, two};
use crate::span::{Span, text_span, text_span_at, whole_from};
use crate::stored::storage;
use component::Judged;
use numbers::Refusal;

// Puts twelve numbers.
fn put_twelve(
    t: &mut [u64],
    i: usize,
    name: Span,
    code: u64,
    kind: Span,
    offset: u64,
    length: u64,
    digest: Span,
    owner: u64,
    entry: Span,
)
    ensures { t.new ≡ sets t.old i (twelve (spanned name) code (spanned kind) offset length (spanned digest) owner (spanned entry)) }
{
    if i < t.len() {
        five(t, i, name.place, name.size, code, kind.place, kind.size);
        five(
            t,
            i + columns::OFFSET,
            offset,
            length,
            digest.place,
            digest.size,
            owner,
        );
        two(t, i + columns::ENTRY, entry.place, entry.size);
    }
}

// Puts the row of a component, whose key begins s and whose value, judged as v with its object's code, begins c and takes `size` bytes. `format` is its object's
// (types::format_code), `owner` its object's index.
pub fn put_row(
    layout: u64,
    format: u64,
    s: &[u8],
    c: &[u8],
    v: Result<Judged, Refusal>,
    size: usize,
    end: usize,
    owner: u64,
    i: usize,
    t: &mut [u64],
)
    ensures { RowPut layout format s.now c.now v size end owner i t.old t.new }
{
    if t.len() <= i {
        return;
    }
    let Ok(judged) = v else {
        return;
    };
    let name = text_span(&s[0..], end);
    let typed = text_span_at(&c[0..], judged.kind, end);
    let digested = text_span_at(&c[0..], judged.digest, end);
    let entry = whole_from(&c[0..], size, end);
    let kept = storage(layout, format, s, judged.code);
    put_twelve(
        t,
        i,
        name,
        kept,
        typed,
        judged.offset,
        judged.length,
        digested,
        owner,
        entry,
    );
}
