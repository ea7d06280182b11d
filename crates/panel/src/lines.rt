// The lines of a listing, into `out` from `at` on as far as they fit; each answers the place past its lines.
ghost use Rattle.std.specs.Prelude.{◌≡◌, [], ◌∷◌, true, ◌+◌, ◌*◌, ◌≤◌, length};
ghost use Rattle.meaning.specs.Columns.{object_width, component_width};
ghost use Rattle.meaning.specs.Text.{ascii};
ghost use Rattle.meaning.specs.Types.{storage_of};
ghost use Rattle.meaning.specs.Listing.{line, shown_text, decimal};
ghost use Rattle.panel.specs.Lines as is;
ghost use Rattle.panel.specs.Summary.{more};
ghost use Rattle.put.specs.Wrote.{Wrote};

use crate::ends::{ending, numbered};
use columns::{COUNT, DTYPE, FORMAT, FORMAT_LENGTH, LENGTH, NAME_LENGTH, OFFSET};
use put::{blank_number, blank_storage, blank_text, byte, capped_place, word};
use view::part;

fn heading(objects: u64, components: u64, out: &mut [u8]) -> usize
    ensures { Wrote (line (ascii "objects") (decimal objects ∷ ascii "components" ∷ decimal components ∷ [])) 0 out.old out.new result }
{
    let a = numbered(b"objects", objects, out, 0);
    let b = numbered(b" components", components, out, a);
    byte(out, b, 10)
}

pub fn refused(number: u64, object: u64, component: u64, out: &mut [u8]) -> usize
    ensures { Wrote (line (ascii "refused") (decimal number ∷ decimal object ∷ decimal component ∷ [])) 0 out.old out.new result }
{
    let a = numbered(b"refused", number, out, 0);
    let b = blank_number(out, a, object);
    let c = blank_number(out, b, component);
    byte(out, c, 10)
}

// All but what follows the size.
fn blob_words(name: &[u8], code: u64, offset: u64, size: u64, out: &mut [u8], at: usize) -> usize
    ensures { Wrote (is.blob_words (shown_text name.now) (storage_of code).called (decimal offset) (decimal size)) at out.old out.new result }
{
    let a = word(out, at, b"blob");
    let b = blank_text(out, a, name);
    let c = blank_storage(out, b, code);
    let d = blank_number(out, c, offset);
    blank_number(out, d, size)
}

// The component whose row begins at `row`; in a summary with what is found in it.
fn blob(file: &[u8], table: &[u64], row: usize, summary: bool, out: &mut [u8], at: usize) -> usize
    requires { row + component_width ≤ length table.now }
    ensures { Wrote (is.blob_line file.now table.now (more summary file.now table.now) row) at out.old out.new result }
{
    let name = part(file, table[row], table[row + NAME_LENGTH]);
    let past = blob_words(
        name,
        table[row + DTYPE],
        table[row + OFFSET],
        table[row + LENGTH],
        out,
        at,
    );
    ending(file, table, row, summary, out, past)
}

// n components, the first at the row `from`.
fn blobs(
    file: &[u8],
    table: &[u64],
    n: u64,
    from: usize,
    summary: bool,
    out: &mut [u8],
    at: usize,
) -> usize
    requires { from + component_width * n ≤ length table.now }
    ensures { Wrote (is.blob_lines file.now table.now (more summary file.now table.now) n from) at out.old out.new result }
{
    let mut past = at;
    for i in 0..n as usize {
        past = blob(
            file,
            table,
            from + columns::COMPONENT * i,
            summary,
            out,
            past,
        );
    }
    capped_place(past)
}

fn object_words(name: &[u8], format: &[u8], out: &mut [u8], at: usize) -> usize
    ensures { Wrote (line (ascii "object") (shown_text name.now ∷ shown_text format.now ∷ [])) at out.old out.new result }
{
    let a = word(out, at, b"object");
    let b = blank_text(out, a, name);
    let c = blank_text(out, b, format);
    byte(out, c, 10)
}

// The object whose row begins at `row`.
fn object(file: &[u8], table: &[u64], row: usize, out: &mut [u8], at: usize) -> usize
    requires { row + object_width ≤ length table.now }
    ensures { Wrote (is.object_line file.now table.now row) at out.old out.new result }
{
    let name = part(file, table[row], table[row + NAME_LENGTH]);
    let format = part(file, table[row + FORMAT], table[row + FORMAT_LENGTH]);
    object_words(name, format, out, at)
}

// n objects, the first at the table's start, and their components from the row `first` on.
fn objects_of(
    file: &[u8],
    table: &[u64],
    n: u64,
    first: usize,
    summary: bool,
    out: &mut [u8],
    at: usize,
) -> usize
    requires { (object_width * n ≤ length table.now) × (first + component_width * is.counted table.now n 0 ≤ length table.now) }
    ensures { Wrote (is.object_lines file.now table.now (more summary file.now table.now) n 0 first) at out.old out.new result }
{
    let mut past = at;
    let mut from = first;
    for i in 0..n as usize {
        let row = columns::OBJECT * i;
        let count = table[row + COUNT];
        let next = object(file, table, row, out, past);
        past = blobs(file, table, count, from, summary, out, next);
        from += columns::COMPONENT * count as usize;
    }
    capped_place(past)
}

pub fn whole(
    file: &[u8],
    table: &[u64],
    objects: u64,
    components: u64,
    summary: bool,
    out: &mut [u8],
) -> usize
    requires { is.sound file.now table.now objects components ≡ true }
    ensures { Wrote (is.text file.now table.now (more summary file.now table.now) objects components) 0 out.old out.new result }
{
    let at = heading(objects, components, out);
    objects_of(
        file,
        table,
        objects,
        columns::OBJECT * objects as usize,
        summary,
        out,
        at,
    )
}
