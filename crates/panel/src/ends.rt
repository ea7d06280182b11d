// The end of a component's line: in a summary what is found in the component, and the newline.
ghost use Rattle.std.specs.Prelude.{◌∷◌, ◌++◌, ◌+◌, ◌≤◌, length};
ghost use Rattle.meaning.specs.Columns.{component_width};
ghost use Rattle.meaning.specs.Listing.{blanked, decimal};
ghost use Rattle.finding.specs.Table.{at_row};
ghost use Rattle.put.specs.Wrote.{Wrote};
ghost use Rattle.panel.specs.Summary as is;

use put::{blank_number, byte, word};

// Words, and the number after them.
pub fn numbered(said: &[u8], n: u64, out: &mut [u8], at: usize) -> usize
    ensures { Wrote (said.now ++ (32 ∷ decimal n)) at out.old out.new result }
{
    let past = word(out, at, said);
    blank_number(out, past, n)
}

// The same of a float.
fn floated(said: &[u8], bits: u64, out: &mut [u8], at: usize) -> usize
    ensures { Wrote (said.now ++ is.blank_float bits) at out.old out.new result }
{
    let past = word(out, at, said);
    let from = byte(out, past, 32);
    decimal::text::float(out, from, (bits % 4294967296) as u32)
}

fn only_nan(nans: u64, out: &mut [u8], at: usize) -> usize
    ensures { Wrote (blanked (is.nan_words nans)) at out.old out.new result }
{
    let past = numbered(b" nan", nans, out, at);
    byte(out, past, 10)
}

fn span(smallest: u64, largest: u64, nans: u64, out: &mut [u8], at: usize) -> usize
    ensures { Wrote (blanked (is.span_words smallest largest nans)) at out.old out.new result }
{
    let a = floated(b" min", smallest, out, at);
    let b = floated(b" max", largest, out, a);
    only_nan(nans, out, b)
}

// What is found in the component whose row begins here.
fn found(file: &[u8], table: &[u64], row: usize, out: &mut [u8], at: usize) -> usize
    requires { row + component_width ≤ length table.now }
    ensures { Wrote (blanked (is.words (at_row file.now table.now row))) at out.old out.new result }
{
    let f = finding::table::at_row(file, table, row);
    if f.finding == 1 {
        return word(out, at, b" empty\n");
    }
    if f.finding == 2 {
        return only_nan(f.nans, out, at);
    }
    if f.finding == 3 {
        return span(f.smallest, f.largest, f.nans, out, at);
    }
    byte(out, at, 10)
}

pub fn ending(
    file: &[u8],
    table: &[u64],
    row: usize,
    summary: bool,
    out: &mut [u8],
    at: usize,
) -> usize
    requires { row + component_width ≤ length table.now }
    ensures { Wrote (blanked (is.more summary file.now table.now row)) at out.old out.new result }
{
    if summary {
        return found(file, table, row, out, at);
    }
    byte(out, at, 10)
}

// The last line of a summary.
pub fn bytes_line(
    frame: u64,
    manifest: u64,
    inside: u64,
    between: u64,
    out: &mut [u8],
    at: usize,
) -> usize
    ensures { Wrote (is.bytes_line frame manifest inside between) at out.old out.new result }
{
    let a = numbered(b"bytes frame", frame, out, at);
    let b = numbered(b" manifest", manifest, out, a);
    let c = numbered(b" inside", inside, out, b);
    let d = numbered(b" between", between, out, c);
    byte(out, d, 10)
}
