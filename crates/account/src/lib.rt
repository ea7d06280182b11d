// Where the bytes of a file are: frame, manifest, in components, in none. The room that is lent holds the table, then the components' ranges, and ends as zeros.
#![tactic(auto)]

ghost use Rattle.std.specs.Prelude.{◌≡◌, ◌+◌, ◌*◌, length, replicate};
ghost use Rattle.meaning.specs.Columns.{object_width};
ghost use Rattle.meaning.specs.Layouts.{layout_of};
ghost use Rattle.meaning.specs.Rows.{read_into};
ghost use Rattle.covering.specs.Ranges as covering;
ghost use Rattle.account.specs.Account as is;
ghost use Rattle.account.specs.Ranges.{ranges, Rows, Gathered};

use columns::{LENGTH, OFFSET};

// The verdict; and for a file that is accepted the bytes of each kind. All 0 on refusal.
#[repr(C)]
#[derive(Clone, Copy)]
pub struct Bytes {
    pub number: u64,
    pub object: u64,
    pub component: u64,
    pub frame: u64,
    pub manifest: u64,
    pub inside: u64,
    pub between: u64,
}

// The ranges of n components, the first at the row `first`, put at the table's front. A range is put where rows that were read stood.
fn gather(table: &mut [u64], first: usize, n: usize, most: u64)
    requires { Rows table.old first n most }
    ensures { Gathered table.old first n table.new }
{
    for i in 0..n {
        let row = first + columns::COMPONENT * i;
        let begins = table[row + OFFSET];
        let past = begins + table[row + LENGTH];
        covering::order::put(table, 2 * i, begins, past);
    }
}

// The positions below `most` in at least one of n components.
fn inside(table: &mut [u64], first: usize, n: usize, most: u64) -> u64
    requires { Rows table.old first n most }
    ensures { (result ≡ covering.inside (ranges table.old first n) most) × (length table.new ≡ length table.old) }
{
    gather(table, first, n, most);
    let m = 2 * n;
    covering::inside(&mut table[..m], most)
}

pub fn clear(a: &mut [u64])
    ensures { a.new ≡ replicate (length a.old) 0 }
{
    a.fill(0);
}

// A file of this layout, lent whole, with room for its rows.
pub fn of_file(layout: u64, file: &[u8], work: &mut [u64]) -> Bytes
    ensures answer { result ≡ is.accounted (layout_of layout) file.now (read_into (layout_of layout) file.now (length work.old)) }
    ensures cleared { work.new ≡ replicate (length work.old) 0 }
{
    let back = frame::size_back(layout) as u64;
    let a = reader::into::read_as(layout, file, work);
    if a.number == 0 {
        let first = columns::OBJECT * a.objects as usize;
        let inside = inside(work, first, a.components as usize, a.start);
        clear(work);
        return Bytes {
            number: 0,
            object: 0,
            component: 0,
            frame: 8 + back,
            manifest: file.len() as u64 - back - a.start,
            inside: inside,
            between: a.start - 8 - inside,
        };
    }
    clear(work);
    Bytes {
        number: a.number,
        object: a.object,
        component: a.component,
        frame: 0,
        manifest: 0,
        inside: 0,
        between: 0,
    }
}
