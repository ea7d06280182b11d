// The finding of one component, by any table, any counts and any index: where a view has no bytes to lend this is INDEX too.
ghost use Rattle.std.specs.Prelude.{◌≡◌, ◌+◌, ◌≤◌, length};
ghost use Rattle.meaning.specs.Columns.{component_width};
ghost use Rattle.finding.specs.Table as is;

use crate::{Shown, finding_of};
use columns::{DTYPE, LENGTH, OFFSET, TYPE, TYPE_LENGTH};

// 0 or INDEX; 0 where no finding is due, else its kind; the patterns of the smallest and the largest; the count of NaNs.
#[repr(C)]
#[derive(Clone, Copy)]
pub struct Found {
    pub number: u64,
    pub finding: u64,
    pub smallest: u64,
    pub largest: u64,
    pub nans: u64,
}

// Is a finding due of the component whose row begins here?
fn due(table: &[u64], row: usize) -> bool
    requires { row + component_width ≤ length table.now }
    ensures { result ≡ is.due table.now row }
{
    table[row + DTYPE] == 1
        && table[row + TYPE] == 0
        && table[row + TYPE_LENGTH] == 0
        && table[row + LENGTH] % 4 == 0
}

// Its finding in numbers, 0 where none is due.
pub fn at_row(file: &[u8], table: &[u64], row: usize) -> Shown
    requires { row + component_width ≤ length table.now }
    ensures { result ≡ is.at_row file.now table.now row }
{
    if due(table, row) {
        let bytes = view::part(file, table[row + OFFSET], table[row + LENGTH]);
        return finding_of(bytes);
    }
    Shown {
        finding: 0,
        smallest: 0,
        largest: 0,
        nans: 0,
    }
}

pub fn find_in(file: &[u8], table: &[u64], objects: u64, components: u64, index: u64) -> Found
    ensures { result ≡ is.found file.now table.now objects components index }
{
    let r = view::range(file, table, objects, components, index);
    if r.number == 0 {
        let row = columns::OBJECT_64 * objects + columns::COMPONENT_64 * index;
        let s = at_row(file, table, row as usize);
        return Found {
            number: 0,
            finding: s.finding,
            smallest: s.smallest,
            largest: s.largest,
            nans: s.nans,
        };
    }
    Found {
        number: r.number,
        finding: 0,
        smallest: 0,
        largest: 0,
        nans: 0,
    }
}
