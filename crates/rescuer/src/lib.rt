// Document 02, Req 14: what is sound of a file of either layout, into one of 1.2.0. The lent rows hold the kept objects' table, and end as zeros.
#![tactic(auto)]

mod checks;
mod opening;

ghost use Rattle.std.specs.Prelude.{◌≡◌, ◌&&◌, ◌+◌, ◌*◌, ◌≤◌, length, leb};
ghost use Rattle.meaning.specs.Columns.{object_width, component_width};
ghost use Rattle.meaning.specs.Layouts.{layout_of};
ghost use Rattle.rescuing.specs.Rescue as is;
ghost use Rattle.rescuer.specs.Checked.{Ready};
ghost use Rattle.rescuer.specs.RescuedFile.{answer, answered, Enough};

use checks::Verdict;
use numbers::Refusal;

// How many numbers an entry of the list takes: the object's index, its refusal's number and component.
const ENTRY: u64 = 3;

// A refusal's number, object and component; or 0, or ROOM, with how many objects are kept and dropped, and the rescued file's length.
#[repr(C)]
#[derive(Clone, Copy)]
pub struct Rescued {
    pub number: u64,
    pub object: u64,
    pub component: u64,
    pub kept: u64,
    pub dropped: u64,
    pub length: u64,
}

fn told(
    number: u64,
    object: u64,
    component: u64,
    kept: usize,
    dropped: usize,
    length: u64,
) -> Rescued
    ensures { result ≡ answer number object component kept dropped length }
{
    Rescued {
        number: number,
        object: object,
        component: component,
        kept: kept as u64,
        dropped: dropped as u64,
        length: length,
    }
}

// The kept objects' rows into the lent ones, the dropped ones into the list, and the file by the rows.
fn lay(layout: u64, file: &[u8], rows: &mut [u64], list: &mut [u64], out: &mut [u8], v: Verdict)
    requires { Ready layout file.now v × Enough v rows.old list.old out.old }
    ensures output { out.new ≡ is.rescue_output out.old (is.rescue (layout_of layout) file.now (length rows.old) (length list.old) (length out.old)) }
    ensures listed { list.new ≡ is.rescue_list list.old (is.rescue (layout_of layout) file.now (length rows.old) (length list.old) (length out.old)) }
    ensures numbers { length rows.new ≡ length rows.old }
{
    let from = columns::OBJECT * v.kept;
    sieve::sift(
        layout,
        &file[v.first..v.end],
        v.start as u64,
        v.end,
        true,
        from,
        rows,
        list,
    );
    writer::write(
        rows,
        v.kept as u64,
        v.components as u64,
        v.place,
        v.size,
        file,
        out,
    );
}

// The kept objects' rows fit the lent ones, the dropped ones the list, and the rescued file the output.
fn fits(rows: usize, list: usize, out: usize, v: Verdict) -> bool
    requires { v.dropped ≤ 1024 }
    ensures { result ≡ leb (object_width * v.kept + component_width * v.components) rows && leb (is.entry_width * v.dropped) list && leb v.long out }
{
    columns::holds(rows, v.kept as u64, v.components as u64)
        && ENTRY * v.dropped as u64 <= list as u64
        && v.long <= out as u64
}

// Refused, or short of room: the rows are cleared all the same.
pub fn rescue(
    layout: u64,
    file: &[u8],
    rows: &mut [u64],
    list: &mut [u64],
    out: &mut [u8],
) -> Rescued
    ensures answer { result ≡ answered (is.rescue (layout_of layout) file.now (length rows.old) (length list.old) (length out.old)) }
    ensures listed { list.new ≡ is.rescue_list list.old (is.rescue (layout_of layout) file.now (length rows.old) (length list.old) (length out.old)) }
    ensures output { out.new ≡ is.rescue_output out.old (is.rescue (layout_of layout) file.now (length rows.old) (length list.old) (length out.old)) }
    ensures cleared { rows.new ≡ is.rescue_rows rows.old }
{
    match checks::checked(layout, file) {
        Err(fault) => {
            account::clear(rows);
            told(
                u64::from(fault.refusal),
                fault.object as u64,
                fault.component as u64,
                0,
                0,
                0,
            )
        }
        Ok(v) => {
            if !fits(rows.len(), list.len(), out.len(), v) {
                account::clear(rows);
                return told(Refusal::Room as u64, 0, 0, v.kept, v.dropped, v.long);
            }
            lay(layout, file, rows, list, out, v);
            account::clear(rows);
            told(0, 0, 0, v.kept, v.dropped, v.long)
        }
    }
}
