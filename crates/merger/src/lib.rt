// Document 02, Req 10: two files, each of either layout, into one of 1.2.0. The lent rows hold both files' tables, and end as zeros.
#![tactic(auto)]

mod checks;
mod weigh;

ghost use Rattle.std.specs.Prelude.{◌≡◌, ◌&&◌, ◌+◌, ◌*◌, ◌≤◌, length, leb};
ghost use Rattle.meaning.specs.Columns.{object_width, component_width};
ghost use Rattle.meaning.specs.Layouts.{layout_of};
ghost use Rattle.emit.specs.Laid.{Room, Laid};
ghost use Rattle.layout.specs.Rows.{Within};
ghost use Rattle.joint.specs.Joint.{Rows};
ghost use Rattle.merging.specs.Merge as is;
ghost use Rattle.merger.specs.Checked.{Ready};
ghost use Rattle.merger.specs.MergedFile.{answer, answered, joined_of, Enough};

use checks::Verdict;
use joint::Counts;
use numbers::Refusal;

// A refusal's number, which file it is about (1 or 2, or 0 for the merged one), object and component; or 0, or ROOM, and the merged file's length.
#[repr(C)]
#[derive(Clone, Copy)]
pub struct Merged {
    pub number: u64,
    pub file: u64,
    pub object: u64,
    pub component: u64,
    pub length: u64,
}

fn told(number: u64, file: u64, object: u64, component: u64, length: u64) -> Merged
    ensures { result ≡ answer number file object component length }
{
    Merged {
        number: number,
        file: file,
        object: object,
        component: component,
        length: length,
    }
}

// The file by both files' rows; its length. The root's attributes are the first's if it has any, else the second's.
fn join(
    out: &mut [u8],
    first: &[u8],
    rows: &[u64],
    v: Verdict,
    second: &[u8],
    others: &[u64],
) -> usize
    requires within { Within first.now v.place v.size × Within second.now v.other v.rest × (v.objects ≤ 1024) × (v.others ≤ 1024) }
    requires rows { Rows first.now rows.now v.objects v.components 8 × Rows second.now others.now v.others v.parts v.turn }
    requires room { Room (joined_of first.now rows.now v second.now others.now) 0 out.old }
    ensures { Laid (joined_of first.now rows.now v second.now others.now) 0 out.old out.new result }
{
    let (file, place, size) = if rows::absent(v.place, v.size) {
        (second, v.other, v.rest)
    } else {
        (first, v.place, v.size)
    };
    joint::both(
        out,
        file,
        place,
        size,
        first,
        rows,
        second,
        others,
        Counts {
            objects: v.objects,
            components: v.components,
            others: v.others,
            parts: v.parts,
            turn: v.turn,
        },
    )
}

// Both files' rows, the second's behind the first's, and the file by them.
fn lay(
    one: u64,
    first: &[u8],
    two: u64,
    second: &[u8],
    rows: &mut [u64],
    out: &mut [u8],
    v: Verdict,
)
    requires { Ready one first.now two second.now v × Enough v rows.old out.old }
    ensures { (out.new ≡ is.merge_output out.old (is.merge (layout_of one) first.now (layout_of two) second.now (length rows.old) (length out.old))) × (length rows.new ≡ length rows.old) }
{
    let cut = columns::OBJECT * v.objects as usize + columns::COMPONENT * v.components as usize;
    reader::into::read_as(one, first, rows);
    reader::into::read_as(two, second, &mut rows[cut..]);
    join(out, first, &rows[0..], v, second, &rows[cut..]);
}

// The merged file fits the output, and its rows, of so many objects and components, the lent ones.
fn fits(rows: usize, out: usize, objects: u64, components: u64, long: u64) -> bool
    ensures { result ≡ leb long out && leb (object_width * objects + component_width * components) rows }
{
    if (out as u64) < long {
        return false;
    }
    columns::holds(rows, objects, components)
}

// Refused, or short of room: the rows are cleared all the same.
pub fn merge(
    one: u64,
    first: &[u8],
    two: u64,
    second: &[u8],
    rows: &mut [u64],
    out: &mut [u8],
) -> Merged
    ensures answer { result ≡ answered (is.merge (layout_of one) first.now (layout_of two) second.now (length rows.old) (length out.old)) }
    ensures output { out.new ≡ is.merge_output out.old (is.merge (layout_of one) first.now (layout_of two) second.now (length rows.old) (length out.old)) }
    ensures cleared { rows.new ≡ is.merge_rows rows.old }
{
    match checks::checked(one, first, two, second) {
        Err(fault) => {
            account::clear(rows);
            told(
                u64::from(fault.refusal),
                fault.file,
                fault.object as u64,
                fault.component as u64,
                0,
            )
        }
        Ok(v) => {
            let objects = v.objects + v.others;
            let components = v.components + v.parts;
            if !fits(rows.len(), out.len(), objects, components, v.long) {
                account::clear(rows);
                return told(Refusal::Room as u64, 0, 0, 0, v.long);
            }
            lay(one, first, two, second, rows, out, v);
            account::clear(rows);
            told(0, 0, 0, 0, v.long)
        }
    }
}
