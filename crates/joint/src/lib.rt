// Two files in one, laid by the writer's loops: header, the first's blobs and then the second's, one manifest for both, size, footer.
#![tactic(auto)]

ghost use Rattle.std.specs.Prelude.{[], ◌*◌, ◌≤◌};
ghost use Rattle.meaning.specs.Columns.{object_width};
ghost use Rattle.emit.specs.Laid.{Room, Laid};
ghost use Rattle.layout.specs.Rows.{Within, ObjectRows};
ghost use Rattle.joint.specs.Joint.{Rows};
ghost use Rattle.joint.specs.Joint as is;

use emit::{magic_at, size_and_footer_at};
use layout::components::blobs_at;
use layout::framing::root;
use layout::objects::objects_at;

// How many objects and components the first has, and the second; the second's blobs stand where a turn is reached.
#[derive(Clone, Copy)]
pub struct Counts {
    pub objects: u64,
    pub components: u64,
    pub others: u64,
    pub parts: u64,
    pub turn: u64,
}

// Header, the first's blobs and then the second's; where they end.
fn front(
    out: &mut [u8],
    first: &[u8],
    rows: &[u64],
    second: &[u8],
    others: &[u64],
    counts: Counts,
) -> usize
    requires n_bound { (counts.objects ≤ 1024) × (counts.others ≤ 1024) }
    requires rows { Rows first.now rows.now counts.objects counts.components 8 }
    requires rows_2 { Rows second.now others.now counts.others counts.parts counts.turn }
    requires room { Room (is.front_of first.now rows.now counts.objects counts.components second.now others.now counts.others counts.parts counts.turn) 0 out.old }
    ensures { Laid (is.front_of first.now rows.now counts.objects counts.components second.now others.now counts.others counts.parts counts.turn) 0 out.old out.new result }
{
    let from = columns::OBJECT * counts.objects as usize;
    let then = columns::OBJECT * counts.others as usize;
    let start = magic_at(out, 0);
    let (c, d, turn) = (counts.components, counts.parts, counts.turn);
    let mid = blobs_at(out, start, first, &rows[0..0], rows, c, from, 8);
    blobs_at(out, mid, second, &rows[0..0], others, d, then, turn)
}

// The manifest over the front of a lent part; its length. The root's attributes stand in `attributes`.
fn manifest(
    out: &mut [u8],
    attributes: &[u8],
    place: u64,
    size: u64,
    first: &[u8],
    rows: &[u64],
    second: &[u8],
    others: &[u64],
    counts: Counts,
) -> usize
    requires room { Room (is.manifest_of attributes.now place size first.now rows.now counts.objects second.now others.now counts.others counts.turn) 0 out.old }
    requires within { Within attributes.now place size × (counts.objects ≤ 1024) × (counts.others ≤ 1024) }
    requires object_rows { ObjectRows first.now [] rows.now counts.objects 0 (object_width * counts.objects) 8 }
    requires object_rows_2 { ObjectRows second.now [] others.now counts.others 0 (object_width * counts.others) counts.turn }
    ensures { Laid (is.manifest_of attributes.now place size first.now rows.now counts.objects second.now others.now counts.others counts.turn) 0 out.old out.new result }
{
    let from = columns::OBJECT * counts.objects as usize;
    let then = columns::OBJECT * counts.others as usize;
    let (n, k, turn) = (counts.objects, counts.others, counts.turn);
    let a = root(out, attributes, n + k, place, size);
    let b = objects_at(out, a, first, &rows[0..0], rows, n, from, 8);
    objects_at(out, b, second, &rows[0..0], others, k, then, turn)
}

// The whole file, of so many objects and components in the first's rows and in the second's; its length. What lies beyond stays.
pub fn both(
    out: &mut [u8],
    attributes: &[u8],
    place: u64,
    size: u64,
    first: &[u8],
    rows: &[u64],
    second: &[u8],
    others: &[u64],
    counts: Counts,
) -> usize
    requires room { Room (is.whole_of attributes.now place size first.now rows.now counts.objects counts.components second.now others.now counts.others counts.parts counts.turn) 0 out.old }
    requires within { Within attributes.now place size × (counts.objects ≤ 1024) × (counts.others ≤ 1024) }
    requires rows { Rows first.now rows.now counts.objects counts.components 8 }
    requires rows_2 { Rows second.now others.now counts.others counts.parts counts.turn }
    ensures { Laid (is.whole_of attributes.now place size first.now rows.now counts.objects counts.components second.now others.now counts.others counts.parts counts.turn) 0 out.old out.new result }
{
    let end = front(out, first, rows, second, others, counts);
    let m = manifest(
        &mut out[end..],
        attributes,
        place,
        size,
        first,
        rows,
        second,
        others,
        counts,
    );
    size_and_footer_at(out, end + m, m as u64)
}
