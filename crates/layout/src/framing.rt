// The manifest, and the whole file around it.
ghost use Rattle.std.specs.Prelude.{◌*◌};
ghost use Rattle.rows.specs.Turns.{begun};
ghost use Rattle.emit.specs.Laid.{Room, Laid};
ghost use Rattle.layout.specs.Pieces as is;
ghost use Rattle.layout.specs.Rows.{Within, ObjectRows, WholeRows};

use crate::components::blobs_at;
use crate::fields::{map_field, optional_item, presence};
use crate::objects::objects_at;
use emit::{head_at, magic_at, size_and_footer_at, text_at};
use sizes::placing::first_turn;

// The root's fields, up to its objects.
pub fn root(out: &mut [u8], buffer: &[u8], objects: u64, place: u64, size: u64) -> usize
    requires within { Within buffer.now place size }
    requires room { Room (is.root_front buffer.now objects place size) 0 out.old }
    ensures { Laid (is.root_front buffer.now objects place size) 0 out.old out.new result }
{
    let a = head_at(out, 0, 5, 2 + presence(place, size));
    let b = text_at(out, a, b"version");
    let c = text_at(out, b, b"1.2.0");
    let d = optional_item(out, c, b"attributes", buffer, place, size);
    map_field(out, d, b"objects", objects)
}

// The manifest over the front of a lent part; its length.
fn manifest(
    out: &mut [u8],
    buffer: &[u8],
    plan: &[u64],
    rows: &[u64],
    objects: u64,
    first: usize,
    place: u64,
    size: u64,
) -> usize
    requires within { Within buffer.now place size }
    requires object_rows { ObjectRows buffer.now plan.now rows.now objects 0 first (begun plan.now) }
    requires room { Room (is.manifest_from buffer.now plan.now rows.now objects first place size) 0 out.old }
    ensures { Laid (is.manifest_from buffer.now plan.now rows.now objects first place size) 0 out.old out.new result }
{
    let past = root(out, buffer, objects, place, size);
    let turn = first_turn(plan);
    objects_at(out, past, buffer, plan, rows, objects, first, turn)
}

// Header, blobs, manifest, size, footer.
pub fn whole(
    out: &mut [u8],
    buffer: &[u8],
    plan: &[u64],
    rows: &[u64],
    objects: u64,
    components: u64,
    place: u64,
    size: u64,
) -> usize
    requires whole_rows { WholeRows buffer.now plan.now rows.now objects components place size }
    requires room { Room (is.whole_of buffer.now plan.now rows.now objects components place size) 0 out.old }
    ensures { Laid (is.whole_of buffer.now plan.now rows.now objects components place size) 0 out.old out.new result }
{
    let first = columns::OBJECT * objects as usize;
    let turn = first_turn(plan);
    let start = magic_at(out, 0);
    let end = blobs_at(out, start, buffer, plan, rows, components, first, turn);
    let n = manifest(
        &mut out[end..],
        buffer,
        plan,
        rows,
        objects,
        first,
        place,
        size,
    );
    size_and_footer_at(out, end + n, n as u64)
}
