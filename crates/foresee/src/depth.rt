// Whether attributes get too deep for their place.
ghost use Rattle.std.specs.Prelude.{◌≡◌, List, ◌*◌, ◌≤◌, length};
ghost use Rattle.meaning.specs.Columns.{object_width};
ghost use Rattle.meaning.specs.Asked.{present_at, each_row, asked_object, AskedComponent};
ghost use Rattle.meaning.specs.Described.{described_objects};
ghost use Rattle.readback.specs.Judged.{deep_option, any_too_deep};

use rows::absent;
use view::part;

pub fn deep(buffer: &[u8], place: u64, size: u64, levels: u64) -> bool
    ensures { result ≡ deep_option levels (present_at buffer.now (record { place = place; size = size })) }
{
    !absent(place, size) && cbor::skip(part(buffer, place, size), levels) == cbor::DEEP
}

// Those of any of n objects.
pub fn any_deep(rows: &[u64], n: usize, buffer: &[u8]) -> bool
    requires { object_width * n ≤ length rows.now }
    ensures { (cs : List AskedComponent) → result ≡ any_too_deep (described_objects buffer.now (each_row asked_object object_width n rows.now) cs) }
{
    for i in 0..n {
        let at = columns::OBJECT * i;
        if deep(
            buffer,
            rows[at + columns::ATTRIBUTES],
            rows[at + columns::ATTRIBUTES_LENGTH],
            numbers::IN_OBJECT,
        ) {
            return true;
        }
    }
    false
}
