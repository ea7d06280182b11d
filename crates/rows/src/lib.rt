// Which rows are sound for the writer (document 01, "The writer"; all others are ROW): for any rows, any counts, any root attributes and any buffer.
#![tactic(auto)]

mod judge;
mod owned;

ghost use Rattle.std.specs.Prelude.{◌≡◌, ◌&&◌, eqb};
ghost use Rattle.meaning.specs.Sound as is;

// A range at 0 and 0 is absent.
pub fn absent(place: u64, size: u64) -> bool
    ensures { result ≡ eqb place 0 && eqb size 0 }
{
    place == 0 && size == 0
}

pub fn sound(
    rows: &[u64],
    objects: u64,
    components: u64,
    place: u64,
    size: u64,
    buffer: &[u8],
) -> bool
    ensures { result ≡ is.rows_sound buffer.now rows.now objects components (record { place = place; size = size }) }
{
    if !columns::holds(rows.len(), objects, components) {
        return false;
    }
    let first = (columns::OBJECT_64 * objects) as usize;
    owned::in_order(rows, &rows[first..], objects, components)
        && judge::attributes(buffer, place, size, numbers::IN_ROOT)
        && judge::objects(buffer, rows, objects)
        && judge::components(buffer, &rows[first..], components)
}
