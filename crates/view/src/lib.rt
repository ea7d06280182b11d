// One component's part of the file, lent back, and the question where it lies. For any table, any counts and any index: what lies outside is INDEX.
#![tactic(auto)]

ghost use Rattle.std.specs.Prelude.{◌≡◌, ◌+◌, ◌*◌, length, take, drop};
ghost use Rattle.meaning.specs.View as meaning;
ghost use Rattle.view.specs.Extents.{told, found, within};

use numbers::Refusal;

// 0, and where a component lies and how long it is; or INDEX, 0 and 0.
#[repr(C)]
#[derive(Clone, Copy)]
pub struct Extent {
    pub number: u64,
    pub offset: u64,
    pub length: u64,
}

// What lies outside.
const NOWHERE: Extent = Extent {
    number: Refusal::Index as u64,
    offset: 0,
    length: 0,
};

// Where the row of the component `index` begins, where all objects' rows come first, in a table of n numbers. Compared by division, so that no product wraps.
fn row_of(n: usize, objects: u64, components: u64, index: u64) -> Option<usize>
    ensures { result ≡ found n objects components index }
{
    let room = n as u64;
    if components <= index || room / columns::OBJECT_64 < objects {
        return None;
    }
    let first = columns::OBJECT_64 * objects;
    if (room - first) / columns::COMPONENT_64 <= index {
        return None;
    }
    Some((first + columns::COMPONENT_64 * index) as usize)
}

// A range of this place and size, in a file of n bytes.
fn inside(n: usize, place: u64, size: u64) -> Extent
    ensures { result ≡ within n place size }
{
    if columns::inside(n, place, size) {
        return Extent {
            number: 0,
            offset: place,
            length: size,
        };
    }
    NOWHERE
}

// Where the component `index` lies in the file; this tells INDEX from an empty component.
pub fn range(file: &[u8], table: &[u64], objects: u64, components: u64, index: u64) -> Extent
    ensures { result ≡ told (meaning.viewed file.now table.now objects components index) }
{
    match row_of(table.len(), objects, components, index) {
        None => NOWHERE,
        Some(at) => inside(
            file.len(),
            table[at + columns::OFFSET],
            table[at + columns::LENGTH],
        ),
    }
}

// That part of the file, empty for INDEX.
pub fn view<'a>(
    file: &'a [u8],
    table: &[u64],
    objects: u64,
    components: u64,
    index: u64,
) -> &'a [u8]
    ensures { result.now ≡ meaning.view file.now table.now objects components index }
{
    let r = range(file, table, objects, components, index);
    let start = r.offset as usize;
    let end = start + r.length as usize;
    &file[start..end]
}

// As much of that part of the file as there is.
pub fn part<'a>(file: &'a [u8], place: u64, size: u64) -> &'a [u8]
    ensures { result.now ≡ take size (drop place file.now) }
{
    let n = file.len() as u64;
    if n < place {
        return &file[0..0];
    }
    let start = place as usize;
    if n - place < size {
        return &file[start..];
    }
    let end = start + size as usize;
    &file[start..end]
}
