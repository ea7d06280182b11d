// A row's numbers by name (document 01, "The table and the view", and Request 12 of document 02), and whether rows lie in a table and a range in its bytes. Every width and column of the code stands here and
// nowhere else; the definitions have theirs in `meaning`. A range takes two columns: its place, and after it its length.
#![tactic(auto)]

ghost use Rattle.std.specs.Prelude.{◌≡◌, ◌+◌, ◌*◌, leb};
ghost use Rattle.meaning.specs.Columns.{object_width, component_width};

// How many numbers an object's row takes, and a component's.
pub const OBJECT: usize = 16;

pub const COMPONENT: usize = 12;

// The same, for counts of 64 bits.
pub const OBJECT_64: u64 = OBJECT as u64;

pub const COMPONENT_64: u64 = COMPONENT as u64;

// Of an object's row and of a component's alike.
pub const NAME: usize = 0;

pub const NAME_LENGTH: usize = NAME + 1;

// Of an object's row: after the rank eight dimensions, the first of them at `SHAPE`; `COUNT` is how many components it has.
pub const RANK: usize = 2;

pub const SHAPE: usize = 3;

pub const FORMAT: usize = 11;

pub const FORMAT_LENGTH: usize = FORMAT + 1;

pub const ATTRIBUTES: usize = 13;

pub const ATTRIBUTES_LENGTH: usize = ATTRIBUTES + 1;

pub const COUNT: usize = 15;

// Of a component's row: where its bytes lie is `OFFSET` and `LENGTH`; `OWNER` is its object's index, `ENTRY` its map in the manifest.
pub const DTYPE: usize = 2;

pub const TYPE: usize = 3;

pub const TYPE_LENGTH: usize = TYPE + 1;

pub const OFFSET: usize = 5;

pub const LENGTH: usize = OFFSET + 1;

pub const DIGEST: usize = 7;

pub const DIGEST_LENGTH: usize = DIGEST + 1;

pub const OWNER: usize = 9;

pub const ENTRY: usize = 10;

pub const ENTRY_LENGTH: usize = ENTRY + 1;

// n numbers hold the rows of so many objects and components. Compared by division, so that no product wraps.
pub fn holds(n: usize, objects: u64, components: u64) -> bool
    ensures { result ≡ leb (object_width * objects + component_width * components) n }
{
    let room = n as u64;
    objects <= room / OBJECT_64 && components <= (room - OBJECT_64 * objects) / COMPONENT_64
}

// A range of n bytes. Its end is never summed, so it can't wrap.
pub fn inside(n: usize, place: u64, size: u64) -> bool
    ensures { result ≡ leb (place + size) n }
{
    let room = n as u64;
    place <= room && size <= room - place
}
