// How many bytes one head, text or field takes.
ghost use Rattle.std.specs.Prelude.{◌≡◌, ◌+◌, ◌*◌, ◌≤◌, ◌<◌, length, drop, take, get_or};
ghost use Rattle.meaning.specs.Columns.{object_width, rank_column, shape_column};
ghost use Rattle.meaning.specs.Types.{storage_of};
ghost use Rattle.sizes.specs.Size as is;

// The length of each storage's name: a hexadecimal digit for each code, the lowest for 0.
const NAMES: u64 = 0x4_2333_2333_4333;

pub fn capped(n: u64) -> u64
    ensures { result ≡ is.capped n }
{
    n.min(numbers::MANIFEST_MOST + 1)
}

pub fn head(n: u64) -> u64
    ensures { result ≡ is.head_size n }
{
    match n {
        0..=23 => 1,
        24..=255 => 2,
        256..=65_535 => 3,
        65_536..=4_294_967_295 => 5,
        _ => 9,
    }
}

pub fn text(n: u64) -> u64
    ensures { result ≡ is.capped (is.text_size n) }
{
    capped(head(n) + capped(n))
}

// A text under a key that takes so many bytes.
pub fn optional_text(key: u64, place: u64, size: u64) -> u64
    requires { key ≤ 7 }
    ensures { result ≡ is.capped (is.optional_text key (record { place = place; size = size })) }
{
    if rows::absent(place, size) {
        return 0;
    }
    capped(key + text(size))
}

// With their key.
pub fn attributes(place: u64, size: u64) -> u64
    ensures { result ≡ is.capped (is.optional_copy 11 (record { place = place; size = size })) }
{
    if rows::absent(place, size) {
        return 0;
    }
    capped(11 + capped(size))
}

// How long a storage's name is.
pub fn called(dtype: u64) -> u64
    ensures { (result ≡ length (storage_of dtype).called) × (result < 16) }
{
    if dtype < 13 {
        return (NAMES >> (4 * dtype)) % 16;
    }
    0
}

// The shape of the object whose row these numbers begin with, without the head of its list.
pub fn dimensions(row: &[u64]) -> u64
    requires object_width_in_bounds { object_width ≤ length row.now }
    requires rank_column_bound { get_or row.now rank_column 0 ≤ 8 }
    ensures { (result ≡ is.dimensions_size (take (get_or row.now rank_column 0) (drop shape_column row.now))) × (result ≤ 72) }
{
    let end = columns::SHAPE + row[columns::RANK] as usize;
    let shape = &row[columns::SHAPE..end];
    let mut total = 0;
    for n in shape {
        total += head(*n);
    }
    total
}
