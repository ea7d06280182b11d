// What the reader asks of names that stand in rows: UTF-8, count, repeats.
ghost use Rattle.std.specs.Prelude.{◌≡◌, ◌*◌, ◌≤◌, length};
ghost use Rattle.readback.specs.Judged.{judged_names};
ghost use Rattle.numbers.specs.Answered.{answered};
ghost use Rattle.foresee.specs.Names.{names_of, NotedOr};

use numbers::Refusal;
use view::part;

// Notes the names of n rows of a width in left and size, as far as there is room, and as far as they are UTF-8.
fn note(
    rows: &[u64],
    width: usize,
    n: usize,
    buffer: &[u8],
    left: &mut [usize],
    size: &mut [usize],
) -> bool
    requires { (2 ≤ width) × (width * n ≤ length rows.now) × (length size.old ≡ length left.old) }
    ensures { (length left.new ≡ length left.old) × NotedOr buffer.now (names_of buffer.now width n rows.now) left.new size.new result }
{
    for i in 0..n {
        let at = width * i;
        let place = rows[at];
        let k = rows[at + columns::NAME_LENGTH];
        if !utf8::utf8(part(buffer, place, k)) {
            return false;
        }
        naming::put(left, i, buffer.len().saturating_sub(place as usize));
        naming::put(size, i, k as usize);
    }
    true
}

// The first fault of the names of n rows; left and size have room for as many as are allowed, ix for the work.
pub fn names(
    rows: &[u64],
    width: usize,
    n: usize,
    buffer: &[u8],
    left: &mut [usize],
    size: &mut [usize],
    ix: &mut [u16],
) -> Result<(), Refusal>
    requires { (2 ≤ width) × (width * n ≤ length rows.now) × (length size.old ≡ length left.old) × (length left.old ≤ length ix.old) × (length left.old ≤ 65536) }
    ensures { judged_names (length left.old) (names_of buffer.now width n rows.now) ≡ answered result }
{
    if !note(rows, width, n, buffer, left, size) {
        return Err(Refusal::Text);
    }
    if left.len() < n {
        return Err(Refusal::Count);
    }
    if names::no_twice(buffer, left, size, n, ix) {
        return Ok(());
    }
    Err(Refusal::Twice)
}
