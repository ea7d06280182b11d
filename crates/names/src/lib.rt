// Which names differ, for names that lie in one buffer and are listed by two arrays of numbers: for each, the bytes left at its first byte, and its
// length. A table of digests answers for most lists; else the names are sought by halving among the earlier ones, n log n comparisons at most.
#![tactic(auto)]

mod named;
mod sorted;
mod tabled;

ghost use Rattle.std.specs.Prelude.{◌≡◌, true, ◌≤◌, length};
ghost use Rattle.meaning.specs.Text as meant;
ghost use Rattle.names.specs.Names.{name, listed, Copy, Leading};

use named::name_of;
use sorted::differ_by_order;
pub use sorted::insert;
use tabled::differ_by_digest;

// The name x is that of an earlier one.
fn is_copy(m: &[u8], left: &[usize], size: &[usize], x: usize) -> bool
    ensures { result ≡ true → Copy (name m.now left.now size.now) x }
{
    for i in 0..x {
        if text::same(name_of(m, left, size, i), name_of(m, left, size, x)) {
            return true;
        }
    }
    false
}

// How many of the n names, at most 65,536, differ from each other, from the left: the leftmost second copy has this number, and there is none where it is n.
// ix is room for the work, n places or more.
pub fn leading(m: &[u8], left: &[usize], size: &[usize], n: usize, ix: &mut [u16]) -> usize
    requires { (n ≤ length ix.old) × (n ≤ 65536) }
    ensures { Leading (name m.now left.now size.now) n result }
{
    if 16 < n {
        let k = differ_by_digest(m, left, size, n);
        if k == n {
            return n;
        }
        if is_copy(m, left, size, k) {
            return k;
        }
    }
    differ_by_order(m, left, size, n, ix)
}

// No name stands twice among the n, at most 65,536. ix is room for the work, n places or more.
pub fn no_twice(m: &[u8], left: &[usize], size: &[usize], n: usize, ix: &mut [u16]) -> bool
    requires { (n ≤ length ix.old) × (n ≤ 65536) }
    ensures { result ≡ meant.distinct (listed (name m.now left.now size.now) 0 n) }
{
    leading(m, left, size, n, ix) == n
}
