// Names that differ, by their digests: those that are counted do, and of the next nothing is said.
ghost use Rattle.std.specs.Prelude.{◌≡◌, ◌<◌, ◌≤◌};
ghost use Rattle.text.specs.Digest as digests;
ghost use Rattle.names.specs.Names.{name, Differ};
ghost use Rattle.names.specs.Table.{Claimed};

use crate::named::name_of;

// The digest of the name i.
fn digest_of(m: &[u8], left: &[usize], size: &[usize], i: usize) -> u64
    ensures { (result ≡ digests.digest (name m.now left.now size.now i)) × (0 < result) × (result < 4294967296) }
{
    text::digest(name_of(m, left, size, i))
}

// Puts h into the table where it isn't there and has room: in the first that holds 0 of the 64 places from its own on.
fn claim(table: &mut [u32], h: u64) -> bool
    requires { (0 < h) × (h < 4294967296) }
    ensures { Claimed table.old table.new h result }
{
    let g = h as u32;
    let first = (h % 2048) as usize;
    for p in first..table.len().min(first + 64) {
        let o = table[p];
        if o == 0 {
            table[p] = g;
            return true;
        }
        if o == g {
            return false;
        }
    }
    false
}

// The same with a table that is lent. What it holds before doesn't matter to the answer's truth.
fn claimed(m: &[u8], left: &[usize], size: &[usize], n: usize, table: &mut [u32]) -> usize
    ensures { (result ≤ n) × Differ (name m.now left.now size.now) result }
{
    for i in 0..n {
        if !claim(table, digest_of(m, left, size, i)) {
            return i;
        }
    }
    n
}

// So many of the n names, from the left, have digests that differ.
pub fn differ_by_digest(m: &[u8], left: &[usize], size: &[usize], n: usize) -> usize
    ensures { (result ≤ n) × Differ (name m.now left.now size.now) result }
{
    let mut table = [0u32; 2112];
    claimed(m, left, size, n, &mut table)
}
