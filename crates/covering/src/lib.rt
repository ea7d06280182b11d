// How many positions ranges cover, overlapping in any way. A range is two numbers: where it begins, and the position past its last.
// They are ordered in place by where they begin, and counted in one sweep.
#![tactic(auto)]

pub mod order;

ghost use Rattle.std.specs.Prelude.{◌≡◌, ◌+◌, ◌%◌, ◌^◌, ◌≤◌, ◌<◌, length};
ghost use Rattle.covering.specs.Ranges as is;
ghost use Rattle.covering.specs.Order.{Begin, End};
ghost use Rattle.covering.specs.Sweep as sweep;

// Ranges in order.
fn sweep(a: &[u64]) -> u64
    requires { (length a.now % 2 ≡ 0) × (sweep.swept 0 a.now < 2 ^ 64) }
    ensures { result ≡ sweep.swept 0 a.now }
{
    let mut sum = 0u64;
    let mut reach = 0u64;
    let mut i = 0usize;
    while i < a.len() {
        let past = a[i + 1];
        let begins = reach.max(a[i]);
        i += 2;
        if begins < past {
            sum += past - begins;
            reach = past;
        }
    }
    sum
}

// The positions below `end` that are covered; where the ranges lay they lie in order afterwards.
pub fn inside(a: &mut [u64], end: u64) -> u64
    requires { (Begin 0 (end + 1) a.old) × ((End end a.old) × (end + 1 < 2 ^ 64)) }
    ensures { (result ≡ is.inside a.old end) × (length a.new ≡ length a.old) }
{
    order::order(a, 0, end + 1);
    sweep(&a[0..])
}
