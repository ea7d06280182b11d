// Whether a name of one file stands in another: the first's names are sorted, the second's sought, n log n comparisons at most. Places and lengths of the first's n names stand in the
// table, two numbers for each, and then those of the second's k.
#![tactic(auto)]

ghost use Rattle.std.specs.Prelude.{◌≡◌, ◌+◌, ◌*◌, ◌≤◌, length};
ghost use Rattle.names.specs.Names.{listed};
ghost use Rattle.matching.specs.Named.{named};
ghost use Rattle.unshared.specs.Unshared.{none_of};

use matching::Names;

// None of the second's names is one of the first's.
pub fn unshared(first: &[u8], second: &[u8], table: &[u64], n: usize, k: usize) -> bool
    requires { (n + k ≤ 1024) × (2 * (n + k) ≤ length table.now) }
    ensures { result ≡ none_of (listed (named first.now table.now 0 2) 0 n) (listed (named second.now table.now 0 2) n k) }
{
    let mut numbers = [0u16; 1024];
    let ours = Names::<2> {
        file: first,
        table,
        first: 0,
        count: n,
    };
    let sorted = ours.sort(&mut numbers);
    let all = Names::<2> {
        file: second,
        table,
        first: 0,
        count: n + k,
    };
    for i in n..n + k {
        if sorted.find(all.name(i)).is_some() {
            return false;
        }
    }
    true
}
