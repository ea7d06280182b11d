// An entry of eight numbers into a lent list, from `at` on, as far as it fits. Answers the place past it.
#![tactic(auto)]

ghost use Rattle.std.specs.Prelude.{◌≡◌, ◌+◌, [], ◌∷◌};
ghost use Rattle.put.specs.Wrote.{Wrote, capped};

// The place n numbers on.
pub fn past(at: usize, n: usize) -> usize
    ensures { result ≡ capped (at + n) }
{
    put::capped_place(at.saturating_add(n))
}

// As `put::byte` does for a u8: `Wrote` is of lists of numbers, so one function over any T couldn't state it.
fn number(list: &mut [u64], at: usize, x: u64) -> usize
    ensures { Wrote (x ∷ []) at list.old list.new result }
{
    if at < list.len() {
        list[at] = x;
    }
    past(at, 1)
}

// An entry's numbers: kind, the objects' and the components' numbers, what differs, the position and the count.
pub fn entry(list: &mut [u64], at: usize, numbers: [u64; 8]) -> usize
    ensures { Wrote numbers at list.old list.new result }
{
    let mut past = at;
    for x in numbers {
        past = number(list, past, x);
    }
    put::capped_place(past)
}
