// The nine digits of a number, and the place of the last.
ghost use Rattle.std.specs.Prelude.{◌≡◌, ◌+◌, ◌*◌, ◌^◌, ◌<◌, ◌≤◌};
ghost use Rattle.decimal.specs.Limbs.{Limbs, value};
ghost use Rattle.decimal.specs.Decimal as is;

use crate::big;

// digits * 10^(place - 53)
#[derive(Clone, Copy)]
pub struct Decimal {
    pub digits: u64,
    pub place: u64,
}

// m * 5^53, where m is below 2^24
fn fives(a: &mut [u64; 13])
    requires { Limbs a.old × (value a.old < 16777216) }
    ensures { Limbs a.new × (value a.new ≡ 5 ^ 53 * value a.old) }
{
    big::times(a, 1220703125);
    big::times(a, 1220703125);
    big::times(a, 1220703125);
    big::times(a, 1220703125);
    big::times(a, 5);
}

// that times 2^j
fn twos(a: &mut [u64; 13], j: u64)
    requires { Limbs a.old × ((value a.old < 16777216 * 5 ^ 53) × (j < 254)) }
    ensures { Limbs a.new × (value a.new ≡ 2 ^ j * value a.old) }
{
    let mut k = j;
    while 16 <= k {
        big::times(a, 65536);
        k -= 16;
    }
    while 0 < k {
        big::times(a, 2);
        k -= 1;
    }
}

// 1 once a digit that isn't 0 was left over.
fn noted(left: u64, digit: u64) -> u64
    ensures { (digit ≡ 0 → result ≡ left) × ((digit ≡ 0 → ⊥) → result ≡ 1) }
{
    if digit == 0 { left } else { 1 }
}

// The number m * 2^j, in units of 2^-149.
pub fn nine(m: u64, j: u64) -> Decimal
    requires { (m < 16777216) × (j < 254) }
    ensures { result ≡ is.decimal (m * 2 ^ j) }
{
    let mut a = [0u64; 13];
    a[0] = m;
    fives(&mut a);
    twos(&mut a, j);
    let mut place = 0u64;
    let mut left = 0u64;
    while big::large(&a) {
        let digit = big::tenth(&mut a);
        left = noted(left, digit);
        place += 1;
    }
    let d = big::nearest(&a, left);
    if d == 1000000000 {
        return Decimal {
            digits: 100000000,
            place: place + 1,
        };
    }
    Decimal { digits: d, place }
}
