// A whole number below 2^416 in thirteen limbs of 32 bits, the lowest first.
ghost use Rattle.std.specs.Prelude.{◌≡◌, ◌+◌, ◌*◌, ◌<◌, ◌≤◌, leb};
ghost use Rattle.decimal.specs.Limbs as is;
ghost use Rattle.decimal.specs.Limbs.{Limbs, value};

pub const LIMBS: usize = 13;

// The number times c, which has to fit.
pub fn times(a: &mut [u64; 13], c: u64)
    requires { (0 < c) × ((c < 4294967296) × (Limbs a.old × (c * value a.old < is.most))) }
    ensures { Limbs a.new × (value a.new ≡ c * value a.old) }
{
    let mut carry = 0u64;
    for limb in a.iter_mut() {
        let t = *limb * c + carry;
        *limb = t % 4294967296;
        carry = t / 4294967296;
    }
}

// A tenth of the number, and what is left over.
pub fn tenth(a: &mut [u64; 13]) -> u64
    requires { Limbs a.old }
    ensures { Limbs a.new × ((value a.old ≡ 10 * value a.new + result) × (result < 10)) }
{
    let mut rest = 0u64;
    for i in (0..13).rev() {
        let t = rest * 4294967296 + a[i];
        a[i] = t / 10;
        rest = t % 10;
    }
    rest
}

// Is the number, in units of 2^-96, a billion or more?
pub fn large(a: &[u64; 13]) -> bool
    requires { Limbs a.now }
    ensures { result ≡ leb is.billion (value a.now) }
{
    for i in 4..13 {
        if a[i] != 0 {
            return true;
        }
    }
    a[3] >= 1000000000
}

// The whole number nearest to it in those units, of two the even one; left is 1 where the number is slightly more than a says.
pub fn nearest(a: &[u64; 13], left: u64) -> u64
    requires { Limbs a.now × ((value a.now < is.billion) × (left < 2)) }
    ensures { result ≡ is.near (value a.now) left }
{
    let whole = a[3];
    let part = a[2];
    if part < 2147483648 {
        return whole;
    }
    if part == 2147483648 {
        if a[1] + a[0] + left == 0 {
            return whole + whole % 2;
        }
        return whole + 1;
    }
    whole + 1
}
