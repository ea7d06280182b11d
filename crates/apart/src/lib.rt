// Two runs of bytes: the first position at which they differ, and at how many they do. Both go a block of bytes at a time. Positions past the end of the shorter one differ.
#![tactic(auto)]

ghost use Rattle.std.specs.Prelude.{◌≡◌, not, ◌≤◌, eqb};
ghost use Rattle.changes.specs.Changes.{bit};
ghost use Rattle.apart.specs.Positions.{told, many_apart, block, Both, Passed, Run, Rest};
ghost use Rattle.text.specs.Order.{Agree};

// 0 and 0 if they are equal.
#[derive(Clone, Copy)]
pub struct Apart {
    pub position: u64,
    pub count: u64,
}

// How many bytes are compared at once: in a loop of fixed length that counts in a u8, of which the compiler makes steps of sixteen bytes.
const BLOCK: usize = 128;

fn differ(a: u8, b: u8) -> u8
    ensures { (result ≡ bit 1 (not (eqb a b))) × (result ≤ 1) }
{
    u8::from(a != b)
}

// How many of the bytes of the first block differ.
fn of_block(x: &[u8], y: &[u8]) -> u8
    requires { Both x.now y.now block }
    ensures { (result ≡ many_apart x.now y.now block) × (result ≤ block) }
{
    let mut count: u8 = 0;
    for i in 0..BLOCK {
        count += differ(x[i], y[i]);
    }
    count
}

// Equal blocks passed, from the front.
fn run_of_blocks(x: &[u8], y: &[u8], n: usize) -> usize
    requires { Both x.now y.now n }
    ensures { Passed x.now y.now n result }
{
    let mut i: usize = 0;
    while BLOCK <= n - i {
        if of_block(&x[i..], &y[i..]) != 0 {
            return i;
        }
        i += BLOCK;
    }
    i
}

// How many of the first n bytes are passed before one differs.
fn run(x: &[u8], y: &[u8], n: usize) -> usize
    requires { Both x.now y.now n }
    ensures { Run x.now y.now n result }
{
    for i in run_of_blocks(x, y, n)..n {
        if x[i] != y[i] {
            return i;
        }
    }
    n
}

// How many of the first n bytes differ, where those before `from` agree.
fn differing(x: &[u8], y: &[u8], n: usize, from: usize) -> u64
    requires { Both x.now y.now n × (from ≤ n) × Agree x.now y.now from }
    ensures { (result ≡ many_apart x.now y.now n) × (result ≤ n) }
{
    let mut count: u64 = 0;
    let mut i = from;
    // The index moves by a block or by a byte, so a `for` is no plainer.
    while i < n {
        if n - i < BLOCK {
            count += differ(x[i], y[i]) as u64;
            i += 1;
            continue;
        }
        count += of_block(&x[i..], &y[i..]) as u64;
        i += BLOCK;
    }
    count
}

// The first n bytes are those that both have, and `more` only the longer one has.
fn compared(x: &[u8], y: &[u8], n: usize, more: usize) -> Apart
    requires { Rest x.now y.now n more }
    ensures { result ≡ told x.now y.now }
{
    let at = run(x, y, n);
    if n <= at {
        if more == 0 {
            return Apart {
                position: 0,
                count: 0,
            };
        }
    }
    let count = differing(x, y, n, at);
    Apart {
        position: at as u64,
        count: count + more as u64,
    }
}

pub fn of_bytes(x: &[u8], y: &[u8]) -> Apart
    ensures { result ≡ told x.now y.now }
{
    if x.len() < y.len() {
        return compared(x, y, x.len(), y.len() - x.len());
    }
    compared(x, y, y.len(), x.len() - y.len())
}
