// Where the reading of an item that is refused stops (document 02, Request 08): how many bytes are left at the first byte of the head met; 0 where they ended early.
#![tactic(auto)]

ghost use Rattle.std.specs.Prelude.{◌≡◌, false, ◌<◌, get_or};
ghost use Rattle.cbor.specs.Ending.{holds};
ghost use Rattle.stop.specs.Stop as is;

// A head that is refused: malformed where it stands, or cut off.
fn at_head(s: &[u8]) -> usize
    ensures { result ≡ is.head_left s.now }
{
    if s.len() == 0 {
        return 0;
    }
    if 28 <= cbor::low_of(s[0]) {
        return s.len();
    }
    0
}

// The chunks of an indefinite string, which are refused.
fn at_chunk(s: &[u8], major: u8) -> usize
    requires { is.OfString major }
    ensures { is.ChunksStop major s.now result }
{
    let mut at = 0;
    while at < s.len() {
        let b = s[at];
        if cbor::major_of(b) != major {
            return s.len() - at;
        }
        if 28 <= cbor::low_of(b) {
            return s.len() - at;
        }
        let r = cbor::skip(&s[at..], 1);
        if s.len() - at < r {
            return 0;
        }
        at += r;
    }
    0
}

// An item that is refused and holds no other.
fn at_plain(s: &[u8]) -> usize
    ensures { is.PlainStops s.now result }
{
    if s.len() == 0 {
        return 0;
    }
    let b = s[0];
    if b == 95 {
        return at_chunk(&s[1..], 2);
    }
    if b == 127 {
        return at_chunk(&s[1..], 3);
    }
    if b == 248 {
        if s.len() == 1 {
            return 0;
        }
        return s.len();
    }
    at_head(&s[0..])
}

// An item that holds no other, where a level is left: how many bytes it takes, or how many are left where it is refused.
fn plain(s: &[u8], left: u64) -> Result<usize, usize>
    requires { (0 < left) × (holds (get_or s.now 0 0) ≡ false) }
    ensures { is.Reaches left s.now result }
{
    let r = cbor::skip(&s[0..], left);
    if s.len() < r {
        return Err(at_plain(&s[0..]));
    }
    Ok(r)
}

// What an array, a map or a tag holds that begins with b and has the head h.
fn inside(b: u8, h: cbor::Argued) -> cbor::Holding
    requires { b ≡ 223 → ⊥ }
    ensures { is.Inside b h result }
{
    if 192 <= b {
        return cbor::Holding {
            size: h.size,
            count: 1,
            mode: 0,
        };
    }
    if b == 191 {
        return cbor::Holding {
            size: h.size,
            count: h.value,
            mode: 2,
        };
    }
    if 160 <= b {
        return cbor::Holding {
            size: h.size,
            count: cbor::doubled(h.value),
            mode: 0,
        };
    }
    if b == 159 {
        return cbor::Holding {
            size: h.size,
            count: h.value,
            mode: 1,
        };
    }
    cbor::Holding {
        size: h.size,
        count: h.value,
        mode: 0,
    }
}

// How an item ended that holds no other or whose head is refused, or what it holds. No Result: an item that ends is no fault.
#[derive(Clone, Copy)]
enum Begun {
    Ended(Result<usize, usize>),
    Holds(cbor::Holding),
}

// The item that begins s, up to what it holds, where `left` levels are left.
fn begin(s: &[u8], left: u64) -> Begun
    ensures { is.Begins left s.now result }
{
    if s.len() == 0 {
        return Begun::Ended(Err(0));
    }
    if left == 0 {
        return Begun::Ended(Err(s.len()));
    }
    let b = s[0];
    if b < 128 {
        return Begun::Ended(plain(&s[0..], left));
    }
    if 224 <= b {
        return Begun::Ended(plain(&s[0..], left));
    }
    let h = cbor::head(&s[0..]);
    if s.len() < h.size {
        return Begun::Ended(Err(at_head(&s[0..])));
    }
    if b == 223 {
        return Begun::Ended(Err(s.len()));
    }
    Begun::Holds(inside(b, h))
}

// How many bytes the item takes that begins s, if it holds no other and is well-formed; else more than there are.
fn light(s: &[u8], left: u64) -> usize
    ensures { is.Light left s.now result }
{
    if s.len() == 0 {
        return 1;
    }
    let b = s[0];
    if 128 <= b {
        if b < 224 {
            return cbor::MALFORMED;
        }
    }
    cbor::skip(&s[0..], left)
}

// The item that begins s, where `left` levels are left: how many bytes it takes, or how many are left where it is refused. Whatever is passed is passed once, at whatever level it stands.
pub fn pass(s: &[u8], left: u64) -> Result<usize, usize>
    ensures { is.Reaches left s.now result }
{
    let begun = begin(&s[0..], left);
    match begun {
        Begun::Ended(r) => r,
        Begun::Holds(h) => {
            let mode = h.mode;
            let mut due = h.count;
            let mut at = h.size;
            while 0 < due {
                if s.len() <= at {
                    return Err(0);
                }
                if s[at] == 255 {
                    let end = cbor::broken(mode, due, at);
                    if s.len() < end {
                        return Err(s.len() - at);
                    }
                    return Ok(end);
                }
                let k = light(&s[at..], left - 1);
                if k <= s.len() - at {
                    at += k;
                    due -= 1;
                    continue;
                }
                let next = pass(&s[at..], left - 1)?;
                at += next;
                due -= 1;
            }
            Ok(at)
        }
    }
}
