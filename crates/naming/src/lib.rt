// The names of an `objects` or a `components` map: noted one by one as the map is walked, and judged together (document 01, "Order": keys, UTF-8, count, repeats).
// A name is noted by the bytes left at its first letter and by its length; a key that is no name by 0 and 0.
#![tactic(auto)]

ghost use Rattle.std.specs.Prelude.{◌≡◌, ◌+◌, ◌<◌, ◌≤◌, length};
ghost use Rattle.walk.specs.Put.{put};
ghost use Rattle.naming.specs.NotedNames as spec;

use numbers::Refusal;

// How many keys there were, and whether one of them was no whole text, or no UTF-8.
#[derive(Clone, Copy)]
pub struct Tally {
    pub count: usize,
    pub odd: bool,
    pub bad: bool,
}

fn told(count: usize, odd: bool, bad: bool) -> Tally
    ensures { result ≡ spec.tally count odd bad }
{
    Tally {
        count: count,
        odd: odd,
        bad: bad,
    }
}

// Puts x at i, if there is room.
pub fn put(a: &mut [usize], i: usize, x: usize)
    ensures { a.new ≡ put a.old i x }
{
    if i < a.len() {
        a[i] = x;
    }
}

// Notes the key that begins s, after those that t tells of.
pub fn note(s: &[u8], t: Tally, left: &mut [usize], size: &mut [usize]) -> Tally
    requires { t.count < 9223372036854775808 }
    ensures { spec.Noted s.now t left.old size.old result left.new size.new }
{
    match walk::text(&s[0..]) {
        None => {
            put(left, t.count, 0);
            put(size, t.count, 0);
            told(t.count + 1, true, t.bad)
        }
        Some(letters) => {
            let at = letters.at;
            let e = at + letters.size;
            put(left, t.count, s.len() - at);
            put(size, t.count, letters.size);
            if utf8::utf8(&s[at..e]) {
                return told(t.count + 1, t.odd, t.bad);
            }
            told(t.count + 1, t.odd, true)
        }
    }
}

// The names' first fault, in document 01's order; a name alone stands once. ix is room for the work.
pub fn judge(
    m: &[u8],
    t: Tally,
    left: &[usize],
    size: &[usize],
    ix: &mut [u16],
) -> Result<(), Refusal>
    requires { (length left.now ≤ length ix.old) × (length left.now ≤ 65536) }
    ensures { spec.Judged m.now t left.now size.now result }
{
    if t.odd {
        return Err(Refusal::Key);
    }
    if t.bad {
        return Err(Refusal::Text);
    }
    if left.len() < t.count {
        return Err(Refusal::Count);
    }
    if t.count < 2 {
        return Ok(());
    }
    if names::no_twice(&m[0..], &left[0..], &size[0..], t.count, ix) {
        return Ok(());
    }
    Err(Refusal::Twice)
}
