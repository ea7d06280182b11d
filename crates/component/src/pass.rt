// Passing over the entries of a component's map.
ghost use Rattle.std.specs.Prelude.{◌≡◌, ◌≤◌, length};
ghost use Rattle.meaning.specs.Layouts.{layout_of};
ghost use Rattle.cbor.specs.Ending.{code, rest};
ghost use Rattle.fields.specs.Slots.{SlotIs};
ghost use Rattle.component.specs.Verdict.{Placed};
ghost use Rattle.walk.specs.Places.{Modes};

use walk::Entry;

// The slot of the key that begins s.
fn slot(layout: u64, s: &[u8]) -> usize
    ensures { (result ≤ 8) × SlotIs (layout_of layout).component s.now result }
{
    let Some(letters) = walk::text(&s[0..]) else {
        return 8;
    };
    let at = letters.at;
    let e = at + letters.size;
    types::component_key(layout, &s[at..e])
}

// Entries that begin s, counted as `walk::map` says: where they end. The places of the known fields are left in p.
pub fn entries(layout: u64, s: &[u8], mode: u64, count: u64, p: &mut [usize]) -> usize
    requires { (length p.old ≡ 10) × Modes mode count }
    ensures { (result ≡ code (rest mode count 27 s.now)) × Placed (layout_of layout) mode count s.now p.old p.new }
{
    let mut at = 0;
    let mut due = count;
    loop {
        match walk::past_key(&s[at..], mode, due, numbers::IN_COMPONENT) {
            Entry::End(e) => {
                if s.len() - at < e {
                    return e;
                }
                return at + e;
            }
            Entry::Value(k) => {
                let v = at + k;
                let e = cbor::skip(&s[v..], numbers::IN_COMPONENT);
                if s.len() - v < e {
                    return e;
                }
                fields::mark(p, 7, slot(layout, &s[at..]), s.len() - v);
                at = v + e;
                due -= 2;
            }
        }
    }
}
