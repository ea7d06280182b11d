// Where the known fields of a map stand, noted in a lent array of slots while the map is passed over. A place is the number of bytes left there, 0 for none:
// slots 0 to N - 1 for the N places of a layout's list, N for an unknown name, N + 1 for a key that isn't whole text, N + 2 for a known field again.
#![tactic(auto)]

ghost use Rattle.std.specs.Prelude.{◌≡◌, ◌+◌, ◌-◌, ◌≤◌, length};
ghost use Rattle.fields.specs.Slots.{marked};
ghost use Rattle.fields.specs.Attributes.{AttributesAt};

// Notes at slot k that a value has `left` bytes left. The first value of a known field stays.
pub fn mark(p: &mut [usize], known: usize, k: usize, left: usize)
    requires { (known + 3 ≤ length p.old) × (k ≤ known + 1) }
    ensures { p.new ≡ marked known p.old k left }
{
    if known <= k {
        p[k] = left;
        return;
    }
    if p[k] == 0 {
        p[k] = left;
        return;
    }
    let again = known + 2;
    p[again] = left;
}

// Where the last `left` of `len` bytes begin.
pub fn place_of(len: usize, left: usize) -> usize
    ensures { result ≡ len - left }
{
    if left <= len { len - left } else { 0 }
}

// Are the attributes a map, where `left` bytes of s are left, or absent?
pub fn attributes(s: &[u8], left: usize) -> bool
    ensures { AttributesAt s.now left result }
{
    if left == 0 {
        return true;
    }
    let at = place_of(s.len(), left);
    walk::map(&s[at..]).is_some()
}
