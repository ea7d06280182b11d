// Keys, then repeats, of a map with known fields: the first check that breaks, and where (document 02, Request 08).
#![tactic(auto)]

ghost use Rattle.std.specs.Prelude.{◌≡◌, ◌+◌, length, replicate};
ghost use Rattle.keys.specs.Odd.{slots_at};
ghost use Rattle.badfields.specs.Fields as is;
ghost use Rattle.spot.specs.Shown.{told};
ghost use Rattle.walk.specs.Places.{Modes};

use numbers::Refusal;
use spot::{Spot, at};

// Entries that begin s, counted as `walk::map` says, of a map at this level (keys::entries), whose keys and values have `left` levels left. The places of the
// known fields are left in p.
pub fn first(
    layout: u64,
    level: u64,
    left: u64,
    s: &[u8],
    mode: u64,
    count: u64,
    p: &mut [usize],
) -> Result<(), Spot>
    requires { (p.old ≡ replicate (length (slots_at layout level) + 3) 0) × Modes mode count }
    ensures { is.FirstIs (slots_at layout level) left mode count s.now p.new (told result) }
{
    let odd = keys::entries(layout, level, left, &s[0..], mode, count, p);
    if odd.key != 0 {
        return Err(at(Refusal::Key, odd.key));
    }
    if odd.again != 0 {
        return Err(at(Refusal::Twice, odd.again));
    }
    Ok(())
}
