// The first check that breaks in an object's shape, and where (document 02, Request 08): its kind, each element's, its rank. Every slice runs to the manifest's end;
// a place is the number of bytes left there.
#![tactic(auto)]

ghost use Rattle.std.specs.Prelude.{◌≡◌};
ghost use Rattle.spot.specs.Shown.{told};
ghost use Rattle.badshape.specs.Steps.{ShapeIs};

use numbers::Refusal;
use spot::Spot;
use walk::Opening;

// The shape that begins s.
pub fn shape(s: &[u8]) -> Result<(), Spot>
    ensures { ShapeIs s.now (told result) }
{
    let Some(Opening { mode, count, size }) = walk::list(&s[0..]) else {
        return Err(spot::at(Refusal::Kind, s.len()));
    };
    let mut at = size;
    let mut rank = 0;
    while walk::more(&s[at..], mode, count, rank) {
        let Some(_) = walk::number(&s[at..]) else {
            return Err(spot::at(Refusal::Kind, s.len() - at));
        };
        let k = cbor::skip(&s[at..], numbers::IN_SHAPE);
        if s.len() - at < k {
            return Err(spot::at(Refusal::Kind, s.len() - at));
        }
        at += k;
        rank += 1;
    }
    if 8 < rank {
        return Err(spot::at(Refusal::Count, s.len()));
    }
    Ok(())
}
