// The shape of an object (document 01, "Order"): an array of at most eight numbers, the dimensions.
#![tactic(auto)]

ghost use Rattle.std.specs.Prelude.{◌≡◌, ◌+◌, ◌<◌, length};
ghost use Rattle.walk.specs.Put.{put};
ghost use Rattle.shape.specs.Shape as spec;

use numbers::Refusal;
use walk::Opening;

// Puts x at i, if there is room.
fn put(a: &mut [u64], i: usize, x: u64)
    ensures { a.new ≡ put a.old i x }
{
    if i < a.len() {
        a[i] = x;
    }
}

// The shape that begins s, whose elements stand where `left` levels are left: its dimensions are put into dims. Answers how many there are.
pub fn shape(s: &[u8], left: u64, dims: &mut [u64]) -> Result<usize, Refusal>
    requires { length dims.old ≡ 8 }
    ensures { spec.ShapeRead left s.now dims.old dims.new result }
{
    let Some(Opening { mode, count, size }) = walk::list(&s[0..]) else {
        return Err(Refusal::Kind);
    };
    let mut at = size;
    let mut rank = 0;
    while walk::more(&s[at..], mode, count, rank) {
        let Some(n) = walk::number(&s[at..]) else {
            return Err(Refusal::Kind);
        };
        put(dims, rank, n);
        let k = cbor::skip(&s[at..], left);
        if s.len() - at < k {
            return Err(Refusal::Kind);
        }
        at += k;
        rank += 1;
    }
    if numbers::RANK_MOST < rank {
        return Err(Refusal::Count);
    }
    Ok(rank)
}
