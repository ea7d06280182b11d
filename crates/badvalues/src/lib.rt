// The values of an object up to its attributes: the first check that breaks, and where (document 02, Request 08). Every slice runs to the manifest's end; a place is
// the number of bytes left there, 0 for none.
#![tactic(auto)]

ghost use Rattle.std.specs.Prelude.{◌≡◌, length};
ghost use Rattle.badvalues.specs.Steps as is;

use fields::place_of;
use numbers::Refusal;
use object::place::{format_at, tensor_at};
use spot::Spot;

// The codes of the dtype, 13 for none, and of the format.
#[derive(Clone, Copy)]
pub struct Valued {
    pub code: u64,
    pub format: u64,
}

// The format at a, the attributes at b, in an object whose dtype has this code.
fn described(s: &[u8], a: usize, b: usize, code: u64) -> Result<Valued, Spot>
    ensures { is.DescribedIs s.now a b code result }
{
    match format_at(s, a) {
        Err(refusal) => Err(spot::at(refusal, a)),
        Ok(format) => {
            if fields::attributes(s, b) {
                return Ok(Valued { code, format });
            }
            Err(spot::at(Refusal::Kind, b))
        }
    }
}

// dtype, shape, format, attributes at the places in p, where none that is needed is missing.
pub fn values(layout: u64, s: &[u8], p: &[usize]) -> Result<Valued, Spot>
    requires { length p.now ≡ 8 }
    ensures { is.ValuesAre layout s.now p.now result }
{
    match tensor_at(layout, s, p[0]) {
        Err(refusal) => Err(spot::at(refusal, p[0])),
        Ok(code) => {
            let from = place_of(s.len(), p[1]);
            badshape::shape(&s[from..])?;
            described(s, p[2], p[3], code)
        }
    }
}
