// The first check of an order that breaks, and where it looks (document 02, Request 08). A place is the number of bytes left there before the manifest's end.
#![tactic(auto)]

ghost use Rattle.std.specs.Prelude.{◌≡◌};
ghost use Rattle.numbers.specs.Numbered.{number_of};
ghost use Rattle.spot.specs.Shown as is;

use numbers::Refusal;

// What it refuses, and the bytes left there.
#[derive(Clone, Copy)]
pub struct Spot {
    pub refusal: Refusal,
    pub left: usize,
}

pub fn at(refusal: Refusal, left: usize) -> Spot
    ensures { is.looks result ≡ is.spot (number_of refusal) left }
{
    Spot { refusal, left }
}

// The bytes left where it looks; 0 for none.
pub fn left(answer: Result<(), Spot>) -> usize
    ensures { result ≡ (is.told answer).left }
{
    match answer {
        Ok(()) => 0,
        Err(spot) => spot.left,
    }
}
