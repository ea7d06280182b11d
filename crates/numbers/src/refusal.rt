// Why a file, a plan or a call is refused: document 01's refusals, and document 02's. Their numbers are the documents' (`meaning`: Refusal).
ghost use Rattle.std.specs.Prelude.{◌≡◌};
ghost use Rattle.numbers.specs.Numbered.{number_of};

#[derive(Clone, Copy, PartialEq, Eq)]
pub enum Refusal {
    Short = 1,
    Header = 2,
    Footer = 3,
    Big = 4,
    Fit = 5,
    Cbor = 6,
    Deep = 7,
    Kind = 8,
    Key = 9,
    Text = 10,
    Twice = 11,
    Missing = 12,
    Version = 13,
    Major = 14,
    Count = 15,
    Dtype = 16,
    Encoding = 17,
    Type = 18,
    Align = 19,
    Bounds = 20,
    Rank = 21,
    Role = 22,
    Length = 23,
    Room = 24,
    Row = 25,
    Index = 26,
    Plan = 27,
    Busy = 28,
}

impl From<Refusal> for u64 {
    ghost from_gives = { λ r n. n ≡ number_of r };

    fn from(refusal: Refusal) -> u64 {
        refusal as u64
    }
}
