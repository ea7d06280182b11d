// Equality and order of texts.
ghost use Rattle.std.specs.Prelude.{◌≡◌};
ghost use Rattle.meaning.specs.Text as meant;
ghost use Rattle.text.specs.Order as orders;

use std::cmp::Ordering;

// Whether a stands before b: the shorter first, then by the first byte that differs.
pub fn order(a: &[u8], b: &[u8]) -> Ordering
    ensures { orders.number result ≡ orders.order a.now b.now }
{
    a.len().cmp(&b.len()).then_with(|| a.cmp(&b))
}

// The two texts are equal.
pub fn same(a: &[u8], b: &[u8]) -> bool
    ensures { result ≡ meant.same a.now b.now }
{
    a == b
}
