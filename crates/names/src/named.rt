// A name by its number: the part of the buffer that the two arrays say, cut where the buffer ends.
ghost use Rattle.std.specs.Prelude.{◌≡◌};
ghost use Rattle.names.specs.Names.{name};

// The name of number i.
pub fn name_of<'a>(m: &'a [u8], left: &[usize], size: &[usize], i: usize) -> &'a [u8]
    ensures { result.now ≡ name m.now left.now size.now i }
{
    let from = m.len().saturating_sub(left.get(i).copied().unwrap_or(0));
    let rest = &m[from..];
    &rest[..size.get(i).copied().unwrap_or(0).min(rest.len())]
}
