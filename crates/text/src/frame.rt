// The fixed bytes at both ends of a file, and the number before the last of them.
ghost use Rattle.std.specs.Prelude.{◌≡◌, length};
ghost use Rattle.meaning.specs.Text as texts;
ghost use Rattle.meaning.specs.Frame as meant;
ghost use Rattle.meaning.specs.Layouts as layouts;

// The part is the byte string that begins and ends a file.
pub fn is_magic(part: &[u8]) -> bool
    ensures { result ≡ texts.same layouts.magic part.now }
{
    // As an array of known length: two slices are compared by a call.
    match part.as_array::<8>() {
        Some(bytes) => b"ZTEN1000" == bytes,
        None => false,
    }
}

// The number that eight bytes make, the first byte the lowest.
pub fn little(part: &[u8]) -> u64
    requires { length part.now ≡ 8 }
    ensures { result ≡ meant.little part.now }
{
    u64::from_le_bytes(*part.as_array().unwrap())
}
