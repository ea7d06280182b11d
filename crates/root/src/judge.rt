// The judgement of a root, from the places of its fields in s and from what was found among its objects.
ghost use Rattle.std.specs.Prelude.{◌≡◌, length};
ghost use Rattle.root.specs.Verdict as is;

use crate::Judged;
use fields::place_of;
use numbers::{FileFault, Refusal};
use objects::Found;

// Keys, repeats, version missing.
fn known(p: &[usize]) -> Result<(), Refusal>
    requires { length p.now ≡ 6 }
    ensures { result ≡ is.known p.now }
{
    if p[4] != 0 {
        return Err(Refusal::Key);
    }
    if p[5] != 0 {
        return Err(Refusal::Twice);
    }
    if p[0] == 0 {
        return Err(Refusal::Missing);
    }
    Ok(())
}

// The version that begins s: its kind, shape and major.
fn version(s: &[u8]) -> Result<(), Refusal>
    ensures { is.VersionIs s.now result }
{
    let Some(letters) = walk::text(&s[0..]) else {
        return Err(Refusal::Kind);
    };
    let at = letters.at;
    let e = at + letters.size;
    if !versions::version_shape(&s[at..e]) {
        return Err(Refusal::Version);
    }
    if !versions::major_one(&s[at..e]) {
        return Err(Refusal::Major);
    }
    Ok(())
}

// The version, which isn't absent, where `left` bytes of s are left.
fn version_at(s: &[u8], left: usize) -> Result<(), Refusal>
    ensures { is.VersionAt s.now left result }
{
    let at = place_of(s.len(), left);
    version(&s[at..])
}

// Attributes at `left`, objects missing, and what was found among them.
fn told(
    map: bool,
    left: usize,
    objects: usize,
    found: Result<Found, FileFault>,
) -> Result<Judged, FileFault>
    ensures { result ≡ is.told map left objects found }
{
    if !map {
        return Err(FileFault::from(Refusal::Kind));
    }
    if objects == 0 {
        return Err(FileFault::from(Refusal::Missing));
    }
    let Found {
        objects,
        components,
    } = found?;
    Ok(Judged {
        objects,
        components,
        attributes: left,
    })
}

// The root whose entries begin s, from the slots p.
pub fn verdict(s: &[u8], p: &[usize], found: Result<Found, FileFault>) -> Result<Judged, FileFault>
    requires { length p.now ≡ 6 }
    ensures { is.VerdictIs s.now p.now found result }
{
    known(&p[0..])?;
    version_at(&s[0..], p[0])?;
    let map = fields::attributes(&s[0..], p[1]);
    told(map, p[1], p[2], found)
}
