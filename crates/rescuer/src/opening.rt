// A file judged up to its objects' names: the reader's refusal, or where the objects and the root's attributes stand.
ghost use Rattle.std.specs.Prelude.{ℕ, ◌+◌, ◌<◌, length};
ghost use Rattle.meaning.specs.Layouts.{layout_of};
ghost use Rattle.cbor.specs.Ending.{FAULT};
ghost use Rattle.rescuing.specs.Sift.{sifted};
ghost use Rattle.rescuer.specs.Opened as is;

use fields::place_of;
use numbers::{FileFault, Refusal};
use reader::into::attributes;

// The places of the root's attributes and objects, as bytes left.
#[derive(Clone, Copy)]
struct Told {
    attributes: usize,
    objects: usize,
}

// Where the manifest begins and ends, where the map of its objects begins, and place and length of the root's attributes.
#[derive(Clone, Copy)]
pub struct Found {
    pub start: usize,
    pub end: usize,
    pub first: usize,
    pub place: u64,
    pub size: u64,
}

// The manifest m: one item that fills it exactly, and what that says up to its objects' names.
fn names(layout: u64, m: &[u8]) -> Result<Told, FileFault>
    ensures { (end start : ℕ) → is.NamesAre (layout_of layout) end start m.now result }
{
    let w = root::opened(layout, m);
    let e = w.end;
    if m.len() < e {
        return Err(FileFault::from(cbor::refusal(e)));
    }
    if e < m.len() {
        return Err(FileFault::from(Refusal::Cbor));
    }
    let judged = w.verdict?;
    Ok(Told {
        attributes: judged.attributes,
        objects: w.objects,
    })
}

// The manifest m, which begins at `start`.
fn manifest(layout: u64, m: &[u8], start: usize) -> Result<Found, FileFault>
    requires { start + length m.now < FAULT }
    ensures { is.FoundIs (is.manifest_sifted (layout_of layout) (start + length m.now) start m.now) layout start (start + length m.now) (is.behind start m.now) result }
{
    let told = names(layout, m)?;
    let end = start + m.len();
    let first = start + place_of(m.len(), told.objects);
    let kept = attributes(m, told.attributes, end);
    Ok(Found {
        start,
        end,
        first,
        place: kept.place,
        size: kept.size,
    })
}

// A file of this layout, lent whole.
pub fn file(layout: u64, file: &[u8]) -> Result<Found, FileFault>
    ensures { is.FoundIs (sifted (layout_of layout) file.now) layout 0 (length file.now) (is.between file.now) result }
{
    let framed = frame::frame(layout, file)?;
    let end = framed.start + framed.size;
    manifest(layout, &file[framed.start..end], framed.start)
}
