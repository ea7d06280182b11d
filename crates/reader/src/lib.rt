// The acceptance check of a file (document 01): its frame, its manifest as one CBOR item, and the judgement of what that item says.
#![tactic(auto)]

pub mod into;

ghost use Rattle.std.specs.Prelude.{◌≡◌, ℕ};
ghost use Rattle.meaning.specs.Frame.{reading};
ghost use Rattle.meaning.specs.Layouts.{current, layout_of};
ghost use Rattle.reader.specs.Verdict as is;

use frame::Framed;
use numbers::{FileFault, Refusal};

// The first failing check of document 01's order: its number, object and component; 0, 0 and 0 for a file that is accepted.
#[repr(C)]
#[derive(Clone, Copy)]
pub struct Verdict {
    pub number: u64,
    pub object: u64,
    pub component: u64,
}

// What a manifest says: how many objects and components there are, and the places of the root's attributes and objects.
#[derive(Clone, Copy)]
pub struct Told {
    pub objects: usize,
    pub components: usize,
    pub attributes: usize,
    pub place: usize,
}

// The manifest m, which begins at `start`: one item that fills it exactly, and what that says.
pub fn manifest(layout: u64, m: &[u8], start: u64) -> Result<Told, FileFault>
    ensures { (end : ℕ) → is.ManifestIs (layout_of layout) end start m.now result }
{
    let w = root::root(layout, m, start);
    let e = w.end;
    if m.len() < e {
        return Err(FileFault::from(cbor::refusal(e)));
    }
    if e < m.len() {
        return Err(FileFault::from(Refusal::Cbor));
    }
    let v = w.verdict?;
    Ok(Told {
        objects: v.objects,
        components: v.components,
        attributes: v.attributes,
        place: w.objects,
    })
}

// What the manifest of a file of this layout says, which is lent whole.
fn judged(layout: u64, file: &[u8]) -> Result<Told, FileFault>
    ensures { is.Judges (reading (layout_of layout) file.now) result }
{
    let Framed { start, size } = frame::frame(layout, file)?;
    let end = start + size;
    manifest(layout, &file[start..end], start as u64)
}

// The verdict on a file of this layout, which is lent whole.
pub fn accept_as(layout: u64, file: &[u8]) -> Verdict
    ensures { result ≡ is.verdict (reading (layout_of layout) file.now) }
{
    match judged(layout, file) {
        Err(fault) => Verdict {
            number: u64::from(fault.refusal),
            object: fault.object as u64,
            component: fault.component as u64,
        },
        Ok(_) => Verdict {
            number: 0,
            object: 0,
            component: 0,
        },
    }
}

// The verdict on a file of 1.2.0.
pub fn accept(file: &[u8]) -> Verdict
    ensures { result ≡ is.verdict (reading current file.now) }
{
    accept_as(0, file)
}
