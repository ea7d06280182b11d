// A file's verdict, and what its objects add up to when they are written from a place on, without a table.
ghost use Rattle.std.specs.Prelude.{suc, ◌+◌, ◌≤◌, ◌<◌, length};
ghost use Rattle.meaning.specs.Limit.{manifest_limit, end_limit};
ghost use Rattle.meaning.specs.Layouts.{layout_of};
ghost use Rattle.meaning.specs.Frame.{reading};
ghost use Rattle.reader.specs.Verdict.{manifest_reading};
ghost use Rattle.cbor.specs.Ending.{FAULT};
ghost use Rattle.merger.specs.Weighed.{WeighedIs};

use fields::place_of;
use numbers::FileFault;
use reader::into::attributes;
use window::Sum;

// How many objects and components there are, place and length of the root's attributes, where the last blob ends (or 2^40 + 1), and how many bytes the objects' entries take with those
// before (or the limit and 1).
#[derive(Clone, Copy)]
pub struct Weighed {
    pub objects: u64,
    pub components: u64,
    pub place: u64,
    pub size: u64,
    pub end: u64,
    pub total: u64,
}

// The manifest m, which begins at `start`.
fn manifest(
    layout: u64,
    m: &[u8],
    start: usize,
    first: u64,
    before: u64,
    from: usize,
    names: &mut [u64],
) -> Result<Weighed, FileFault>
    requires m_bound { start + length m.now < FAULT }
    requires first_bound { (first ≤ suc end_limit) × (before ≤ suc manifest_limit) }
    ensures { WeighedIs (manifest_reading (layout_of layout) (start + length m.now) start m.now) first before from names.old result names.new }
{
    let told = reader::manifest(layout, m, start as u64)?;
    let end = start + m.len();
    let place = place_of(m.len(), told.place);
    let have = Sum {
        place: first,
        total: before,
    };
    let sum = window::measure(layout, &m[place..], start as u64, end, have, from, names);
    let kept = attributes(m, told.attributes, end);
    Ok(Weighed {
        objects: told.objects as u64,
        components: told.components as u64,
        place: kept.place,
        size: kept.size,
        end: sum.place,
        total: sum.total,
    })
}

// A file of this layout, lent whole: its blobs from the place `first` on, its entries after `before` bytes. Places and lengths of its objects' names are put from `from` on.
pub fn file(
    layout: u64,
    file: &[u8],
    first: u64,
    before: u64,
    from: usize,
    names: &mut [u64],
) -> Result<Weighed, FileFault>
    requires { (first ≤ suc end_limit) × (before ≤ suc manifest_limit) }
    ensures { WeighedIs (reading (layout_of layout) file.now) first before from names.old result names.new }
{
    let framed = frame::frame(layout, file)?;
    let end = framed.start + framed.size;
    manifest(
        layout,
        &file[framed.start..end],
        framed.start,
        first,
        before,
        from,
        names,
    )
}
