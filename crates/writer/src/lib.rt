// The writer (document 01, and document 02's Request 02): rows and a lent buffer to a whole file in a lent output, with blobs where the rule or a plan places them. Every check is made
// before a byte is written.
#![tactic(auto)]

ghost use Rattle.std.specs.Prelude.{◌≡◌, [], ◌<◌, ◌^◌, length};
ghost use Rattle.numbers.specs.Numbered.{number_of};
ghost use Rattle.readback.specs.Lent.{Lent};
ghost use Rattle.writer.specs.WriterAnswer as is;
ghost use Rattle.meaning.specs.Write.{written, written_by};
ghost use Rattle.writer.specs.Sized.{file_at, Fit, Measures};

use numbers::{FileFault, Refusal};
use rows::sound;

// The refusal with its object and component, or 0, 0 and 0; and the file's length, 0 on refusal.
#[repr(C)]
#[derive(Clone, Copy)]
pub struct Written {
    pub number: u64,
    pub object: u64,
    pub component: u64,
    pub length: u64,
}

fn refused(fault: FileFault) -> Written
    ensures { result ≡ is.refused (number_of fault.refusal) fault.object fault.component }
{
    Written {
        number: u64::from(fault.refusal),
        object: fault.object as u64,
        component: fault.component as u64,
        length: 0,
    }
}

// Where the last blob ends, and how long the manifest is.
#[derive(Clone, Copy)]
struct Sized {
    end: u64,
    manifest: u64,
}

// ROW, COUNT and BIG; and, whatever they say, what the slices are.
fn measured(
    rows: &[u64],
    objects: u64,
    components: u64,
    place: u64,
    size: u64,
    buffer: &[u8],
) -> Result<Sized, FileFault>
    ensures sizes { Measures [] rows.now objects components (record { place = place; size = size }) buffer.now
        (written rows.now objects components (record { place = place; size = size }) buffer.now) result }
    ensures lent { Lent rows.now buffer.now }
{
    if !sound(rows, objects, components, place, size, buffer) {
        return Err(FileFault::from(Refusal::Row));
    }
    let end = sizes::last_end(rows, objects, components);
    if numbers::END_MOST < end {
        return Err(FileFault::from(Refusal::Count));
    }
    let manifest = sizes::manifest(&rows[0..0], rows, objects, components, place, size);
    if numbers::MANIFEST_MOST < manifest {
        return Err(FileFault::from(Refusal::Big));
    }
    Ok(Sized { end, manifest })
}

// ROW, PLAN and BIG, by a plan under a ceiling.
fn measured_by(
    plan: &[u64],
    ceiling: u64,
    rows: &[u64],
    objects: u64,
    components: u64,
    place: u64,
    size: u64,
    buffer: &[u8],
) -> Result<Sized, FileFault>
    ensures sizes { Measures plan.now rows.now objects components (record { place = place; size = size }) buffer.now
        (written_by rows.now objects components (record { place = place; size = size }) buffer.now plan.now ceiling) result }
    ensures lent { Lent rows.now buffer.now }
{
    if !sound(rows, objects, components, place, size, buffer) {
        return Err(FileFault::from(Refusal::Row));
    }
    let first = (columns::OBJECT_64 * objects) as usize;
    let end = plan::verdict(plan, &rows[first..], components as usize, ceiling)?;
    let manifest = sizes::manifest(plan, rows, objects, components, place, size);
    if numbers::MANIFEST_MOST < manifest {
        return Err(FileFault::from(Refusal::Big));
    }
    Ok(Sized { end, manifest })
}

// Rows that fit: the refusal that the reader would give the file, ROOM, or the file.
fn fill(
    plan: &[u64],
    rows: &[u64],
    objects: u64,
    components: u64,
    place: u64,
    size: u64,
    buffer: &[u8],
    sized: Sized,
    out: &mut [u8],
) -> Written
    requires { Fit plan.now rows.now objects components (record { place = place; size = size }) buffer.now sized.end sized.manifest }
    ensures { is.Answered (file_at plan.now rows.now objects components (record { place = place; size = size }) buffer.now (length out.old)) result out.old out.new }
{
    if let Err(fault) = foresee::verdict(rows, objects, components, place, size, buffer) {
        return refused(fault);
    }
    if (out.len() as u64) < sized.end + sized.manifest + 16 {
        return refused(FileFault::from(Refusal::Room));
    }
    let n = layout::file(plan, rows, objects, components, place, size, buffer, out);
    Written {
        number: 0,
        object: 0,
        component: 0,
        length: n as u64,
    }
}

// Rows of so many objects and components, the root's attributes, and the buffer that they point into, as a whole file in `out`.
pub fn write(
    rows: &[u64],
    objects: u64,
    components: u64,
    place: u64,
    size: u64,
    buffer: &[u8],
    out: &mut [u8],
) -> Written
    ensures answer { is.Answered (written rows.now objects components (record { place = place; size = size }) buffer.now (length out.old)) result out.old out.new }
    ensures lent { Lent rows.now buffer.now }
{
    match measured(rows, objects, components, place, size, buffer) {
        Err(fault) => refused(fault),
        Ok(sized) => fill(
            &rows[0..0],
            rows,
            objects,
            components,
            place,
            size,
            buffer,
            sized,
            out,
        ),
    }
}

// The same with each blob at its offset in a plan, whose ends are at most at a ceiling.
pub fn write_planned(
    plan: &[u64],
    ceiling: u64,
    rows: &[u64],
    objects: u64,
    components: u64,
    place: u64,
    size: u64,
    buffer: &[u8],
    out: &mut [u8],
) -> Written
    ensures answer { is.Answered (written_by rows.now objects components (record { place = place; size = size }) buffer.now plan.now ceiling (length out.old)) result out.old out.new }
    ensures lent { Lent rows.now buffer.now }
{
    match measured_by(
        plan, ceiling, rows, objects, components, place, size, buffer,
    ) {
        Err(fault) => refused(fault),
        Ok(sized) => fill(
            plan, rows, objects, components, place, size, buffer, sized, out,
        ),
    }
}
