// The reader's verdict on the file of sound rows, foreseen from the rows: nothing is written to find it out (document 01, "The writer").
#![tactic(auto)]

mod depth;
mod judged;
mod named;
mod texts;

ghost use Rattle.std.specs.Prelude.{◌≡◌, true};
ghost use Rattle.meaning.specs.Asked.{asked};
ghost use Rattle.meaning.specs.Described.{described};
ghost use Rattle.meaning.specs.Sound.{rows_sound};
ghost use Rattle.readback.specs.Judged.{judged, judged_objects};
ghost use Rattle.numbers.specs.Answered.{in_file};
ghost use Rattle.foresee.specs.Foretold as is;

use numbers::{FileFault, Refusal};

// Each of n objects in turn; their components' rows begin `rest`.
fn each(
    rows: &[u64],
    n: usize,
    rest: &[u64],
    components: usize,
    buffer: &[u8],
) -> Result<(), FileFault>
    requires { is.Counted buffer.now rows.now n rest.now components }
    ensures { is.each_object 0 (is.objects_of buffer.now rows.now n rest.now components) ≡ in_file result }
{
    let mut from = 0;
    // Only the proof reads it: the clause counts the components that are left.
    let mut due = components;
    for i in 0..n {
        let at = columns::OBJECT * i;
        if let Err(fault) = judged::object(&rows[at..], &rest[from..], buffer) {
            return Err(FileFault {
                refusal: fault.refusal,
                object: i,
                component: fault.component,
            });
        }
        let count = rows[at + columns::COUNT] as usize;
        from += columns::COMPONENT * count;
        due -= count;
    }
    Ok(())
}

// Their names, then each of them.
fn judge(
    rows: &[u64],
    n: usize,
    rest: &[u64],
    components: usize,
    buffer: &[u8],
) -> Result<(), FileFault>
    requires { is.Counted buffer.now rows.now n rest.now components }
    ensures { judged_objects (is.objects_of buffer.now rows.now n rest.now components) ≡ in_file result }
{
    let mut left = [0usize; 1024];
    let mut size = [0usize; 1024];
    let mut ix = [0u16; 1024];
    named::names(
        rows,
        columns::OBJECT,
        n,
        buffer,
        &mut left,
        &mut size,
        &mut ix,
    )?;
    each(rows, n, rest, components, buffer)
}

// The reader's verdict on the file of these rows, if they are sound.
pub fn verdict(
    rows: &[u64],
    objects: u64,
    components: u64,
    place: u64,
    size: u64,
    buffer: &[u8],
) -> Result<(), FileFault>
    requires { rows_sound buffer.now rows.now objects components (record { place = place; size = size }) ≡ true }
    ensures { judged (described buffer.now (asked rows.now objects components (record { place = place; size = size }))) ≡ in_file result }
{
    let n = objects as usize;
    if depth::deep(buffer, place, size, numbers::IN_ROOT) || depth::any_deep(rows, n, buffer) {
        return Err(FileFault::from(Refusal::Deep));
    }
    let from = columns::OBJECT * n;
    judge(rows, n, &rows[from..], components as usize, buffer)
}
