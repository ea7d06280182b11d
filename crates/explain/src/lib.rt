// Why a file was refused (document 02, Request 08): a second walk over it, to the first check of document 01's order that breaks.
#![tactic(auto)]

ghost use Rattle.std.specs.Prelude.{◌≡◌, ◌+◌, ◌≤◌, ◌<◌, length, ltb};
ghost use Rattle.std.proofs.Math.Option.{some};
ghost use Rattle.meaning.specs.Check.{pass};
ghost use Rattle.meaning.specs.Layouts.{layout_of};
ghost use Rattle.panel.specs.ListedText.{told, text_after};
ghost use Rattle.numbers.specs.Numbered.{number_of};
ghost use Rattle.explained.specs.Explain.{explanation, alone, span};
ghost use Rattle.explained.specs.Sentence.{sentence};
ghost use Rattle.explaining.specs.Judged as is;

use fields::place_of;
use numbers::{FileFault, Refusal};
use panel::Listed;
use pointed::pointed;
use sentence::Explanation;

// The object of the manifest m that is refused with this fault. The objects stand where `objects` bytes are left.
fn inside(
    layout: u64,
    m: &[u8],
    start: u64,
    end: usize,
    fault: FileFault,
    objects: usize,
) -> Explanation
    ensures { is.InsideIs (layout_of layout) m.now start end (number_of fault.refusal) fault.object fault.component objects result }
{
    let from = place_of(m.len(), objects);
    let e = entry::entry(&m[from..], numbers::IN_OBJECTS, fault.object);
    let v = place_of(m.len(), e.value);
    let n = u64::from(fault.refusal);
    let w = badobject::object(layout, &m[v..], start, n, fault.component);
    pointed(
        m,
        end,
        n,
        fault.object as u64,
        fault.component as u64,
        e.key,
        w.key,
        spot::left(w.spot),
    )
}

// Another object than the first, or another component: such a refusal is none of the root's.
fn beyond(fault: FileFault) -> bool
    ensures { result ≡ ltb 0 (fault.object + fault.component) }
{
    fault.object != 0 || 0 < fault.component
}

// The manifest m, which begins at `start` and ends at `end`: what it says is refused with this fault.
fn judged(layout: u64, m: &[u8], start: u64, end: usize, fault: FileFault) -> Explanation
    ensures { is.JudgedIs (layout_of layout) m.now start end (number_of fault.refusal) fault.object fault.component result }
{
    if beyond(fault) {
        let objects = badroot::objects(layout, m);
        return inside(layout, m, start, end, fault, objects);
    }
    let n = u64::from(fault.refusal);
    let r = badroot::root(layout, m, n);
    match r.spot {
        Ok(()) => inside(layout, m, start, end, fault, r.objects),
        Err(spot) => pointed(
            m,
            end,
            n,
            fault.object as u64,
            fault.component as u64,
            0,
            0,
            spot.left,
        ),
    }
}

// A manifest that is refused: as it is read, or for what it says. The refusal tells which: the reading refuses with CBOR or DEEP only, the judgement with neither.
fn refused(layout: u64, m: &[u8], start: u64, end: usize, fault: FileFault) -> Explanation
    ensures { is.RefusedIs (layout_of layout) m.now start end (number_of fault.refusal) fault.object fault.component result }
{
    match fault.refusal {
        Refusal::Cbor | Refusal::Deep => unread::unread(u64::from(fault.refusal), m, end),
        _ => judged(layout, m, start, end, fault),
    }
}

// Of a file whose tree is sound: nothing is at fault in it. A number and the room that is needed, or 0 and 0.
fn told(number: u64, room: u64) -> Explanation
    ensures { is.explanation result ≡ explanation (some (alone number (span 0 0))) room }
{
    Explanation {
        number: number,
        object: 0,
        component: 0,
        objectname: 0,
        objectsize: 0,
        componentname: 0,
        componentsize: 0,
        place: 0,
        length: 0,
        room: room,
    }
}

// A file that is sound, with so many objects and components, to a table of `room` numbers.
fn sound(objects: usize, components: usize, room: u64) -> Explanation
    requires { (objects ≤ 1024) × (components ≤ 16384) }
    ensures { is.explanation result ≡ is.sound objects components room }
{
    let needed = (columns::OBJECT * objects + columns::COMPONENT * components) as u64;
    if room < needed {
        return told(u64::from(Refusal::Room), needed);
    }
    told(0, 0)
}

// The manifest m, which begins at `start` and ends at `end`.
fn manifest(layout: u64, m: &[u8], start: u64, end: usize, room: u64) -> Explanation
    ensures { is.ManifestIs (layout_of layout) m.now start end room result }
{
    match reader::manifest(layout, m, start) {
        Err(fault) => refused(layout, m, start, end, fault),
        Ok(told) => sound(told.objects, told.components, room),
    }
}

// A file of this layout, to a table of `room` numbers, none of which is lent.
pub fn explain(layout: u64, file: &[u8], room: u64) -> Explanation
    ensures { is.ExplainedIs layout file.now room result }
{
    match frame::frame(layout, file) {
        Err(refusal) => unread::framed(layout, u64::from(refusal), file),
        Ok(framed) => {
            let end = framed.start + framed.size;
            manifest(
                layout,
                &file[framed.start..end],
                framed.start as u64,
                end,
                room,
            )
        }
    }
}

// The same as a sentence, one line put into a lent text.
pub fn say(layout: u64, file: &[u8], room: u64, text: &mut [u8]) -> Listed
    ensures answer { result ≡ told (pass (sentence (layout_of layout) file.now room)) (length text.old) }
    ensures written { text.new ≡ text_after (pass (sentence (layout_of layout) file.now room)) text.old }
{
    let e = explain(layout, file, room);
    sentence::say(layout, file, e, text)
}
