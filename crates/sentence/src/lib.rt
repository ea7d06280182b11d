// The sentence about a refused file (document 02, Request 08), from the numbers of its explanation, into a lent text.
#![tactic(auto)]

ghost use Rattle.std.specs.Prelude.{◌≡◌, ◌++◌, ◌∷◌, ◌+◌, ◌<◌, length};
ghost use Rattle.meaning.specs.Check.{pass};
ghost use Rattle.meaning.specs.Layouts.{layout_of};
ghost use Rattle.meaning.specs.Read.{bytes_at};
ghost use Rattle.put.specs.Wrote.{Wrote};
ghost use Rattle.panel.specs.ListedText.{told, text_after};
ghost use Rattle.explained.specs.Sentence.{reason, said};
ghost use Rattle.sentence.specs.Given as is;

use numbers::Refusal;
use panel::Listed;
use put::{blank_number, blank_text, byte, word};
use view::part;

// Number, object and component; place and length of their names, 0 and 0 where none is given, and of what is at fault; with ROOM the numbers needed. All 0 for a file
// that is accepted.
#[repr(C)]
#[derive(Clone, Copy)]
pub struct Explanation {
    pub number: u64,
    pub object: u64,
    pub component: u64,
    pub objectname: u64,
    pub objectsize: u64,
    pub componentname: u64,
    pub componentsize: u64,
    pub place: u64,
    pub length: u64,
    pub room: u64,
}

// An explanation is C's, so that a refusal is a number there; those that are said in another way than the rest.
const SHORT: u64 = Refusal::Short as u64;

const FIT: u64 = Refusal::Fit as u64;

const ROOM: u64 = Refusal::Room as u64;

// The reasons by number, one after the other, and those that layout 1.0 has instead.
const REASONS: [u8; 1008] =
    *b"SHORT: file under 24 bytesHEADER: first 8 wrongFOOTER: last 8 wrongBIG: manifest size over 16777216FIT: manifest size 0 or over file length - 24CBOR: malformed, ended early, or bytes left overDEEP: an item at depth 33 beginsKIND: known value of another kind, or chunked text in a known placeKEY: a key or name isn't whole textTEXT: name, format, type or digest isn't UTF-8TWICE: a known field or a name repeatedMISSING: required field absentVERSION: not two or three runs of 1 to 9 digits joined by dots, without leading zerosMAJOR: major isn't 1COUNT: over 1024 objects, 16 components an object or rank 8DTYPE: not one of the 13 dtypesENCODING: present and not rawTYPE: listed type over another dtypeALIGN: offset not a multiple of 64BOUNDS: offset under 64, or offset + length over the manifest startRANK: sparse_csr not of rank 2ROLE: needed role absent, or index role not plain u64LENGTH: length rule brokenROOM: lent table too shortSHORT: file under 16 bytesFIT: manifest size 0 or over file length - 16";

// Where the reason of each number begins, and of those of layout 1.0.
const BEGINS: [usize; 28] = [
    0, 0, 26, 47, 67, 99, 144, 192, 224, 291, 326, 372, 411, 441, 526, 546, 605, 636, 665, 701,
    735, 802, 832, 885, 911, 937, 963, 1008,
];

// Where the reason of a number is listed; 0 for one that has none.
fn listed(layout: u64, number: u64) -> usize
    ensures { result ≡ is.listed layout number }
{
    if ROOM < number {
        return 0;
    }
    if layout == 1 {
        if number == SHORT {
            return 25;
        }
        if number == FIT {
            return 26;
        }
    }
    number as usize
}

// Why this number is given.
fn because(layout: u64, number: u64, out: &mut [u8], at: usize) -> usize
    ensures { Wrote (reason (layout_of layout) number) at out.old out.new result }
{
    let k = listed(layout, number);
    let from = BEGINS[k];
    let end = BEGINS[k + 1];
    word(out, at, &REASONS[from..end])
}

// Is a name given there?
fn given(place: u64, size: u64) -> bool
    ensures { result ≡ is.given place size }
{
    if place == 0 {
        return size != 0;
    }
    true
}

// A name, if one is given.
fn belongs(what: &[u8], name: &[u8], place: u64, size: u64, out: &mut [u8], at: usize) -> usize
    ensures { Wrote (is.named what.now name.now place size) at out.old out.new result }
{
    if given(place, size) {
        let past = word(out, at, what);
        return blank_text(out, past, name);
    }
    put::capped_place(at)
}

// The bytes at fault, or the room that is needed.
fn bounds(number: u64, place: u64, size: u64, room: u64, out: &mut [u8], at: usize) -> usize
    requires { place + size < 18446744073709551616 }
    ensures { Wrote (is.bounds number place size room) at out.old out.new result }
{
    if number == ROOM {
        let a = word(out, at, b";");
        let b = blank_number(out, a, room);
        return word(out, b, b" numbers needed");
    }
    if size == 0 {
        let a = word(out, at, b"; at byte");
        return blank_number(out, a, place);
    }
    let a = word(out, at, b"; bytes");
    let b = blank_number(out, a, place);
    let c = word(out, b, b" to");
    blank_number(out, c, place + size - 1)
}

// The line of a refusal.
fn refused(layout: u64, file: &[u8], e: Explanation, out: &mut [u8]) -> usize
    requires { e.place + e.length < 18446744073709551616 }
    ensures { Wrote (is.refused (layout_of layout) file.now e) 0 out.old out.new result }
{
    let a = word(out, 0, b"refused");
    let b = blank_number(out, a, e.number);
    let c = byte(out, b, 32);
    let d = because(layout, e.number, out, c);
    let object = part(file, e.objectname, e.objectsize);
    let f = belongs(b"; object", object, e.objectname, e.objectsize, out, d);
    let component = part(file, e.componentname, e.componentsize);
    let g = belongs(
        b"; component",
        component,
        e.componentname,
        e.componentsize,
        out,
        f,
    );
    let h = bounds(e.number, e.place, e.length, e.room, out, g);
    byte(out, h, 10)
}

// The whole line.
fn line(layout: u64, file: &[u8], e: Explanation, out: &mut [u8]) -> usize
    requires { e.place + e.length < 18446744073709551616 }
    ensures { Wrote (said (layout_of layout) file.now (is.explanation e)) 0 out.old out.new result }
{
    if e.number == 0 {
        return word(out, 0, b"accepted\n");
    }
    refused(layout, file, e, out)
}

// Counted in a text of one byte, then written if it fits.
pub fn say(layout: u64, file: &[u8], e: Explanation, text: &mut [u8]) -> Listed
    requires { e.place + e.length < 18446744073709551616 }
    ensures answer { result ≡ told (pass (said (layout_of layout) file.now (is.explanation e))) (length text.old) }
    ensures written { text.new ≡ text_after (pass (said (layout_of layout) file.now (is.explanation e))) text.old }
{
    let mut scrap = [0u8; 1];
    let n = line(layout, file, e, &mut scrap);
    if text.len() < n {
        return Listed {
            number: ROOM,
            length: 0,
        };
    }
    line(layout, file, e, text);
    Listed {
        number: 0,
        length: n as u64,
    }
}
