// What changed between two files, each of its own layout: both are read into the room that is lent, their objects compared, and the room ends as zeros.
#![tactic(auto)]

ghost use Rattle.std.specs.Prelude.{◌≡◌, length, replicate};
ghost use Rattle.meaning.specs.Layouts.{layout_of};
ghost use Rattle.meaning.specs.Frame.{reading};
ghost use Rattle.comparing.specs.Comparison as is;

use account::clear;
use models::Objects;
use numbers::Refusal;

// The verdict, the file that is refused, or 0; and how many entries the list has. All but the first four are 0 on refusal, unless the list is too short.
#[repr(C)]
#[derive(Clone, Copy)]
pub struct Changes {
    pub number: u64,
    pub file: u64,
    pub object: u64,
    pub component: u64,
    pub entries: u64,
}

// Why two files can't be compared: the first's refusal, the second's, or else the room.
fn refusal(layout: u64, first: &[u8], other: u64, second: &[u8]) -> Changes
    ensures { result ≡ is.refused_by (reading (layout_of layout) first.now) (reading (layout_of other) second.now) }
{
    let v = reader::accept_as(layout, first);
    if v.number != 0 {
        return Changes {
            number: v.number,
            file: 1,
            object: v.object,
            component: v.component,
            entries: 0,
        };
    }
    let w = reader::accept_as(other, second);
    if w.number != 0 {
        return Changes {
            number: w.number,
            file: 2,
            object: w.object,
            component: w.component,
            entries: 0,
        };
    }
    Changes {
        number: Refusal::Room as u64,
        file: 0,
        object: 0,
        component: 0,
        entries: 0,
    }
}

// By the tables of both: counted in a list of one number, then written if it fits and there are any.
fn compared(first: Objects<'_>, second: Objects<'_>, list: &mut [u64]) -> Changes
    ensures answer { let a = first.entry in let b = second.entry in result ≡ is.fitting (is.numbers_of a.file.now a.table.now a.count b.file.now b.table.now b.count) (length list.old) }
    ensures written { let a = first.entry in let b = second.entry in list.new ≡ is.list_after (is.numbers_of a.file.now a.table.now a.count b.file.now b.table.now b.count) list.old }
{
    let mut scrap = [0u64; 1];
    let k = models::of_tables(first, second, &mut scrap);
    let entries = k as u64 / 8;
    if list.len() < k {
        return Changes {
            number: Refusal::Room as u64,
            file: 0,
            object: 0,
            component: 0,
            entries: entries,
        };
    }
    if 0 < k {
        models::of_tables(first, second, list);
    }
    Changes {
        number: 0,
        file: 0,
        object: 0,
        component: 0,
        entries: entries,
    }
}

// Two files, lent whole, the first of `layout`, the second of `other`, with room for the rows of both.
pub fn of_files(
    layout: u64,
    first: &[u8],
    other: u64,
    second: &[u8],
    work: &mut [u64],
    list: &mut [u64],
) -> Changes
    ensures answer { result ≡ is.told (is.compared (layout_of layout) first.now (layout_of other) second.now (length work.old)) (length list.old) }
    ensures written { list.new ≡ is.after (is.compared (layout_of layout) first.now (layout_of other) second.now (length work.old)) list.old }
    ensures cleared { work.new ≡ replicate (length work.old) 0 }
{
    let a = reader::into::read_as(layout, first, work);
    if a.number != 0 {
        clear(work);
        return refusal(layout, first, other, second);
    }
    let m = a.objects as usize;
    let room = columns::OBJECT * m + columns::COMPONENT * a.components as usize;
    let b = reader::into::read_as(other, second, &mut work[room..]);
    if b.number != 0 {
        clear(work);
        return refusal(layout, first, other, second);
    }
    let both = &work[..];
    let ours = Objects {
        file: first,
        table: &both[..room],
        count: m,
    };
    let theirs = Objects {
        file: second,
        table: &both[room..],
        count: b.objects as usize,
    };
    let c = compared(ours, theirs, list);
    clear(work);
    c
}
