// The `objects` map: its names, and each object judged and its rows put, by one walk. The judge lends it an empty table, the reader ignores what it finds.
#![tactic(auto)]

ghost use Rattle.std.specs.Prelude.{true, ◌≡◌, length};
ghost use Rattle.meaning.specs.Layouts.{layout_of};
ghost use Rattle.cbor.specs.Ending.{code, item_end, rest};
ghost use Rattle.walk.specs.Places.{Modes};
ghost use Rattle.table.specs.Objects.{WholePut, AllLaid, Written};
ghost use Rattle.objects.specs.Found.{ObjectsIs};
ghost use Rattle.objects.specs.Firsts.{plus, OneIs, Beyond, Keeps, Walked, Concluded};

use naming::Tally;
use numbers::{FileFault, ObjectFault, Refusal};
use table::Place;
use table::lay::next_row;
use walk::{Entry, Opening};

// How many objects and components there are.
#[derive(Clone, Copy)]
pub struct Found {
    pub objects: usize,
    pub components: usize,
}

// Where the entries end, the tally of their names, and how many components there are, or the first fault among the entries.
#[derive(Clone, Copy)]
struct Run {
    end: usize,
    names: Tally,
    first: Result<usize, FileFault>,
}

// Where the value ends, as `cbor::skip` answers it, and what it says if it is well-formed: what there is, or the first fault.
#[derive(Clone, Copy)]
pub struct Whole {
    pub end: usize,
    pub found: Result<Found, FileFault>,
}

// Components so far and m more; as they are where there are too many to count, which COUNT refuses.
pub fn plus(total: usize, m: usize) -> usize
    ensures { result ≡ plus total m }
{
    if m <= 16 {
        if total <= 16368 {
            return total + m;
        }
    }
    total
}

// The first fault after one more object, number j.
fn keep(
    v: Result<usize, ObjectFault>,
    j: usize,
    first: Result<usize, FileFault>,
) -> Result<usize, FileFault>
    ensures { Keeps v j first result }
{
    let total = first?;
    match v {
        Err(fault) => Err(FileFault {
            refusal: fault.refusal,
            object: j,
            component: fault.component,
        }),
        Ok(m) => Ok(plus(total, m)),
    }
}

// The value that begins c, whose key begins s, judged as an object and its rows put; passed over where only names are asked for.
fn one(
    layout: u64,
    s: &[u8],
    c: &[u8],
    start: u64,
    deep: bool,
    to: Place,
    rows: &mut [u64],
    t: &mut [u64],
) -> object::Whole
    requires { length rows.old ≡ 64 }
    ensures { (result.end ≡ code (item_end 30 c.now)) × OneIs deep (layout_of layout) c.now start result.verdict × (deep ≡ true → WholePut layout s.now c.now start to.end to.owner to.row to.from t.old t.new) }
{
    if deep {
        return object::object(layout, &s[0..], &c[0..], start, to, rows, t);
    }
    object::Whole {
        end: cbor::skip(&c[0..], numbers::IN_OBJECTS),
        verdict: Ok(0),
    }
}

// Where the components' rows of the next object begin, if those of this one, judged as v, begin at `from` of a table with `room` numbers.
fn beyond(v: Result<usize, ObjectFault>, from: usize, room: usize) -> usize
    ensures { Beyond v from room result }
{
    let Ok(n) = v else {
        return from;
    };
    if 16 < n {
        return from;
    }
    next_row(from, columns::COMPONENT * n, room)
}

// Entries that begin s, counted as `walk::map` says. Their names are noted in left and size; the objects' rows are put from the table's start on, the components' from `from` on.
fn entries(
    layout: u64,
    s: &[u8],
    start: u64,
    deep: bool,
    mode: u64,
    count: u64,
    end: usize,
    from: usize,
    left: &mut [usize],
    size: &mut [usize],
    t: &mut [u64],
) -> Run
    requires { (length size.old ≡ length left.old) × Modes mode count }
    ensures { (result.end ≡ code (rest mode count 30 s.now)) × (length left.new ≡ length left.old) × Walked deep (layout_of layout) start mode count s.now result.names left.new size.new result.first × (deep ≡ true → AllLaid layout start end from mode count s.now t.old t.new) }
{
    let mut at = 0;
    let mut due = count;
    let mut names = Tally {
        count: 0,
        odd: false,
        bad: false,
    };
    let mut first = Ok(0);
    let mut rows = [0u64; 64];
    let mut row = 0;
    let mut next = from;
    loop {
        match walk::past_key(&s[at..], mode, due, numbers::IN_OBJECTS) {
            Entry::End(e) => {
                if s.len() - at < e {
                    return Run {
                        end: e,
                        names: names,
                        first: first,
                    };
                }
                return Run {
                    end: at + e,
                    names: names,
                    first: first,
                };
            }
            Entry::Value(k) => {
                let v = at + k;
                let to = Place {
                    end: end,
                    owner: names.count as u64,
                    row: row,
                    from: next,
                };
                let w = one(layout, &s[at..], &s[v..], start, deep, to, &mut rows, t);
                if s.len() - v < w.end {
                    return Run {
                        end: w.end,
                        names: names,
                        first: first,
                    };
                }
                let judged = w.verdict;
                first = keep(judged, names.count, first);
                row = next_row(row, columns::OBJECT, t.len());
                next = beyond(judged, next, t.len());
                names = naming::note(&s[at..], names, left, size);
                at = v + w.end;
                due -= 2;
            }
        }
    }
}

// What the names and the first fault come to.
fn verdict(
    m: &[u8],
    names: Tally,
    first: Result<usize, FileFault>,
    left: &[usize],
    size: &[usize],
) -> Result<Found, FileFault>
    requires { length left.now ≡ 1024 }
    ensures { Concluded m.now names first left.now size.now result }
{
    let mut ix = [0u16; 1024];
    let objects = names.count;
    naming::judge(&m[0..], names, &left[0..], &size[0..], &mut ix)?;
    let components = first?;
    Ok(Found {
        objects,
        components,
    })
}

// The objects that begin c, at depth 2, of a file whose manifest begins at `start`; their names alone unless `deep`.
pub fn objects(layout: u64, c: &[u8], start: u64, deep: bool) -> Whole
    ensures { (result.end ≡ code (item_end 31 c.now)) × ObjectsIs deep (layout_of layout) c.now start result.found }
{
    let mut left = [0usize; 1024];
    let mut size = [0usize; 1024];
    let mut none = [0u64; 0];
    match walk::map(&c[0..]) {
        None => Whole {
            end: cbor::skip(&c[0..], numbers::IN_ROOT),
            found: Err(FileFault::from(Refusal::Kind)),
        },
        Some(
            Opening {
                mode,
                count,
                size: from,
            },
        ) => {
            let w = entries(
                layout,
                &c[from..],
                start,
                deep,
                mode,
                count,
                0,
                0,
                &mut left,
                &mut size,
                &mut none,
            );
            let names = w.names;
            let first = w.first;
            let f = verdict(&c[from..], names, first, &left, &size);
            if c.len() - from < w.end {
                return Whole {
                    end: w.end,
                    found: f,
                };
            }
            Whole {
                end: from + w.end,
                found: f,
            }
        }
    }
}

// Puts the rows of the objects whose map begins c, at depth 2, of a file whose manifest begins at `start` and ends at `end`: those of objects first, then from number `from` on those of components.
pub fn lay(layout: u64, c: &[u8], start: u64, end: usize, from: usize, t: &mut [u64])
    ensures { Written layout c.now start end from t.old t.new }
{
    let mut left = [0usize; 0];
    let mut size = [0usize; 0];
    let Some(opening) = walk::map(&c[0..]) else {
        return;
    };
    let head = opening.size;
    entries(
        layout,
        &c[head..],
        start,
        true,
        opening.mode,
        opening.count,
        end,
        from,
        &mut left,
        &mut size,
        t,
    );
}
