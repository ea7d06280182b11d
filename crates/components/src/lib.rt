// The `components` map of an object: its names, and each component judged and its row put, in one walk. Whoever wants no rows lends an empty table.
#![tactic(auto)]

pub mod row;

ghost use Rattle.std.specs.Prelude.{◌≡◌, ℕ, length};
ghost use Rattle.cbor.specs.Ending.{code as ending, item_end, rest};
ghost use Rattle.walk.specs.Places.{Modes};
ghost use Rattle.table.specs.Given.{offered};
ghost use Rattle.table.specs.Rows.{AllRowed, RowsPut};
ghost use Rattle.components.specs.Firsts.{Keeps, Walked, Concluded, ComponentsAre};

use component::Judged;
use naming::Tally;
use numbers::{ObjectFault, Refusal};
use row::{plain, unit};
use table::Place;
use table::lay::next_row;
use table::row::put_row;
use table::stored::{role, stored};
use walk::{Entry, Opening};

// Where the entries end, the tally of their names, and the first fault among them.
#[derive(Clone, Copy)]
struct Run {
    end: usize,
    names: Tally,
    first: Result<(), ObjectFault>,
}

// Where a value ends, as `cbor::skip` answers it, and if it is well-formed how many components there are, or the first fault.
#[derive(Clone, Copy)]
pub struct Whole {
    pub end: usize,
    pub found: Result<usize, ObjectFault>,
}

// The first fault after one more component, number j, whose key begins s and whose value begins c. Its row is put where it has none.
fn keep(
    layout: u64,
    format: u64,
    s: &[u8],
    c: &[u8],
    v: Result<Judged, Refusal>,
    j: usize,
    first: Result<(), ObjectFault>,
    rows: &mut [u64],
) -> Result<(), ObjectFault>
    requires { length rows.old ≡ 64 }
    ensures { (length rows.new ≡ 64) × ((code : ℕ) → Keeps (offered layout format code) s.now c.now v j first rows.old result rows.new) }
{
    first?;
    match v {
        Err(refusal) => Err(ObjectFault {
            refusal: refusal,
            component: j,
        }),
        Ok(judged) => {
            let left = judged.kind;
            let r = role(&s[0..]);
            let kept = stored(layout, format, r, judged.code);
            let u = unit(&c[0..], kept, left);
            row::put_row(rows, j, r, u, plain(kept, left), judged.length);
            Ok(())
        }
    }
}

// Entries that begin s, counted as `walk::map` says. Their names are noted in left and size, their rows are put: into rows for the judge, into t for the reader.
fn entries(
    layout: u64,
    format: u64,
    code: u64,
    s: &[u8],
    start: u64,
    mode: u64,
    count: u64,
    to: Place,
    left: &mut [usize],
    size: &mut [usize],
    rows: &mut [u64],
    t: &mut [u64],
) -> Run
    requires { (length left.old ≡ 16) × (length size.old ≡ 16) × (length rows.old ≡ 64) × Modes mode count }
    ensures { (result.end ≡ ending (rest mode count 28 s.now)) × (length left.new ≡ 16) × (length rows.new ≡ 64) × Walked (offered layout format code) start mode count s.now result.names left.new size.new result.first rows.new × AllRowed (offered layout format code) start to.end to.owner to.from mode count s.now t.old t.new }
{
    let mut at = 0;
    let mut due = count;
    let mut names = Tally {
        count: 0,
        odd: false,
        bad: false,
    };
    let mut first = Ok(());
    let mut next = to.from;
    loop {
        match walk::past_key(&s[at..], mode, due, numbers::IN_COMPONENTS) {
            Entry::End(e) => {
                if s.len() - at < e {
                    return Run {
                        end: e,
                        names: names,
                        first: first,
                    };
                }
                return Run {
                    end: at + e,
                    names: names,
                    first: first,
                };
            }
            Entry::Value(k) => {
                let v = at + k;
                let w = component::component(layout, code, &s[v..], start);
                if s.len() - v < w.end {
                    return Run {
                        end: w.end,
                        names: names,
                        first: first,
                    };
                }
                let judged = w.verdict;
                let e = w.end;
                first = keep(
                    layout,
                    format,
                    &s[at..],
                    &s[v..],
                    judged,
                    names.count,
                    first,
                    rows,
                );
                put_row(
                    layout,
                    format,
                    &s[at..],
                    &s[v..],
                    judged,
                    e,
                    to.end,
                    to.owner,
                    next,
                    t,
                );
                next = next_row(next, columns::COMPONENT, t.len());
                names = naming::note(&s[at..], names, left, size);
                at = v + w.end;
                due -= 2;
            }
        }
    }
}

// What the names and the first fault come to.
fn verdict(
    m: &[u8],
    names: Tally,
    first: Result<(), ObjectFault>,
    left: &[usize],
    size: &[usize],
) -> Result<usize, ObjectFault>
    requires { length left.now ≡ 16 }
    ensures { Concluded m.now names first left.now size.now result }
{
    let mut ix = [0u16; 16];
    let count = names.count;
    naming::judge(&m[0..], names, &left[0..], &size[0..], &mut ix)?;
    first?;
    Ok(count)
}

// The components that begin c, at depth 4, of a file whose manifest begins at `start`. Their rows are put into t, and into rows four numbers for each. `format` (types::format_code) and `code`, 13 or
// more for none, are what their object says of their storage.
pub fn components(
    layout: u64,
    format: u64,
    code: u64,
    c: &[u8],
    start: u64,
    to: Place,
    rows: &mut [u64],
    t: &mut [u64],
) -> Whole
    requires { length rows.old ≡ 64 }
    ensures { (result.end ≡ ending (item_end 29 c.now)) × (length rows.new ≡ 64) × ComponentsAre (offered layout format code) c.now start result.found rows.new × RowsPut (offered layout format code) c.now start to.end to.owner to.from t.old t.new }
{
    let mut left = [0usize; 16];
    let mut size = [0usize; 16];
    match walk::map(&c[0..]) {
        None => Whole {
            end: cbor::skip(&c[0..], numbers::IN_OBJECT),
            found: Err(ObjectFault::from(Refusal::Kind)),
        },
        Some(
            Opening {
                mode,
                count,
                size: from,
            },
        ) => {
            let w = entries(
                layout,
                format,
                code,
                &c[from..],
                start,
                mode,
                count,
                to,
                &mut left,
                &mut size,
                rows,
                t,
            );
            let names = w.names;
            let first = w.first;
            let f = verdict(&c[from..], names, first, &left, &size);
            if c.len() - from < w.end {
                return Whole {
                    end: w.end,
                    found: f,
                };
            }
            Whole {
                end: from + w.end,
                found: f,
            }
        }
    }
}
