// An accepted manifest's objects one after the other, the rows of one at a time in a window on the stack: what the writer's sums come to, and the objects' names, without a table.
// Every slice runs to the manifest's end, which is the file's place `end`.
#![tactic(auto)]

ghost use Rattle.std.specs.Prelude.{suc, ◌≤◌, length};
ghost use Rattle.meaning.specs.Limit.{manifest_limit, end_limit};
ghost use Rattle.window.specs.Summed.{Added, AllSummed, Measured};
ghost use Rattle.walk.specs.Places.{Modes};

use columns::{COUNT, NAME, NAME_LENGTH, RANK};
use sizes::{entries, piece, placing};
use table::{Place, lay};
use walk::{Entry, Opening};

// Where the last blob ends, or 2^40 + 1; and how many bytes the objects' entries take, or the limit and 1.
#[derive(Clone, Copy)]
pub struct Sum {
    pub place: u64,
    pub total: u64,
}

// One object's rows, which begin t, added: its blobs from the place on, its entry after the bytes.
pub fn add(t: &[u64], have: Sum) -> Sum
    requires in_bounds { 208 ≤ length t.now }
    requires place_bound { (have.place ≤ suc end_limit) × (have.total ≤ suc manifest_limit) }
    ensures sum { Added t.now have.place have.total result.place result.total }
    ensures small { (result.place ≤ suc end_limit) × (result.total ≤ suc manifest_limit) }
{
    let count = t[COUNT];
    if 16 < count || 8 < t[RANK] || numbers::END_MOST < have.place {
        return have;
    }
    let next = placing::end(&t[columns::OBJECT..], count, have.place);
    if numbers::END_MOST < next {
        return Sum {
            place: next,
            total: have.total,
        };
    }
    let own = entries::object(&t[0..]) + piece::head(count);
    let parts = entries::components(&t[0..0], &t[columns::OBJECT..], count, have.place);
    Sum {
        place: next,
        total: piece::capped(have.total + own + parts),
    }
}

// Entries that begin s, counted as `walk::map` says. Places and lengths of the names are put from `from` on, two numbers for each.
fn each(
    layout: u64,
    s: &[u8],
    start: u64,
    end: usize,
    mode: u64,
    count: u64,
    have: Sum,
    from: usize,
    names: &mut [u64],
) -> Sum
    requires modes { Modes mode count }
    requires first_bound { (have.place ≤ suc end_limit) × (have.total ≤ suc manifest_limit) }
    ensures sum { AllSummed layout start end mode count have.place have.total from s.now names.old result.place result.total names.new }
    ensures small { (result.place ≤ suc end_limit) × (result.total ≤ suc manifest_limit) }
{
    let mut rows = [0u64; 64];
    let mut t = [0u64; 208];
    let mut at = 0;
    let mut due = count;
    let mut sum = have;
    let mut next = from;
    loop {
        match walk::past_key(&s[at..], mode, due, numbers::IN_OBJECTS) {
            Entry::End(_) => return sum,
            Entry::Value(k) => {
                let v = at + k;
                let to = Place {
                    end: end,
                    owner: 0,
                    row: 0,
                    from: columns::OBJECT,
                };
                let w = object::object(layout, &s[at..], &s[v..], start, to, &mut rows, &mut t);
                if s.len() - v < w.end {
                    return sum;
                }
                sum = add(&t, sum);
                lay::two(names, next, t[NAME], t[NAME_LENGTH]);
                next = lay::next_row(next, 2, names.len());
                at = v + w.end;
                due -= 2;
            }
        }
    }
}

// The objects whose map begins s, at depth 2, in a file whose manifest begins at `start`: their blobs from the place of `have` on, their entries after its bytes.
pub fn measure(
    layout: u64,
    s: &[u8],
    start: u64,
    end: usize,
    have: Sum,
    from: usize,
    names: &mut [u64],
) -> Sum
    requires { (have.place ≤ suc end_limit) × (have.total ≤ suc manifest_limit) }
    ensures sum { Measured layout start end have.place have.total from s.now names.old result.place result.total names.new }
    ensures small { (result.place ≤ suc end_limit) × (result.total ≤ suc manifest_limit) }
{
    match walk::map(&s[0..]) {
        None => have,
        Some(Opening { mode, count, size }) => each(
            layout,
            &s[size..],
            start,
            end,
            mode,
            count,
            have,
            from,
            names,
        ),
    }
}
