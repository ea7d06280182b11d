// The objects of a manifest one after the other, each judged for itself: those that pass are kept, the others dropped. In a first pass what is kept is measured, one object's rows at a time in a window on the
// stack; in a second its rows are put into a table, and what is dropped into a list. Every slice runs to the manifest's end, which is the file's place `end`.
#![tactic(auto)]

ghost use Rattle.std.specs.Prelude.{◌≡◌, [], ◌∷◌, suc, ◌+◌, ◌≤◌, length};
ghost use Rattle.std.proofs.lemmas.List.Edits.{sets};
ghost use Rattle.meaning.specs.Limit.{manifest_limit, end_limit};
ghost use Rattle.cbor.specs.Ending.{code, item_end};
ghost use Rattle.numbers.specs.Numbered.{number_of};
ghost use Rattle.objects.specs.Firsts.{plus};
ghost use Rattle.sieve.specs.Sieved as is;
ghost use Rattle.walk.specs.Places.{Modes};

use numbers::ObjectFault;
use table::{Place, lay};
use walk::{Entry, Opening};
use window::Sum;

// How many objects are kept and dropped, how many components are kept; where the last blob ends, or 2^40 + 1, and how many bytes the entries take, or the limit and 1.
#[derive(Clone, Copy)]
pub struct Sieve {
    pub kept: usize,
    pub dropped: usize,
    pub components: usize,
    pub place: u64,
    pub total: u64,
}

// A pass over a manifest of this layout, which begins and ends there in its file: its objects are measured; or they are to be filled, the components' rows from `from` on.
#[derive(Clone, Copy)]
struct Pass {
    layout: u64,
    start: u64,
    end: usize,
    fill: bool,
    from: usize,
}

// Where a value ends, as `cbor::skip` answers it, and what there is with it.
#[derive(Clone, Copy)]
struct Turn {
    end: usize,
    sieve: Sieve,
}

// One more, up to the limit of objects. No `min`: the definition `more` leaves a number above the limit as it is.
fn more(n: usize) -> usize
    ensures { result ≡ is.more n }
{
    if n < numbers::OBJECTS_MOST {
        return n + 1;
    }
    n
}

// The object whose key begins s and whose value begins c, put into the window t and added to the sums.
fn weigh(pass: Pass, s: &[u8], c: &[u8], have: Sum, t: &mut [u64]) -> Sum
    requires in_bounds { 208 ≤ length t.old }
    requires place_bound { (have.place ≤ suc end_limit) × (have.total ≤ suc manifest_limit) }
    ensures sum { is.Weighed pass.layout s.now c.now pass.start pass.end have.place have.total result.place result.total }
    ensures small { (result.place ≤ suc end_limit) × (result.total ≤ suc manifest_limit) }
{
    let mut rows = [0u64; 64];
    let to = Place {
        end: pass.end,
        owner: 0,
        row: 0,
        from: columns::OBJECT,
    };
    object::object(pass.layout, &s[0..], &c[0..], pass.start, to, &mut rows, t);
    window::add(t, have)
}

// An object that passes, of m components: measured in the window t, or put into the table t.
fn keep(pass: Pass, s: &[u8], c: &[u8], m: usize, have: Sieve, t: &mut [u64]) -> Sieve
    requires { (pass.from ≤ 16384) × is.Bounded have × (208 ≤ length t.old + is.when pass.fill) }
    ensures kept { is.Keeps pass.layout s.now c.now pass.start pass.end pass.fill pass.from m have t.old result t.new }
    ensures small { is.Bounded result }
{
    let mut rows = [0u64; 64];
    let components = objects::plus(have.components, m);
    if pass.fill {
        let to = Place {
            end: pass.end,
            owner: have.kept as u64,
            row: columns::OBJECT * have.kept,
            from: pass.from + columns::COMPONENT * have.components,
        };
        object::object(pass.layout, &s[0..], &c[0..], pass.start, to, &mut rows, t);
        return Sieve {
            kept: more(have.kept),
            dropped: have.dropped,
            components: components,
            place: have.place,
            total: have.total,
        };
    }
    let before = Sum {
        place: have.place,
        total: have.total,
    };
    let sum = weigh(pass, &s[0..], &c[0..], before, t);
    Sieve {
        kept: more(have.kept),
        dropped: have.dropped,
        components: components,
        place: sum.place,
        total: sum.total,
    }
}

// Three numbers. What would stand beyond the list's end is left out.
fn three(list: &mut [u64], i: usize, a: u64, b: u64, c: u64)
    ensures { list.new ≡ sets list.old i (a ∷ b ∷ c ∷ []) }
{
    if i < list.len() {
        lay::put(list, i, a);
        lay::put(list, i + 1, b);
        lay::put(list, i + 2, c);
    }
}

// An object that is refused: into the list with the refusal's number and its component, where that is filled.
fn omit(fill: bool, fault: ObjectFault, have: Sieve, list: &mut [u64]) -> Sieve
    requires { is.Bounded have }
    ensures dropped { is.Omits fill (number_of fault.refusal) fault.component have list.old result list.new }
    ensures small { is.Bounded result }
{
    if fill {
        three(
            list,
            3 * have.dropped,
            (have.kept + have.dropped) as u64,
            u64::from(fault.refusal),
            fault.component as u64,
        );
    }
    Sieve {
        kept: have.kept,
        dropped: more(have.dropped),
        components: have.components,
        place: have.place,
        total: have.total,
    }
}

// The object whose key begins s and whose value begins c, judged for itself.
fn step(pass: Pass, s: &[u8], c: &[u8], have: Sieve, t: &mut [u64], list: &mut [u64]) -> Turn
    requires { (pass.from ≤ 16384) × is.Bounded have × (208 ≤ length t.old + is.when pass.fill) }
    ensures end { result.end ≡ code (item_end 30 c.now) }
    ensures sieve { is.Steps pass.layout s.now c.now pass.start pass.end pass.fill pass.from have t.old list.old result.sieve t.new list.new }
    ensures small { is.Bounded result.sieve }
{
    let mut rows = [0u64; 64];
    let mut none = [0u64; 0];
    let to = Place {
        end: pass.end,
        owner: 0,
        row: 0,
        from: 0,
    };
    let judged = object::object(
        pass.layout,
        &s[0..],
        &c[0..],
        pass.start,
        to,
        &mut rows,
        &mut none,
    );
    let sieve = match judged.verdict {
        Ok(m) => keep(pass, &s[0..], &c[0..], m, have, t),
        Err(fault) => omit(pass.fill, fault, have, list),
    };
    Turn {
        end: judged.end,
        sieve: sieve,
    }
}

// Entries that begin s, counted as `walk::map` says.
fn each(pass: Pass, s: &[u8], mode: u64, count: u64, t: &mut [u64], list: &mut [u64]) -> Sieve
    requires { (pass.from ≤ 16384) × Modes mode count × (208 ≤ length t.old + is.when pass.fill) }
    ensures sieve { is.AllSieved pass.layout pass.start pass.end mode count pass.fill pass.from s.now t.old list.old result t.new list.new }
    ensures small { is.Bounded result }
{
    let mut at = 0;
    let mut due = count;
    let mut have = Sieve {
        kept: 0,
        dropped: 0,
        components: 0,
        place: 8,
        total: 0,
    };
    loop {
        match walk::past_key(&s[at..], mode, due, numbers::IN_OBJECTS) {
            Entry::End(_) => return have,
            Entry::Value(k) => {
                let v = at + k;
                let w = step(pass, &s[at..], &s[v..], have, t, list);
                let e = w.end;
                have = w.sieve;
                if s.len() - v < e {
                    return have;
                }
                at = v + e;
                due -= 2;
            }
        }
    }
}

// The objects whose map begins s, at depth 2, in a file whose manifest begins at `start`: measured in the window t; or, where they are to be filled, their rows put into the table t, those of components from `from` on,
// and what is dropped into the list.
pub fn sift(
    layout: u64,
    s: &[u8],
    start: u64,
    end: usize,
    fill: bool,
    from: usize,
    t: &mut [u64],
    list: &mut [u64],
) -> Sieve
    requires { (from ≤ 16384) × (208 ≤ length t.old + is.when fill) }
    ensures sieve { is.Sifted layout s.now start end fill from t.old list.old result t.new list.new }
    ensures small { is.Bounded result }
{
    match walk::map(&s[0..]) {
        None => Sieve {
            kept: 0,
            dropped: 0,
            components: 0,
            place: 8,
            total: 0,
        },
        Some(Opening { mode, count, size }) => {
            let pass = Pass {
                layout,
                start,
                end,
                fill,
                from,
            };
            each(pass, &s[size..], mode, count, t, list)
        }
    }
}
