// Which placement plans are accepted (document 02, Request 02): one offset a row, each by the rules, no two blobs sharing a byte, all ends at most at the ceiling.
#![tactic(auto)]

ghost use Rattle.std.specs.Prelude.{◌≡◌, ◌&&◌, ◌+◌, ◌*◌, ◌≤◌, length};
ghost use Rattle.meaning.specs.Columns.{component_width};
ghost use Rattle.meaning.specs.Limit.{end_limit};
ghost use Rattle.meaning.specs.Text.{all};
ghost use Rattle.meaning.specs.Plan as is;
ghost use Rattle.numbers.specs.declared.refusal.Refusal.TheVariants as refusals;
ghost use Rattle.plan.specs.Earlier.{earlier, Earlier};
ghost use Rattle.plan.specs.Earlier as told;

use columns::{COMPONENT, LENGTH};
use numbers::{FileFault, Refusal};

// PLAN, at a row.
fn refused(row: usize) -> FileFault
    ensures { result ≡ record { refusal = refusals.Plan; object = row; component = 0 } }
{
    FileFault {
        refusal: Refusal::Plan,
        object: row,
        component: 0,
    }
}

// What an offset keeps to by itself. The end is never summed, so it can't wrap.
fn allowed(offset: u64, size: u64, ceiling: u64) -> bool
    ensures { result ≡ is.allowed ceiling (is.ranged offset size) }
{
    offset % 64 == 0 && 64 <= offset && offset <= ceiling && size <= ceiling - offset
}

// Two blobs share no byte; an empty one shares none.
fn apart(offset: u64, size: u64, other: u64, long: u64) -> bool
    requires { (offset + size ≤ end_limit) × (other + long ≤ end_limit) }
    ensures { result ≡ is.apart (is.ranged offset size) (is.ranged other long) }
{
    size == 0 || long == 0 || offset + size <= other || other + long <= offset
}

// A blob shares no byte with one of the first n.
fn apart_from(plan: &[u64], rows: &[u64], n: usize, offset: u64, size: u64) -> bool
    requires size_bound { offset + size ≤ end_limit }
    requires earlier { Earlier plan.now rows.now n }
    ensures { result ≡ all (is.apart (is.ranged offset size)) (earlier plan.now rows.now n) }
{
    (0..n).all(|i| apart(offset, size, plan[i], rows[COMPONENT * i + LENGTH]))
}

// The offset of the i-th row, where the earlier blobs end at `end` or before. One that isn't below needs no look at them.
fn follows(plan: &[u64], rows: &[u64], i: usize, end: u64, ceiling: u64) -> bool
    requires { told.Next plan.now rows.now i end ceiling }
    ensures { result ≡ is.allowed ceiling (told.here plan.now rows.now i)
        && all (is.apart (told.here plan.now rows.now i)) (earlier plan.now rows.now i) }
{
    let offset = plan[i];
    let size = rows[COMPONENT * i + LENGTH];
    allowed(offset, size, ceiling) && (end <= offset || apart_from(plan, rows, i, offset, size))
}

// A plan for the blobs of n components' rows, under a ceiling: the greatest end, 8 if there is no row; or PLAN, with the row of the refusal.
pub fn verdict(plan: &[u64], rows: &[u64], n: usize, ceiling: u64) -> Result<u64, FileFault>
    requires { component_width * n ≤ length rows.now }
    ensures { told.Judges plan.now rows.now n ceiling result }
{
    if numbers::END_MOST < ceiling {
        return Err(refused(0));
    }
    let mut end = 8;
    for i in 0..n {
        if plan.len() <= i || !follows(plan, rows, i, end, ceiling) {
            return Err(refused(i));
        }
        end = end.max(plan[i] + rows[COMPONENT * i + LENGTH]);
    }
    if n < plan.len() {
        return Err(refused(n));
    }
    Ok(end)
}
