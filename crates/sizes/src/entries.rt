// How many bytes the entries of components and objects take, row after row.
ghost use Rattle.std.specs.Prelude.{◌≡◌, ◌+◌, ◌*◌, ◌≤◌, ◌<◌, length, get_or};
ghost use Rattle.meaning.specs.Columns.{object_width, component_width, rank_column};
ghost use Rattle.meaning.specs.Asked.{each_row, asked_object, asked_component};
ghost use Rattle.rows.specs.Turns.{begun, turn_limit, reached, blob_sizes};
ghost use Rattle.sizes.specs.Size as is;
ghost use Rattle.sizes.specs.Measured.{Fits};

use crate::piece::{attributes, called, capped, dimensions, head, optional_text, text};
use crate::placing::{first_turn, offset_at, stepped, turn_past};
use columns::{
    ATTRIBUTES, ATTRIBUTES_LENGTH, COUNT, DIGEST, DIGEST_LENGTH, DTYPE, FORMAT_LENGTH, LENGTH,
    NAME_LENGTH, TYPE, TYPE_LENGTH,
};

// What takes the same bytes whatever a component's texts are.
fn fixed(dtype: u64, offset: u64, size: u64) -> u64
    ensures { (result ≡ is.fixed_size dtype offset size) × (result < 64) }
{
    22 + called(dtype) + head(offset) + head(size)
}

// The component whose row these numbers begin with.
fn component(row: &[u64], offset: u64) -> u64
    requires { component_width ≤ length row.now }
    ensures { result ≡ is.capped (is.component_size offset (asked_component row.now)) }
{
    let texts = text(row[NAME_LENGTH])
        + optional_text(5, row[TYPE], row[TYPE_LENGTH])
        + optional_text(7, row[DIGEST], row[DIGEST_LENGTH]);
    capped(texts + fixed(row[DTYPE], offset, row[LENGTH]))
}

// n components, where the turn `first` is reached.
pub fn components(plan: &[u64], rows: &[u64], n: u64, first: u64) -> u64
    requires n_in_bounds { component_width * n ≤ length rows.now }
    requires rows_bound { reached plan.now first (blob_sizes (each_row asked_component component_width n rows.now)) ≤ turn_limit plan.now }
    ensures { result ≡ is.capped (is.components_size plan.now first (each_row asked_component component_width n rows.now)) }
{
    let mut turn = first;
    let mut total = 0;
    for i in 0..n as usize {
        let at = columns::COMPONENT * i;
        let size = component(&rows[at..], offset_at(plan, turn));
        total = capped(total + size);
        turn = stepped(plan, turn, rows[at + LENGTH]);
    }
    total
}

// The object whose row these numbers begin with, without its components.
pub fn object(row: &[u64]) -> u64
    requires object_width_in_bounds { object_width ≤ length row.now }
    requires rank_column_bound { get_or row.now rank_column 0 ≤ 8 }
    ensures { result ≡ is.capped (is.object_size (asked_object row.now)) }
{
    let texts = text(row[NAME_LENGTH]) + text(row[FORMAT_LENGTH]);
    capped(texts + 26 + dimensions(row) + attributes(row[ATTRIBUTES], row[ATTRIBUTES_LENGTH]))
}

// n objects, their components in order.
pub fn objects(plan: &[u64], rows: &[u64], parts: &[u64], n: u64) -> u64
    requires { Fits plan.now rows.now parts.now n 0 0 (begun plan.now) }
    ensures { result ≡ is.capped (is.objects_size_in plan.now rows.now parts.now n) }
{
    let mut from = 0;
    let mut turn = first_turn(plan);
    let mut total = 0;
    for i in 0..n as usize {
        let row = columns::OBJECT * i;
        let count = rows[row + COUNT];
        let own = object(&rows[row..]) + head(count);
        total = capped(total + own + components(plan, &parts[from..], count, turn));
        turn = turn_past(plan, &parts[from..], count, turn);
        from += columns::COMPONENT * count as usize;
    }
    total
}
