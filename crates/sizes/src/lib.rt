// Exact lengths of what the writer is asked to write, by its rows alone: where the last blob ends without a plan, and how long the manifest gets. Sums stop one above their limit.
#![tactic(auto)]

pub mod entries;
pub mod piece;
pub mod placing;

ghost use Rattle.std.specs.Prelude.{◌+◌, ◌*◌, ◌≤◌, length};
ghost use Rattle.meaning.specs.Columns.{object_width, component_width};
ghost use Rattle.sizes.specs.Measured as is;

// Where the last blob ends, or 2^40 + 1.
pub fn last_end(rows: &[u64], objects: u64, components: u64) -> u64
    requires { object_width * objects + component_width * components ≤ length rows.now }
    ensures { is.EndIs rows.now objects components result }
{
    let first = (columns::OBJECT_64 * objects) as usize;
    placing::end(&rows[first..], components, 8)
}

// How long the manifest gets by this plan, or the limit and 1.
pub fn manifest(
    plan: &[u64],
    rows: &[u64],
    objects: u64,
    components: u64,
    place: u64,
    size: u64,
) -> u64
    requires { is.Measurable plan.now rows.now objects components }
    ensures { is.ManifestIs plan.now rows.now objects components (record { place = place; size = size }) result }
{
    let first = (columns::OBJECT_64 * objects) as usize;
    let held = entries::objects(plan, rows, &rows[first..], objects);
    piece::capped(23 + piece::attributes(place, size) + piece::head(objects) + held)
}
