// Where blobs stand, turn by turn: as a plan says, or by document 01's rule where there is none (an empty plan).
ghost use Rattle.std.specs.Prelude.{◌≡◌, [], ◌*◌, ◌≤◌, length};
ghost use Rattle.meaning.specs.Columns.{component_width};
ghost use Rattle.meaning.specs.Limit.{end_limit};
ghost use Rattle.meaning.specs.Placement as placement;
ghost use Rattle.meaning.specs.Asked.{each_row, asked_component};
ghost use Rattle.rows.specs.Turns.{blob_sizes};
ghost use Rattle.rows.specs.Turns as is;
ghost use Rattle.sizes.specs.Size.{capped_end};

use columns::LENGTH;

// The least multiple of 64 not below a place.
pub fn aligned(n: u64) -> u64
    requires { n ≤ end_limit }
    ensures { result ≡ placement.aligned n }
{
    (n + 63) / 64 * 64
}

// Where the last of n components' blobs ends, from the place `start` on, or 2^40 + 1. Ends only grow, so the first above stops the count.
pub fn end(rows: &[u64], n: u64, start: u64) -> u64
    requires n_in_bounds { component_width * n ≤ length rows.now }
    requires start_le_end_limit { start ≤ end_limit }
    ensures { result ≡ capped_end (is.reached [] start (blob_sizes (each_row asked_component component_width n rows.now))) }
{
    let mut place = start;
    for i in 0..n as usize {
        let offset = aligned(place);
        let size = rows[columns::COMPONENT * i + LENGTH];
        if numbers::END_MOST - offset < size {
            return numbers::END_MOST + 1;
        }
        place = offset + size;
    }
    place
}

pub fn first_turn(plan: &[u64]) -> u64
    ensures { result ≡ is.begun plan.now }
{
    if plan.is_empty() { 8 } else { 0 }
}

// Where the blob stands whose turn it is.
pub fn offset_at(plan: &[u64], turn: u64) -> u64
    requires { turn ≤ is.turn_limit plan.now }
    ensures { result ≡ is.offset_at plan.now turn }
{
    if plan.is_empty() {
        return aligned(turn);
    }
    plan.get(turn as usize).copied().unwrap_or(0)
}

// The turn after a blob of this length.
pub fn stepped(plan: &[u64], turn: u64, size: u64) -> u64
    requires { is.stepped plan.now turn size ≤ is.turn_limit plan.now }
    ensures { result ≡ is.stepped plan.now turn size }
{
    if plan.is_empty() {
        return aligned(turn) + size;
    }
    turn + 1
}

// The turn after n components.
pub fn turn_past(plan: &[u64], rows: &[u64], n: u64, turn: u64) -> u64
    requires n_in_bounds { component_width * n ≤ length rows.now }
    requires rows_bound { is.reached plan.now turn (blob_sizes (each_row asked_component component_width n rows.now)) ≤ is.turn_limit plan.now }
    ensures { result ≡ is.reached plan.now turn (blob_sizes (each_row asked_component component_width n rows.now)) }
{
    if plan.is_empty() {
        return end(rows, n, turn);
    }
    turn + n
}
