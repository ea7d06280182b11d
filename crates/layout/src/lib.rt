// The whole file that sound rows ask for: header, blobs, manifest, size, footer.
#![tactic(auto)]

pub mod components;
mod fields;
pub mod framing;
pub mod objects;

ghost use Rattle.std.specs.Prelude.{◌≡◌, ◌++◌, true, ◌≤◌, length, drop};
ghost use Rattle.meaning.specs.Sound.{rows_sound};
ghost use Rattle.rows.specs.Turns.{turn_limit};
ghost use Rattle.layout.specs.AskedFile.{root_attributes, asked_file, last_turn};

// Laid into an output that has room for it, by a plan or, where that is empty, by the rule; its length. What lies beyond stays.
pub fn file(
    plan: &[u64],
    rows: &[u64],
    objects: u64,
    components: u64,
    place: u64,
    size: u64,
    buffer: &[u8],
    out: &mut [u8],
) -> usize
    requires size_value { rows_sound buffer.now rows.now objects components (root_attributes place size) ≡ true }
    requires size_bound { last_turn buffer.now plan.now rows.now objects components place size ≤ turn_limit plan.now }
    requires size_in_bounds { length (asked_file buffer.now plan.now rows.now objects components place size) ≤ length out.old }
    ensures whole { result ≡ length (asked_file buffer.now plan.now rows.now objects components place size) }
    ensures written { out.new
        ≡ asked_file buffer.now plan.now rows.now objects components place size
        ++ drop (length (asked_file buffer.now plan.now rows.now objects components place size)) out.old }
{
    framing::whole(out, buffer, plan, rows, objects, components, place, size)
}
