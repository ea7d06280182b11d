// What the reader asks of one component's texts.
ghost use Rattle.std.specs.Prelude.{◌≡◌, ◌≤◌, length};
ghost use Rattle.meaning.specs.Columns.{component_width};
ghost use Rattle.meaning.specs.Asked.{asked_component, present_at};
ghost use Rattle.meaning.specs.Described.{described_component};
ghost use Rattle.readback.specs.Judged.{judged_type, judged_text, judged_component};
ghost use Rattle.numbers.specs.Answered.{answered};

use columns::{DIGEST, DIGEST_LENGTH, DTYPE, TYPE, TYPE_LENGTH};
use numbers::Refusal;
use rows::absent;
use view::part;

// A logical type, or none, over the storage with this code.
fn logical(buffer: &[u8], place: u64, size: u64, code: u64) -> Result<(), Refusal>
    ensures { judged_type code (present_at buffer.now (record { place = place; size = size })) ≡ answered result }
{
    if absent(place, size) {
        return Ok(());
    }
    let t = part(buffer, place, size);
    if !utf8::utf8(t) {
        return Err(Refusal::Text);
    }
    if types::type_fits(t, code) {
        return Ok(());
    }
    Err(Refusal::Type)
}

// A digest, or none.
fn digest(buffer: &[u8], place: u64, size: u64) -> Result<(), Refusal>
    ensures { judged_text (present_at buffer.now (record { place = place; size = size })) ≡ answered result }
{
    if absent(place, size) {
        return Ok(());
    }
    let t = part(buffer, place, size);
    if utf8::utf8(t) {
        return Ok(());
    }
    Err(Refusal::Text)
}

// The component whose row these numbers begin with.
pub fn component(row: &[u64], buffer: &[u8]) -> Result<(), Refusal>
    requires { component_width ≤ length row.now }
    ensures { judged_component (described_component buffer.now (asked_component row.now)) ≡ answered result }
{
    logical(buffer, row[TYPE], row[TYPE_LENGTH], row[DTYPE])?;
    digest(buffer, row[DIGEST], row[DIGEST_LENGTH])
}
