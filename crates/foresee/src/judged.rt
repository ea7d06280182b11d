// What the reader asks of one object: its format's text, its components' names, each component, and the format's rules.
ghost use Rattle.std.specs.Prelude.{◌≡◌, map, ◌+◌, ◌*◌, ◌≤◌, ◌&&◌, length, take, get_or, eqb};
ghost use Rattle.meaning.specs.Columns.{object_width, component_width, rank_column, count_column};
ghost use Rattle.meaning.specs.Types.{type_ratio, width_of};
ghost use Rattle.types.specs.Known.{unit_number};
ghost use Rattle.meaning.specs.Format.{format_rules};
ghost use Rattle.meaning.specs.Asked.{each_row, asked_object, asked_component, present_at};
ghost use Rattle.meaning.specs.Described.{described_component, described_object};
ghost use Rattle.numbers.specs.Answered as answers;
ghost use Rattle.formats.specs.Parts as rules;
ghost use Rattle.formats.specs.Parts.{part_rows};
ghost use Rattle.readback.specs.Judged.{judged_object, part_of};
ghost use Rattle.foresee.specs.Foretold.{each_component};
ghost use Rattle.foresee.specs.Parts.{put_part};

use crate::named::names;
use crate::texts::component;
use columns::{
    COUNT, DTYPE, FORMAT, FORMAT_LENGTH, LENGTH, NAME, NAME_LENGTH, OFFSET, RANK, SHAPE, TYPE,
    TYPE_LENGTH,
};
use components::row::put_row;
use numbers::{ObjectFault, Refusal};
use rows::absent;
use view::part;

// The first component at fault, of n whose rows these numbers begin with.
fn components(rows: &[u64], n: usize, buffer: &[u8]) -> Result<(), ObjectFault>
    requires { component_width * n ≤ length rows.now }
    ensures { each_component 0 (map (described_component buffer.now) (each_row asked_component component_width n rows.now)) ≡ answers.in_object result }
{
    for j in 0..n {
        if let Err(refusal) = component(&rows[columns::COMPONENT * j..], buffer) {
            return Err(ObjectFault {
                refusal: refusal,
                component: j,
            });
        }
    }
    Ok(())
}

// Bytes of one element: of a logical type, or none, over the storage with this code.
fn unit(buffer: &[u8], place: u64, size: u64, code: u64) -> u64
    ensures { result ≡ unit_number (type_ratio (present_at buffer.now (record { place = place; size = size }))) (width_of code) }
{
    if absent(place, size) {
        return types::width_of(code);
    }
    types::unit_of(part(buffer, place, size), code)
}

// 1 for plain u64, which has no logical type.
fn plain(place: u64, size: u64, code: u64) -> u64
    ensures { result ≡ rules.flag (eqb code 8 && (eqb place 0 && eqb size 0)) }
{
    u64::from(code == 8 && absent(place, size))
}

// Puts what the format's rules read of component j, whose row these numbers begin with.
fn put_part(row: &[u64], buffer: &[u8], j: usize, out: &mut [u64])
    requires { (component_width ≤ length row.now) × (length out.old ≡ 64) }
    ensures { out.new ≡ put_part out.old j (part_of (described_component buffer.now (asked_component row.now))) }
{
    let role = types::role_code(part(buffer, row[NAME], row[NAME_LENGTH]));
    let u = unit(buffer, row[TYPE], row[TYPE_LENGTH], row[DTYPE]);
    let blob = part(buffer, row[OFFSET], row[LENGTH]);
    put_row(
        out,
        j,
        role,
        u,
        plain(row[TYPE], row[TYPE_LENGTH], row[DTYPE]),
        blob.len() as u64,
    );
}

// The same for each of n components.
fn put_parts(rows: &[u64], n: usize, buffer: &[u8], out: &mut [u64])
    requires { (component_width * n ≤ length rows.now) × (n ≤ 16) × (length out.old ≡ 64) }
    ensures { (length out.new ≡ 64) × (take (4 * n) out.new ≡ part_rows (map part_of (map (described_component buffer.now) (each_row asked_component component_width n rows.now)))) }
{
    for j in 0..n {
        put_part(&rows[columns::COMPONENT * j..], buffer, j, out);
    }
}

// The rules of the format of the object whose row these numbers begin with, over its n components.
fn ruled(
    row: &[u64],
    format: &[u8],
    rows: &[u64],
    n: usize,
    buffer: &[u8],
) -> Result<(), ObjectFault>
    requires { (object_width ≤ length row.now) × (get_or row.now rank_column 0 ≤ 8) × (component_width * n ≤ length rows.now) × (n ≤ 16) }
    ensures { format_rules format.now (asked_object row.now).shape (map part_of (map (described_component buffer.now) (each_row asked_component component_width n rows.now))) ≡ answers.in_object result }
{
    let mut parts = [0u64; 64];
    put_parts(rows, n, buffer, &mut parts);
    let code = types::format_code(format);
    let end = SHAPE + row[RANK] as usize;
    let used = 4 * n;
    formats::judge(code, &row[SHAPE..end], &parts[..used])
}

// An object whose row these numbers begin with, and whose components' rows begin `rows`.
pub fn object(row: &[u64], rows: &[u64], buffer: &[u8]) -> Result<(), ObjectFault>
    requires { (object_width ≤ length row.now) × (get_or row.now rank_column 0 ≤ 8) × (component_width * get_or row.now count_column 0 ≤ length rows.now) }
    ensures { judged_object (described_object buffer.now (asked_object row.now) (each_row asked_component component_width (get_or row.now count_column 0) rows.now)) ≡ answers.in_object result }
{
    let format = part(buffer, row[FORMAT], row[FORMAT_LENGTH]);
    if !utf8::utf8(format) {
        return Err(ObjectFault::from(Refusal::Text));
    }
    let n = row[COUNT] as usize;
    let mut left = [0usize; 16];
    let mut size = [0usize; 16];
    let mut ix = [0u16; 16];
    names(
        rows,
        columns::COMPONENT,
        n,
        buffer,
        &mut left,
        &mut size,
        &mut ix,
    )?;
    components(rows, n, buffer)?;
    ruled(row, format, rows, n, buffer)
}
