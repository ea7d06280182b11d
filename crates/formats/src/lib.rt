// What a format asks of an object's components: RANK, ROLE and LENGTH of document 01. A component is a row of four numbers: the code of
// its role (types::role_code), the bytes of one element (types::unit_of: 256 and those of one number where elements aren't counted), 1 for plain u64 or else 0, and its length.
#![tactic(auto)]

ghost use Rattle.std.specs.Prelude.{◌≡◌, List, ℕ, ◌<◌, ◌*◌};
ghost use Rattle.types.specs.Known.{position, format_names};
ghost use Rattle.meaning.specs.Format as format;
ghost use Rattle.numbers.specs.Answered.{in_object};
ghost use Rattle.formats.specs.Parts.{part_rows, role_name, RoleIs, IndexIs, RoleThere, dense_fits, values_fit, index_fits, csr_lengths, coo_lengths};

use numbers::{ObjectFault, Refusal};

// The component that fills a role: its index, bytes of one element, 1 for plain u64, and length.
#[derive(Clone, Copy)]
pub struct Filled {
    pub index: usize,
    pub unit: u64,
    pub plain: u64,
    pub length: u64,
}

// The component that fills an index role: its index and length.
#[derive(Clone, Copy)]
struct Indexed {
    index: usize,
    length: u64,
}

// The first component with this role: its index and its other numbers.
pub fn role_of(parts: &[u64], code: u64) -> Option<Filled>
    requires { code < 8 }
    ensures { (cs : List format.Part) → parts.now ≡ part_rows cs → RoleIs (role_name code) cs result }
{
    let mut i: usize = 0;
    let mut at: usize = 0;
    while 4 <= parts.len() - at {
        if parts[at] == code {
            return Some(Filled {
                index: i,
                unit: parts[at + 1],
                plain: parts[at + 2],
                length: parts[at + 3],
            });
        }
        i += 1;
        at += 4;
    }
    None
}

// The same of an index role, which is to blame where it isn't plain u64.
fn index_role(parts: &[u64], code: u64) -> Result<Indexed, ObjectFault>
    requires { code < 8 }
    ensures { (cs : List format.Part) → parts.now ≡ part_rows cs → IndexIs (role_name code) cs result }
{
    let Some(found) = role_of(&parts[0..], code) else {
        return Err(ObjectFault {
            refusal: Refusal::Role,
            component: 0,
        });
    };
    if found.plain != 1 {
        return Err(ObjectFault {
            refusal: Refusal::Role,
            component: found.index,
        });
    }
    Ok(Indexed {
        index: found.index,
        length: found.length,
    })
}

// Data of this shape may have this length.
fn dense_fits(shape: &[u64], unit: u64, stored: u64) -> bool
    ensures { result ≡ dense_fits shape.now unit stored }
{
    if 256 <= unit {
        return lengths::is_whole(stored, unit - 256);
    }
    lengths::dense_length(stored, &shape[0..], unit)
}

// Values may have this length.
fn values_fit(unit: u64, size: u64) -> bool
    ensures { result ≡ values_fit unit size }
{
    if 256 <= unit {
        return lengths::is_whole(size, unit - 256);
    }
    lengths::is_whole(size, unit)
}

// The indices of values of `size` bytes may have this length.
fn indices_fit(unit: u64, size: u64, indices: u64) -> bool
    ensures { result ≡ index_fits unit size 8 indices }
{
    if 256 <= unit {
        return lengths::is_whole(indices, 8);
    }
    lengths::is_product(indices, 8, lengths::count_of(size, unit))
}

// The coordinates, of this rank, of values of `size` bytes may have this length.
fn coords_fit(unit: u64, size: u64, rank: u64, coords: u64) -> bool
    ensures { result ≡ index_fits unit size (8 * rank) coords }
{
    if 256 <= unit {
        return lengths::is_whole(coords, 8);
    }
    lengths::coordinate_length(coords, rank, lengths::count_of(size, unit))
}

// dense: the role data, and its length.
fn dense(shape: &[u64], parts: &[u64]) -> Result<(), ObjectFault>
    ensures { (cs : List format.Part) → parts.now ≡ part_rows cs → format.dense shape.now cs ≡ in_object result }
{
    let Some(data) = role_of(&parts[0..], 0) else {
        return Err(ObjectFault {
            refusal: Refusal::Role,
            component: 0,
        });
    };
    if !dense_fits(&shape[0..], data.unit, data.length) {
        return Err(ObjectFault {
            refusal: Refusal::Length,
            component: data.index,
        });
    }
    Ok(())
}

// Values, indices and row pointers of so many rows: LENGTH.
fn csr_lengths(
    rows: u64,
    values: Filled,
    indices: Indexed,
    pointers: Indexed,
) -> Result<(), ObjectFault>
    ensures { csr_lengths rows values.index values.unit values.length indices.index indices.length pointers.index pointers.length ≡ in_object result }
{
    if !values_fit(values.unit, values.length) {
        return Err(ObjectFault {
            refusal: Refusal::Length,
            component: values.index,
        });
    }
    if !indices_fit(values.unit, values.length, indices.length) {
        return Err(ObjectFault {
            refusal: Refusal::Length,
            component: indices.index,
        });
    }
    if !lengths::pointer_length(pointers.length, rows) {
        return Err(ObjectFault {
            refusal: Refusal::Length,
            component: pointers.index,
        });
    }
    Ok(())
}

// sparse_csr: the rank, the roles values, indices and indptr, and their lengths.
fn sparse_csr(shape: &[u64], parts: &[u64]) -> Result<(), ObjectFault>
    ensures { (cs : List format.Part) → parts.now ≡ part_rows cs → format.sparse_csr shape.now cs ≡ in_object result }
{
    if shape.len() != 2 {
        return Err(ObjectFault {
            refusal: Refusal::Rank,
            component: 0,
        });
    }
    let Some(values) = role_of(&parts[0..], 1) else {
        return Err(ObjectFault {
            refusal: Refusal::Role,
            component: 0,
        });
    };
    let indices = index_role(&parts[0..], 2)?;
    let pointers = index_role(&parts[0..], 3)?;
    csr_lengths(shape[0], values, indices, pointers)
}

// Values, and their coordinates of this rank: LENGTH.
fn coo_lengths(rank: u64, values: Filled, coords: Indexed) -> Result<(), ObjectFault>
    ensures { coo_lengths rank values.index values.unit values.length coords.index coords.length ≡ in_object result }
{
    if !values_fit(values.unit, values.length) {
        return Err(ObjectFault {
            refusal: Refusal::Length,
            component: values.index,
        });
    }
    if !coords_fit(values.unit, values.length, rank, coords.length) {
        return Err(ObjectFault {
            refusal: Refusal::Length,
            component: coords.index,
        });
    }
    Ok(())
}

// sparse_coo: the roles values and coords, and their lengths.
fn sparse_coo(shape: &[u64], parts: &[u64]) -> Result<(), ObjectFault>
    ensures { (cs : List format.Part) → parts.now ≡ part_rows cs → format.sparse_coo shape.now cs ≡ in_object result }
{
    let Some(values) = role_of(&parts[0..], 1) else {
        return Err(ObjectFault {
            refusal: Refusal::Role,
            component: 0,
        });
    };
    let coords = index_role(&parts[0..], 4)?;
    coo_lengths(shape.len() as u64, values, coords)
}

// The role with this code is filled.
fn has_role(parts: &[u64], code: u64) -> bool
    requires { code < 8 }
    ensures { (cs : List format.Part) → parts.now ≡ part_rows cs → RoleThere (role_name code) cs result }
{
    role_of(&parts[0..], code).is_some()
}

// quantized_group: its three roles, in any shape.
fn quantized_group(parts: &[u64]) -> Result<(), ObjectFault>
    ensures { (shape : List ℕ) (cs : List format.Part) → parts.now ≡ part_rows cs → format.quantized_group shape cs ≡ in_object result }
{
    if !has_role(&parts[0..], 5) {
        return Err(ObjectFault {
            refusal: Refusal::Role,
            component: 0,
        });
    }
    if !has_role(&parts[0..], 6) {
        return Err(ObjectFault {
            refusal: Refusal::Role,
            component: 0,
        });
    }
    if !has_role(&parts[0..], 7) {
        return Err(ObjectFault {
            refusal: Refusal::Role,
            component: 0,
        });
    }
    Ok(())
}

// The first rule that an object of this format (types::format_code), shape and components breaks.
pub fn judge(code: u64, shape: &[u64], parts: &[u64]) -> Result<(), ObjectFault>
    ensures { (f : List ℕ) (cs : List format.Part) → code ≡ position format_names f → parts.now ≡ part_rows cs → format.format_rules f shape.now cs ≡ in_object result }
{
    match code {
        0 => dense(&shape[0..], &parts[0..]),
        1 => sparse_csr(&shape[0..], &parts[0..]),
        2 => sparse_coo(&shape[0..], &parts[0..]),
        3 => quantized_group(&parts[0..]),
        _ => Ok(()),
    }
}
