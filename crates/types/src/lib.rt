// What the known texts of a manifest mean: the fields of its maps, storage and logical types, formats, roles.
// Functions of bytes and numbers, for the reader and the writer alike.
#![tactic(auto)]

mod row;
mod tables;

ghost use Rattle.std.specs.Prelude.{◌≡◌};
ghost use Rattle.types.specs.Known as known;
ghost use Rattle.meaning.specs.Layouts as layouts;
ghost use Rattle.meaning.specs.Text as text;
ghost use Rattle.meaning.specs.Types as types;

// The field of the root that k names, 3 for none.
pub fn root_key(layout: u64, k: &[u8]) -> usize
    ensures { result ≡ known.field_at (layouts.layout_of layout).root k.now }
{
    let w = row::words_of(&k[0..]);
    if layout == 1 {
        return row::found(&tables::OLD_ROOT, w.a, w.b, w.c);
    }
    row::found(&tables::ROOT, w.a, w.b, w.c)
}

// The field of an object that k names, 5 for none.
pub fn any_object_key(layout: u64, k: &[u8]) -> usize
    ensures { result ≡ known.field_at (layouts.layout_of layout).object k.now }
{
    let w = row::words_of(&k[0..]);
    if layout == 1 {
        let i = row::found(&tables::OLD_OBJECT, w.a, w.b, w.c);
        return row::digit(tables::OLD_OBJECT_PLACES, i as u64) as usize;
    }
    row::found(&tables::OBJECT, w.a, w.b, w.c) + 1
}

// The same, with 1.2.0 first, for the walk over each object alone: with one caller it is inlined.
pub fn object_key(layout: u64, k: &[u8]) -> usize
    ensures { result ≡ known.field_at (layouts.layout_of layout).object k.now }
{
    if layout == 1 {
        return any_object_key(layout, k);
    }
    let w = row::words_of(&k[0..]);
    row::found(&tables::OBJECT, w.a, w.b, w.c) + 1
}

// The field of a component that k names, 7 for none.
pub fn any_component_key(layout: u64, k: &[u8]) -> usize
    ensures { result ≡ known.field_at (layouts.layout_of layout).component k.now }
{
    let w = row::words_of(&k[0..]);
    if layout == 1 {
        let i = row::found(&tables::OLD_COMPONENT, w.a, w.b, w.c);
        return row::digit(tables::OLD_COMPONENT_PLACES, i as u64) as usize;
    }
    row::found(&tables::COMPONENT, w.a, w.b, w.c)
}

// The same, with 1.2.0 first, for the walk over each component alone.
pub fn component_key(layout: u64, k: &[u8]) -> usize
    ensures { result ≡ known.field_at (layouts.layout_of layout).component k.now }
{
    if layout == 1 {
        return any_component_key(layout, k);
    }
    let w = row::words_of(&k[0..]);
    row::found(&tables::COMPONENT, w.a, w.b, w.c)
}

// The encoding is "raw".
pub fn is_raw(k: &[u8]) -> bool
    ensures { result ≡ text.same (text.ascii "raw") k.now }
{
    let w = row::words_of(&k[0..]);
    row::found(&tables::RAW, w.a, w.b, w.c) == 0
}

// The storage code that k names, 13 for none.
pub fn dtype_code(layout: u64, k: &[u8]) -> u64
    ensures { result ≡ known.dtype_code (layouts.layout_of layout) k.now }
{
    let w = row::words_of(&k[0..]);
    if layout == 1 {
        return row::found(&tables::OLD_STORAGE, w.a, w.b, w.c) as u64;
    }
    row::found(&tables::STORAGE, w.a, w.b, w.c) as u64
}

// The bytes of a number of that storage, 0 for none.
pub fn width_of(code: u64) -> u64
    ensures { result ≡ types.width_of code }
{
    if code < 13 {
        return row::digit(tables::WIDTH, code);
    }
    0
}

// The index of the logical type k, 6 for one that is not listed.
fn logical_index(k: &[u8]) -> usize
    ensures { result ≡ known.position known.logical_names k.now }
{
    let w = row::any_words(&k[0..]);
    row::found(&tables::LOGICAL, w.a, w.b, w.c)
}

// The logical type k may stand over the storage with this code.
pub fn type_fits(k: &[u8], code: u64) -> bool
    ensures { result ≡ types.fits_over code (types.listed types.logicals k.now) }
{
    let i = logical_index(&k[0..]);
    if i < 6 {
        return row::digit(tables::NEEDS, i as u64) == code;
    }
    true
}

// The numbers that stand for one element of the logical type k, 0 for one that is not listed.
pub fn ratio_of(k: &[u8]) -> u64
    ensures { result ≡ known.code_or 0 (types.ratio_of (types.listed types.logicals k.now)) }
{
    let i = logical_index(&k[0..]);
    if i < 6 {
        return row::digit(tables::RATIO, i as u64);
    }
    0
}

// The bytes of one element of the logical type k over the storage with this code; 256 and its width if k is not listed, so that elements aren't counted.
pub fn unit_of(k: &[u8], code: u64) -> u64
    ensures { result ≡ known.unit_number (types.ratio_of (types.listed types.logicals k.now)) (types.width_of code) }
{
    let r = ratio_of(&k[0..]);
    let w = width_of(code);
    if r == 0 {
        return 256 + w;
    }
    r * w
}

// 0 dense, 1 sparse_csr, 2 sparse_coo, 3 quantized_group, 4 any other format.
pub fn format_code(k: &[u8]) -> u64
    ensures { result ≡ known.position known.format_names k.now }
{
    let w = row::words_of(&k[0..]);
    row::found(&tables::FORMAT, w.a, w.b, w.c) as u64
}

// 0 data, 1 values, 2 indices, 3 indptr, 4 coords, 5 packed_weight, 6 scales, 7 zeros, 8 any other role.
pub fn role_code(k: &[u8]) -> u64
    ensures { result ≡ known.position known.role_names k.now }
{
    let w = row::words_of(&k[0..]);
    row::found(&tables::ROLE, w.a, w.b, w.c) as u64
}
