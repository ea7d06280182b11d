// The leaves, and the acceptance check with its indices, under plain names, for programs in Rust or C that hold them against others. Each only calls what it is named after.
#![tactic(auto)]

ghost use Rattle.std.specs.Prelude.{◌≡◌, List, ℕ, ◌≤◌, ◌+◌, ◌*◌, ◌/◌, ◌%◌, length, eqb};
ghost use Rattle.meaning.specs.Read as read;
ghost use Rattle.meaning.specs.Text as texts;
ghost use Rattle.meaning.specs.Frame as frames;
ghost use Rattle.meaning.specs.Version as versions;
ghost use Rattle.cbor.specs.Ending as endings;
ghost use Rattle.text.specs.Order as orders;
ghost use Rattle.names.specs.Names.{name, listed};
ghost use Rattle.meaning.specs.Layouts as layouts;
ghost use Rattle.meaning.specs.Types as types;
ghost use Rattle.meaning.specs.Format as format;
ghost use Rattle.types.specs.Known as known;
ghost use Rattle.lengths.specs.Place.{place_rule};
ghost use Rattle.formats.specs.Parts.{part_rows};
ghost use Rattle.reader.specs.Verdict.{verdict};
ghost use Rattle.put.specs.Wrote.{Wrote};
ghost use Rattle.decimal.specs.Text as decimals;
ghost use Rattle.exported.specs.Structs.{number, ruling, place};

use reader::Verdict;
use std::cmp::Ordering;

#[unsafe(no_mangle)]
pub extern "C" fn leaf_skip(s: &[u8], left: u64) -> usize
    ensures { result ≡ endings.code (endings.ending s.now (read.item read.no_note left s.now)) }
{
    cbor::skip(s, left)
}

#[unsafe(no_mangle)]
pub extern "C" fn leaf_utf8(t: &[u8]) -> bool
    ensures { result ≡ texts.utf8 t.now }
{
    utf8::utf8(t)
}

#[unsafe(no_mangle)]
pub extern "C" fn leaf_version_shape(v: &[u8]) -> bool
    ensures { result ≡ versions.version_shape v.now }
{
    versions::version_shape(v)
}

#[unsafe(no_mangle)]
pub extern "C" fn leaf_major_one(v: &[u8]) -> bool
    ensures { result ≡ versions.major_one v.now }
{
    versions::major_one(v)
}

#[unsafe(no_mangle)]
pub extern "C" fn leaf_same(a: &[u8], b: &[u8]) -> bool
    ensures { result ≡ texts.same a.now b.now }
{
    text::same(a, b)
}

#[unsafe(no_mangle)]
pub extern "C" fn leaf_order(a: &[u8], b: &[u8]) -> usize
    ensures { result ≡ orders.order a.now b.now }
{
    match text::order(a, b) {
        Ordering::Less => 1,
        Ordering::Equal => 0,
        Ordering::Greater => 2,
    }
}

#[unsafe(no_mangle)]
pub extern "C" fn leaf_is_magic(part: &[u8]) -> bool
    ensures { result ≡ texts.same layouts.magic part.now }
{
    text::is_magic(part)
}

// False also where ix has too little room, or n is over 65,536.
#[unsafe(no_mangle)]
pub extern "C" fn leaf_no_twice(
    m: &[u8],
    left: &[usize],
    size: &[usize],
    n: usize,
    ix: &mut [u16],
) -> bool
    ensures { n ≤ length ix.old → n ≤ 65536 → result ≡ texts.distinct (listed (name m.now left.now size.now) 0 n) }
{
    n <= ix.len() && n <= 65536 && names::no_twice(m, left, size, n, ix)
}

#[unsafe(no_mangle)]
pub extern "C" fn leaf_root_key(layout: u64, k: &[u8]) -> usize
    ensures { result ≡ known.field_at (layouts.layout_of layout).root k.now }
{
    types::root_key(layout, k)
}

#[unsafe(no_mangle)]
pub extern "C" fn leaf_object_key(layout: u64, k: &[u8]) -> usize
    ensures { result ≡ known.field_at (layouts.layout_of layout).object k.now }
{
    types::object_key(layout, k)
}

#[unsafe(no_mangle)]
pub extern "C" fn leaf_component_key(layout: u64, k: &[u8]) -> usize
    ensures { result ≡ known.field_at (layouts.layout_of layout).component k.now }
{
    types::component_key(layout, k)
}

#[unsafe(no_mangle)]
pub extern "C" fn leaf_is_raw(k: &[u8]) -> bool
    ensures { result ≡ texts.same (texts.ascii "raw") k.now }
{
    types::is_raw(k)
}

#[unsafe(no_mangle)]
pub extern "C" fn leaf_dtype_code(layout: u64, k: &[u8]) -> u64
    ensures { result ≡ known.dtype_code (layouts.layout_of layout) k.now }
{
    types::dtype_code(layout, k)
}

#[unsafe(no_mangle)]
pub extern "C" fn leaf_width_of(code: u64) -> u64
    ensures { result ≡ types.width_of code }
{
    types::width_of(code)
}

#[unsafe(no_mangle)]
pub extern "C" fn leaf_type_fits(k: &[u8], code: u64) -> bool
    ensures { result ≡ types.fits_over code (types.listed types.logicals k.now) }
{
    types::type_fits(k, code)
}

#[unsafe(no_mangle)]
pub extern "C" fn leaf_ratio_of(k: &[u8]) -> u64
    ensures { result ≡ known.code_or 0 (types.ratio_of (types.listed types.logicals k.now)) }
{
    types::ratio_of(k)
}

#[unsafe(no_mangle)]
pub extern "C" fn leaf_format_code(k: &[u8]) -> u64
    ensures { result ≡ known.position known.format_names k.now }
{
    types::format_code(k)
}

#[unsafe(no_mangle)]
pub extern "C" fn leaf_role_code(k: &[u8]) -> u64
    ensures { result ≡ known.position known.role_names k.now }
{
    types::role_code(k)
}

#[unsafe(no_mangle)]
pub extern "C" fn leaf_is_product(n: u64, a: u64, b: u64) -> bool
    ensures { result ≡ eqb n (a * b) }
{
    lengths::is_product(n, a, b)
}

#[unsafe(no_mangle)]
pub extern "C" fn leaf_dense_length(n: u64, shape: &[u64], unit: u64) -> bool
    ensures { result ≡ eqb n (types.product shape.now * unit) }
{
    lengths::dense_length(n, shape, unit)
}

#[unsafe(no_mangle)]
pub extern "C" fn leaf_is_whole(n: u64, unit: u64) -> bool
    ensures { result ≡ eqb (n % unit) 0 }
{
    lengths::is_whole(n, unit)
}

#[unsafe(no_mangle)]
pub extern "C" fn leaf_count_of(n: u64, unit: u64) -> u64
    ensures { result ≡ n / unit }
{
    lengths::count_of(n, unit)
}

#[unsafe(no_mangle)]
pub extern "C" fn leaf_pointer_length(n: u64, rows: u64) -> bool
    ensures { result ≡ eqb n (8 * (rows + 1)) }
{
    lengths::pointer_length(n, rows)
}

#[unsafe(no_mangle)]
pub extern "C" fn leaf_coordinate_length(n: u64, rank: u64, count: u64) -> bool
    ensures { result ≡ eqb n (8 * rank * count) }
{
    lengths::coordinate_length(n, rank, count)
}

#[unsafe(no_mangle)]
pub extern "C" fn leaf_place(start: u64, offset: u64, length: u64) -> u64
    ensures { result ≡ number (place_rule start offset length) }
{
    match lengths::place(start, offset, length) {
        Ok(()) => 0,
        Err(refusal) => u64::from(refusal),
    }
}

// A refusal's number and its component; 0 and 0 for none.
#[repr(C)]
#[derive(Clone, Copy)]
pub struct Ruling {
    pub number: u64,
    pub component: usize,
}

#[unsafe(no_mangle)]
pub extern "C" fn leaf_judge(code: u64, shape: &[u64], parts: &[u64]) -> Ruling
    ensures { (f : List ℕ) (cs : List format.Part) → code ≡ known.position known.format_names f → parts.now ≡ part_rows cs → result ≡ ruling (format.format_rules f shape.now cs) }
{
    match formats::judge(code, shape, parts) {
        Ok(()) => Ruling {
            number: 0,
            component: 0,
        },
        Err(fault) => Ruling {
            number: u64::from(fault.refusal),
            component: fault.component,
        },
    }
}

// 0, and where the manifest starts and its size; or a refusal's number, 0 and 0.
#[repr(C)]
#[derive(Clone, Copy)]
pub struct Place {
    pub number: u64,
    pub start: usize,
    pub size: usize,
}

#[unsafe(no_mangle)]
pub extern "C" fn leaf_frame(layout: u64, file: &[u8]) -> Place
    ensures { result ≡ place (frames.frame (layouts.layout_of layout) file.now) }
{
    match frame::frame(layout, file) {
        Err(refusal) => Place {
            number: u64::from(refusal),
            start: 0,
            size: 0,
        },
        Ok(framed) => Place {
            number: 0,
            start: framed.start,
            size: framed.size,
        },
    }
}

#[unsafe(no_mangle)]
pub extern "C" fn leaf_accept(layout: u64, file: &[u8]) -> Verdict
    ensures { result ≡ verdict (frames.reading (layouts.layout_of layout) file.now) }
{
    reader::accept_as(layout, file)
}

#[unsafe(no_mangle)]
pub extern "C" fn leaf_float(out: &mut [u8], n: u32) -> usize
    ensures { Wrote (decimals.text n) 0 out.old out.new result }
{
    decimal::text::float(out, 0, n)
}
