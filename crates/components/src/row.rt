// The row of a component, as the format's rules read it.
ghost use Rattle.std.specs.Prelude.{◌≡◌, ◌&&◌, eqb, length};
ghost use Rattle.formats.specs.Parts.{flag};
ghost use Rattle.components.specs.Typed as is;
ghost use Rattle.components.specs.Row.{put_row};

use fields::place_of;
// Bytes of one element of the logical type that begins s, as types::unit_of has them.
fn type_unit(s: &[u8], code: u64) -> u64
    ensures { is.TypeUnit s.now code result }
{
    let Some(letters) = walk::text(&s[0..]) else {
        return 0;
    };
    let at = letters.at;
    let e = at + letters.size;
    types::unit_of(&s[at..e], code)
}

// Bytes of one element of a component in c, whose type has `left` bytes left.
pub fn unit(c: &[u8], code: u64, left: usize) -> u64
    ensures { is.UnitIs c.now code left result }
{
    if left == 0 {
        return types::width_of(code);
    }
    let at = place_of(c.len(), left);
    type_unit(&c[at..], code)
}

// Puts the row of component j, if there is room: the code of its role, bytes of one element, 1 for plain u64, and its length.
pub fn put_row(rows: &mut [u64], j: usize, role: u64, unit: u64, plain: u64, size: u64)
    requires { length rows.old ≡ 64 }
    ensures { rows.new ≡ put_row rows.old j role unit plain size }
{
    if j < 16 {
        let at = j * 4;
        rows[at] = role;
        rows[at + 1] = unit;
        rows[at + 2] = plain;
        rows[at + 3] = size;
    }
}

// 1 for plain u64, which has no logical type.
pub fn plain(code: u64, left: usize) -> u64
    ensures { result ≡ flag (eqb left 0 && eqb code 8) }
{
    if left == 0 {
        if code == 8 {
            return 1;
        }
    }
    0
}
