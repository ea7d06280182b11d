// Can a table with these counts be listed? Its rows lie in it, and what they say of the file in the file.
ghost use Rattle.std.specs.Prelude.{◌≡◌, ◌+◌, ◌*◌, ◌≤◌, length, eqb};
ghost use Rattle.meaning.specs.Columns.{object_width, component_width};
ghost use Rattle.panel.specs.Lines as is;

use columns::{COUNT, DTYPE, FORMAT, OFFSET};

// The place and the length that stand at the column i are inside the file.
fn inside(file: &[u8], table: &[u64], i: usize) -> bool
    requires { i + 2 ≤ length table.now }
    ensures { result ≡ is.range_inside file.now table.now i }
{
    columns::inside(file.len(), table[i], table[i + 1])
}

fn sound_component(file: &[u8], table: &[u64], row: usize) -> bool
    requires { row + component_width ≤ length table.now }
    ensures { result ≡ is.component_sound file.now table.now row }
{
    inside(file, table, row) && table[row + DTYPE] < 13 && inside(file, table, row + OFFSET)
}

fn sound_components(file: &[u8], table: &[u64], n: u64, first: usize) -> bool
    requires { first + component_width * n ≤ length table.now }
    ensures { result ≡ is.every (is.component_sound file.now table.now) component_width n first }
{
    (0..n as usize).all(|i| sound_component(file, table, first + columns::COMPONENT * i))
}

fn sound_object(file: &[u8], table: &[u64], row: usize) -> bool
    requires { row + object_width ≤ length table.now }
    ensures { result ≡ is.object_sound file.now table.now row }
{
    inside(file, table, row) && inside(file, table, row + FORMAT)
}

fn sound_objects(file: &[u8], table: &[u64], n: u64) -> bool
    requires { object_width * n ≤ length table.now }
    ensures { result ≡ is.every (is.object_sound file.now table.now) object_width n 0 }
{
    (0..n as usize).all(|i| sound_object(file, table, columns::OBJECT * i))
}

// The objects have as many components as there are.
fn shared_out(table: &[u64], n: u64, components: u64) -> bool
    requires { object_width * n ≤ length table.now }
    ensures { result ≡ eqb (is.counted table.now n 0) components }
{
    let mut due = components;
    for i in 0..n as usize {
        let count = table[columns::OBJECT * i + COUNT];
        if due < count {
            return false;
        }
        due -= count;
    }
    due == 0
}

pub fn sound(file: &[u8], table: &[u64], objects: u64, components: u64) -> bool
    ensures { result ≡ is.sound file.now table.now objects components }
{
    columns::holds(table.len(), objects, components)
        && sound_objects(file, table, objects)
        && sound_components(file, table, components, columns::OBJECT * objects as usize)
        && shared_out(table, objects, components)
}
