// Components name their owners in order, each object as often as it counts components, and there are no others.
ghost use Rattle.std.specs.Prelude.{◌≡◌, ◌+◌, ◌*◌, ◌≤◌, length, replicate};
ghost use Rattle.meaning.specs.Columns.{object_width, component_width};
ghost use Rattle.meaning.specs.Text.{same};
ghost use Rattle.meaning.specs.Asked.{each_row, asked_object, asked_component};
ghost use Rattle.meaning.specs.Sound as is;
ghost use Rattle.rows.specs.Owner.{owners_in};

// The first n components are owned by i.
fn by(i: u64, rows: &[u64], n: u64) -> bool
    requires { component_width * n ≤ length rows.now }
    ensures { result ≡ same (replicate n i) (owners_in (each_row asked_component component_width n rows.now)) }
{
    (0..n as usize).all(|j| rows[columns::COMPONENT * j + columns::OWNER] == i)
}

// Of n objects and as many components as are due.
pub fn in_order(objects: &[u64], components: &[u64], n: u64, all: u64) -> bool
    requires n_in_bounds { object_width * n ≤ length objects.now }
    requires all_in_bounds { component_width * all ≤ length components.now }
    ensures { result ≡ same (is.owners 0 (each_row asked_object object_width n objects.now)) (owners_in (each_row asked_component component_width all components.now)) }
{
    let mut from = 0;
    let mut due = all;
    for i in 0..n {
        let count = objects[columns::OBJECT * i as usize + columns::COUNT];
        if due < count || !by(i, &components[from..], count) {
            return false;
        }
        from += columns::COMPONENT * count as usize;
        due -= count;
    }
    due == 0
}
