// Which states calls can leave, and where an engine's rows stand. The table's numbers themselves aren't looked at.
#![tactic(auto)]

ghost use Rattle.std.specs.Prelude.{◌≡◌, ◌+◌, ◌*◌, ◌≤◌, length, eqb};
ghost use Rattle.meaning.specs.Columns.{object_width, component_width};
ghost use Rattle.meaning.specs.Text.{all};
ghost use Rattle.engines.specs.Shared.{held_of, state_sound};
ghost use Rattle.states.specs.Places as is;

// The table's numbers; where the second engine's state begins, after the first's eight; and all numbers that are lent.
pub const TABLE: usize = 65536;

pub const SECOND: usize = 65544;

pub const SHARED: usize = 65552;

// A state's numbers.
pub const STATE: usize = 8;

// The numbers that the engines hold.
#[derive(Clone, Copy)]
pub struct Usage {
    pub front: usize,
    pub back: usize,
}

// Nothing sound; nothing loaded, with so many numbers free; or rows at a place: how many numbers, objects and components.
#[derive(Clone, Copy)]
pub enum Place {
    Nowhere,
    Idle(usize),
    Loaded(usize, usize, u64, u64),
}

// So many numbers are just what the rows of so many objects and components take. Compared by division, so that no product wraps.
fn just(held: u64, objects: u64, components: u64) -> bool
    ensures { result ≡ eqb held (object_width * objects + component_width * components) }
{
    if held / columns::OBJECT_64 < objects {
        return false;
    }
    let rest = held - columns::OBJECT_64 * objects;
    if rest / columns::COMPONENT_64 < components {
        return false;
    }
    rest == columns::COMPONENT_64 * components
}

// A state that calls can leave.
fn sound(s: &[u64]) -> bool
    requires { length s.now ≡ 8 }
    ensures { result ≡ state_sound s.now }
{
    if 1 < s[0] {
        return false;
    }
    if 1 < s[7] {
        return false;
    }
    if !just(s[1], s[2], s[3]) {
        return false;
    }
    if s[0] == 0 {
        return s.iter().all(|n| *n == 0);
    }
    true
}

// What two states of eight numbers hold, tested; their numbers stand side by side in the table.
fn fitting(first: &[u64], second: &[u64]) -> Option<Usage>
    requires { (length first.now ≡ 8) × (length second.now ≡ 8) }
    ensures { result ≡ is.fitting 65536 first.now second.now }
{
    if !sound(first) {
        return None;
    }
    if !sound(second) {
        return None;
    }
    let front = first[1] as usize;
    let back = second[1] as usize;
    if TABLE < front {
        return None;
    }
    if TABLE - front < back {
        return None;
    }
    Some(Usage { front, back })
}

// Both states, tested.
fn both(shared: &[u64]) -> Option<Usage>
    ensures { result ≡ is.both 65536 shared.now }
{
    if shared.len() < SHARED {
        return None;
    }
    if SHARED < shared.len() {
        return None;
    }
    fitting(&shared[TABLE..SECOND], &shared[SECOND..SHARED])
}

fn stands_by(s: &[u64], place: usize, free: usize) -> Place
    requires { length s.now ≡ 8 }
    ensures { result ≡ is.stands_by place free s.now }
{
    if s[0] == 0 {
        return Place::Idle(free);
    }
    Place::Loaded(place, s[1] as usize, s[2], s[3])
}

// Where an engine's rows stand.
pub fn standing(shared: &[u64], engine: u64) -> Place
    ensures { result ≡ is.standing 65536 engine shared.now }
{
    match both(&shared[0..]) {
        None => Place::Nowhere,
        Some(Usage { front, back }) => {
            let free = TABLE - front - back;
            if engine == 0 {
                return stands_by(&shared[TABLE..SECOND], 0, free);
            }
            if engine == 1 {
                return stands_by(&shared[SECOND..SHARED], TABLE - back, free);
            }
            Place::Nowhere
        }
    }
}

// Where an engine's state begins.
pub fn state_at(engine: u64) -> usize
    requires { engine ≤ 1 }
    ensures { result ≡ 65536 + 8 * engine }
{
    TABLE + STATE * (engine as usize)
}
