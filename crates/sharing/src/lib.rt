// Two engines, one table (document 02, Request 11): each loads a file's rows into what is free of the shared numbers, looks at them, and gives them back.
#![tactic(auto)]

ghost use Rattle.std.specs.Prelude.{◌≡◌, [], ◌∷◌, ◌+◌, ◌*◌, ◌≤◌, length, take, drop, replicate};
ghost use Rattle.std.proofs.lemmas.List.Edits.{sets};
ghost use Rattle.meaning.specs.Columns.{object_width, component_width};
ghost use Rattle.meaning.specs.Layouts.{layout_of};
ghost use Rattle.meaning.specs.Rows.{read_into};
ghost use Rattle.reader.specs.Answer as read;
ghost use Rattle.engines.specs.Calls.{load, drops, holds, view, list, layout_number, answered, leaves};
ghost use Rattle.sharing.specs.EngineAnswers as is;

use numbers::Refusal;
use panel::Listed;
use reader::into::{Answer, read_as, read_last};
use states::Place;
use view::Extent;

// Where an engine's rows stand in the table, and what was answered when they were loaded; all 0 if nothing is loaded.
#[repr(C)]
#[derive(Clone, Copy)]
pub struct Held {
    pub number: u64,
    pub place: u64,
    pub numbers: u64,
    pub objects: u64,
    pub components: u64,
    pub start: u64,
    pub attributes: u64,
    pub length: u64,
}

fn refused(number: u64) -> Answer
    ensures { result ≡ read.refused number 0 0 }
{
    Answer {
        number: number,
        object: 0,
        component: 0,
        objects: 0,
        components: 0,
        start: 0,
        place: 0,
        size: 0,
    }
}

// As it was given: 1, or else 0.
fn layout_number(layout: u64) -> u64
    ensures { result ≡ layout_number layout }
{
    if layout == 1 {
        return 1;
    }
    0
}

// A state's eight numbers.
fn keep(
    s: &mut [u64],
    numbers: u64,
    objects: u64,
    components: u64,
    start: u64,
    place: u64,
    size: u64,
    layout: u64,
)
    requires { length s.old ≡ 8 }
    ensures { s.new ≡ 1 ∷ numbers ∷ objects ∷ components ∷ start ∷ place ∷ size ∷ layout ∷ [] }
{
    s[0] = 1;
    s[1] = numbers;
    s[2] = objects;
    s[3] = components;
    s[4] = start;
    s[5] = place;
    s[6] = size;
    s[7] = layout;
}

// An engine's state, from what reading answered.
fn settle(
    shared: &mut [u64],
    engine: u64,
    layout: u64,
    objects: u64,
    components: u64,
    start: u64,
    place: u64,
    size: u64,
)
    requires known { engine ≤ 1 }
    requires few { object_width * objects + component_width * components ≤ 65536 }
    requires whole { length shared.old ≡ 65552 }
    ensures { shared.new ≡ sets shared.old (65536 + 8 * engine) (is.state_with layout objects components start place size) }
{
    let numbers = columns::OBJECT_64 * objects + columns::COMPONENT_64 * components;
    let at = states::state_at(engine);
    let end = at + states::STATE;
    keep(
        &mut shared[at..end],
        numbers,
        objects,
        components,
        start,
        place,
        size,
        layout_number(layout),
    );
}

// A file read into the free numbers: the first engine's rows go to the table's beginning, the second's to its end.
fn lay(shared: &mut [u64], engine: u64, free: usize, layout: u64, file: &[u8]) -> Answer
    requires room { free ≤ 65536 }
    requires whole { length shared.old ≡ 65552 }
    ensures answer { result ≡ read.answered (read_into (layout_of layout) file.now free) }
    ensures left { shared.new ≡ is.laid 65536 engine shared.old (read_into (layout_of layout) file.now free) }
{
    if engine == 0 {
        return read_as(layout, file, &mut shared[0..free]);
    }
    let begin = states::TABLE - free;
    read_last(layout, file, &mut shared[begin..states::TABLE])
}

// A file's rows are laid into what is free, and the engine's state says so.
pub fn load(shared: &mut [u64], engine: u64, layout: u64, file: &[u8]) -> Answer
    ensures answer { result ≡ is.answer (answered 65536 engine (load layout file.now) shared.old) }
    ensures left { shared.new ≡ leaves 65536 engine (load layout file.now) shared.old }
{
    match states::standing(&shared[0..], engine) {
        Place::Nowhere => refused(Refusal::Index as u64),
        Place::Loaded(_, _, _, _) => refused(Refusal::Busy as u64),
        Place::Idle(free) => {
            let a = lay(shared, engine, free, layout, file);
            if 0 < a.number {
                return a;
            }
            settle(
                shared,
                engine,
                layout,
                a.objects,
                a.components,
                a.start,
                a.place,
                a.size,
            );
            a
        }
    }
}

// So many numbers from a place on become zeros.
fn clear(shared: &mut [u64], from: usize, count: usize)
    requires { from + count ≤ length shared.old }
    ensures { shared.new ≡ sets shared.old from (replicate count 0) }
{
    let end = from + count;
    shared[from..end].fill(0);
}

// An engine's rows and state become zeros.
pub fn release(shared: &mut [u64], engine: u64) -> u64
    ensures answer { result ≡ is.number (answered 65536 engine drops shared.old) }
    ensures left { shared.new ≡ leaves 65536 engine drops shared.old }
{
    match states::standing(&shared[0..], engine) {
        Place::Nowhere => Refusal::Index as u64,
        Place::Idle(_) => 0,
        Place::Loaded(place, numbers, _, _) => {
            clear(shared, place, numbers);
            clear(shared, states::state_at(engine), states::STATE);
            0
        }
    }
}

// Where one component of the engine's file lies.
pub fn view(shared: &[u64], engine: u64, file: &[u8], index: u64) -> Extent
    ensures { result ≡ is.extent (answered 65536 engine (view file.now index) shared.now) }
{
    match states::standing(shared, engine) {
        Place::Nowhere => Extent {
            number: Refusal::Index as u64,
            offset: 0,
            length: 0,
        },
        Place::Idle(_) => Extent {
            number: Refusal::Index as u64,
            offset: 0,
            length: 0,
        },
        Place::Loaded(place, numbers, objects, components) => {
            let end = place + numbers;
            view::range(file, &shared[place..end], objects, components, index)
        }
    }
}

// The listing of the engine's file, put into a lent text.
pub fn list(shared: &[u64], engine: u64, file: &[u8], text: &mut [u8]) -> Listed
    ensures answer { result ≡ is.listed (answered 65536 engine (list file.now (length text.old)) shared.now) }
    ensures written { text.new ≡ is.text_after (answered 65536 engine (list file.now (length text.old)) shared.now) text.old }
{
    match states::standing(shared, engine) {
        Place::Nowhere => Listed {
            number: Refusal::Index as u64,
            length: 0,
        },
        Place::Idle(_) => Listed {
            number: Refusal::Index as u64,
            length: 0,
        },
        Place::Loaded(place, numbers, objects, components) => {
            let end = place + numbers;
            panel::list(file, &shared[place..end], objects, components, text)
        }
    }
}

fn nothing_held(number: u64) -> Held
    ensures { result ≡ is.held_with number [] }
{
    Held {
        number: number,
        place: 0,
        numbers: 0,
        objects: 0,
        components: 0,
        start: 0,
        attributes: 0,
        length: 0,
    }
}

fn held_by(s: &[u64], place: usize) -> Held
    requires { length s.now ≡ 8 }
    ensures { result ≡ is.held_with 0 (place ∷ take 6 (drop 1 s.now)) }
{
    Held {
        number: 0,
        place: place as u64,
        numbers: s[1],
        objects: s[2],
        components: s[3],
        start: s[4],
        attributes: s[5],
        length: s[6],
    }
}

// Where an engine's rows stand, and what was answered when they were loaded.
pub fn holds(shared: &[u64], engine: u64) -> Held
    ensures { result ≡ is.held (answered 65536 engine holds shared.now) }
{
    match states::standing(shared, engine) {
        Place::Nowhere => nothing_held(Refusal::Index as u64),
        Place::Idle(_) => nothing_held(0),
        Place::Loaded(place, _, _, _) => {
            let at = states::state_at(engine);
            let end = at + states::STATE;
            held_by(&shared[at..end], place)
        }
    }
}
