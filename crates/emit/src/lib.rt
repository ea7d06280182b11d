// Pieces of a written file: each lays its bytes into `out` at a place where there is room for them, and answers the place past them.
#![tactic(auto)]

mod front;

ghost use Rattle.std.specs.Prelude.{◌≡◌, ◌+◌, ◌-◌, ◌*◌, ◌<◌, ◌≤◌, ◌^◌, ◌++◌, map, replicate};
ghost use Rattle.meaning.specs.Read.{joined};
ghost use Rattle.meaning.specs.Layouts.{magic};
ghost use Rattle.meaning.specs.Manifest.{head_of, shortest_head, number_bytes, text_bytes, list_bytes};
ghost use Rattle.meaning.specs.WrittenFile.{little_bytes};
ghost use Rattle.emit.specs.Laid.{Room, Laid};

// A head's initial byte: major type and argument size joined.
fn initial(major: u8, low: u8) -> u8
    requires { (major < 8) × (low < 32) }
    ensures { result ≡ major * 32 + low }
{
    (major << 5) | low
}

// A head whose argument takes w bytes.
fn headed(out: &mut [u8], at: usize, major: u8, low: u8, w: usize, n: u64) -> usize
    requires major_bound { (major < 8) × (low < 32) × (w ≤ 8) × (n < 256 ^ w) }
    requires room { Room (head_of major low w n) at out.old }
    ensures { Laid (head_of major low w n) at out.old out.new result }
{
    out[at] = initial(major, low);
    let next = at + 1;
    next + front::big(&mut out[next..], w, n)
}

// A head with the shortest argument.
pub fn head_at(out: &mut [u8], at: usize, major: u8, n: u64) -> usize
    requires { (major < 8) × Room (shortest_head major n) at out.old }
    ensures { Laid (shortest_head major n) at out.old out.new result }
{
    if n < 24 {
        return headed(out, at, major, n as u8, 0, 0);
    }
    if n < 256 {
        return headed(out, at, major, 24, 1, n);
    }
    if n < 65536 {
        return headed(out, at, major, 25, 2, n);
    }
    if n < 4294967296 {
        return headed(out, at, major, 26, 4, n);
    }
    headed(out, at, major, 27, 8, n)
}

pub fn number_at(out: &mut [u8], at: usize, n: u64) -> usize
    requires { Room (number_bytes n) at out.old }
    ensures { Laid (number_bytes n) at out.old out.new result }
{
    head_at(out, at, 0, n)
}

pub fn bytes_at(out: &mut [u8], at: usize, s: &[u8]) -> usize
    requires { Room s.now at out.old }
    ensures { Laid s.now at out.old out.new result }
{
    at + front::copy(&mut out[at..], s)
}

// A text, after its head.
pub fn text_at(out: &mut [u8], at: usize, s: &[u8]) -> usize
    requires { Room (text_bytes s.now) at out.old }
    ensures { Laid (text_bytes s.now) at out.old out.new result }
{
    let past = head_at(out, at, 3, s.len() as u64);
    bytes_at(out, past, s)
}

fn numbers_at(out: &mut [u8], at: usize, ns: &[u64]) -> usize
    requires { Room (joined (map number_bytes ns.now)) at out.old }
    ensures { Laid (joined (map number_bytes ns.now)) at out.old out.new result }
{
    let mut past = at;
    for n in ns {
        past = number_at(out, past, *n);
    }
    past
}

// A list of numbers, after its head.
pub fn list_at(out: &mut [u8], at: usize, ns: &[u64]) -> usize
    requires { Room (list_bytes ns.now) at out.old }
    ensures { Laid (list_bytes ns.now) at out.old out.new result }
{
    let past = head_at(out, at, 4, ns.len() as u64);
    numbers_at(out, past, ns)
}

// A gap: zeros from `past`, where what is laid ends, up to `start`.
pub fn gap_at(out: &mut [u8], past: usize, start: usize) -> usize
    requires { (past ≤ start) × Room (replicate (start - past) 0) past out.old }
    ensures { Laid (replicate (start - past) 0) past out.old out.new result }
{
    past + front::zeros(&mut out[past..], start - past)
}

// The manifest's size in the file's frame.
fn size_at(out: &mut [u8], at: usize, n: u64) -> usize
    requires { Room (little_bytes 8 n) at out.old }
    ensures { Laid (little_bytes 8 n) at out.old out.new result }
{
    at + front::little(&mut out[at..], n)
}

pub fn magic_at(out: &mut [u8], at: usize) -> usize
    requires { Room magic at out.old }
    ensures { Laid magic at out.old out.new result }
{
    bytes_at(out, at, b"ZTEN1000")
}

// Behind a manifest of n bytes: its size, then the footer.
pub fn size_and_footer_at(out: &mut [u8], at: usize, n: u64) -> usize
    requires { Room (little_bytes 8 n ++ magic) at out.old }
    ensures { Laid (little_bytes 8 n ++ magic) at out.old out.new result }
{
    let past = size_at(out, at, n);
    magic_at(out, past)
}
