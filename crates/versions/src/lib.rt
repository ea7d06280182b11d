// The shape of a version and its major, in one pass without a list of its runs.
#![tactic(auto)]

ghost use Rattle.std.specs.Prelude.{◌≡◌, ◌<◌};
ghost use Rattle.meaning.specs.Version as meant;
ghost use Rattle.versions.specs.Room as rooms;

const DOT: u64 = 46;

const ZERO: u64 = 48;

const NINE: u64 = 57;

// How many digits more a run takes after the digit b, where it had room for `room`, 9 before its first: none after a 0 that begins it.
fn room_after(room: u64, b: u64) -> u64
    requires { 0 < room }
    ensures { result ≡ rooms.room_after room b }
{
    if room != 9 {
        return room - 1;
    }
    if b == ZERO {
        return 0;
    }
    8
}

// Two or three runs of 1 to 9 digits, joined by dots, none with a leading zero unless it is "0".
pub fn version_shape(v: &[u8]) -> bool
    ensures { result ≡ meant.version_shape v.now }
{
    let mut dots: usize = 0;
    let mut room: u64 = 9;
    for x in v {
        let b = u64::from(*x);
        if b == DOT {
            if room == 9 {
                return false;
            }
            dots += 1;
            room = 9;
            continue;
        }
        if b < ZERO {
            return false;
        }
        if NINE < b {
            return false;
        }
        if room == 0 {
            return false;
        }
        room = room_after(room, b);
    }
    if room == 9 {
        return false;
    }
    if dots == 0 {
        return false;
    }
    dots < 3
}

// The first run is "1".
pub fn major_one(v: &[u8]) -> bool
    ensures { result ≡ meant.major_one v.now }
{
    if v.len() == 0 {
        return false;
    }
    if v[0] != b'1' {
        return false;
    }
    if v.len() == 1 {
        return true;
    }
    v[1] == b'.'
}
