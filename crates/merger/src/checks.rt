// Every check of a merge that comes before ROOM, found without the lent rows.
ghost use Rattle.std.specs.Prelude.{◌≡◌};
ghost use Rattle.sizes.specs.Size.{capped};
ghost use Rattle.merger.specs.Checked.{attributes_size, of_file, of_merged, CheckedIs};

use crate::weigh;
use numbers::{FileFault, Refusal};
use sizes::piece;

// A refusal, which file it is about (1 or 2, or 0 for the merged one), object and component.
#[derive(Clone, Copy)]
pub struct MergeFault {
    pub refusal: Refusal,
    pub file: u64,
    pub object: usize,
    pub component: usize,
}

impl From<Refusal> for MergeFault {
    ghost from_gives = { λ r f. f ≡ of_merged r };

    fn from(refusal: Refusal) -> MergeFault {
        MergeFault {
            refusal: refusal,
            file: 0,
            object: 0,
            component: 0,
        }
    }
}

// Of the first file and then of the second, how many objects and components there are, and place and length of the root's attributes; where the first's blobs end; and how long the merged file is.
#[derive(Clone, Copy)]
pub struct Verdict {
    pub objects: u64,
    pub components: u64,
    pub place: u64,
    pub size: u64,
    pub turn: u64,
    pub others: u64,
    pub parts: u64,
    pub other: u64,
    pub rest: u64,
    pub long: u64,
}

// The bytes of the kept attributes with their key: the first's if it has any, else the second's.
fn attributes(place: u64, size: u64, other: u64, length: u64) -> u64
    ensures { result ≡ capped (attributes_size place size other length) }
{
    if rows::absent(place, size) {
        return piece::attributes(other, length);
    }
    piece::attributes(place, size)
}

// A fault of the first or second file. A FileFault does not say of which it is, so that no `From` gives it at a `?`.
fn told(file: u64, fault: FileFault) -> MergeFault
    ensures { result ≡ of_file file fault }
{
    MergeFault {
        refusal: fault.refusal,
        file: file,
        object: fault.object,
        component: fault.component,
    }
}

// Every check that comes before ROOM.
pub fn checked(one: u64, first: &[u8], two: u64, second: &[u8]) -> Result<Verdict, MergeFault>
    ensures { CheckedIs one first.now two second.now result }
{
    let mut names = [0u64; 2048];
    let a = match weigh::file(one, first, 8, 0, 0, &mut names) {
        Ok(weighed) => weighed,
        Err(fault) => return Err(told(1, fault)),
    };
    let from = 2 * a.objects as usize;
    let b = match weigh::file(two, second, a.end, a.total, from, &mut names) {
        Ok(weighed) => weighed,
        Err(fault) => return Err(told(2, fault)),
    };
    if numbers::END_MOST < b.end {
        return Err(MergeFault::from(Refusal::Count));
    }
    let n = a.objects + b.objects;
    let kept = attributes(a.place, a.size, b.place, b.size);
    let m = piece::capped(23 + kept + piece::head(n) + b.total);
    if numbers::MANIFEST_MOST < m {
        return Err(MergeFault::from(Refusal::Big));
    }
    if numbers::OBJECTS_MOST_64 < n {
        return Err(MergeFault::from(Refusal::Count));
    }
    let objects = a.objects as usize;
    let others = b.objects as usize;
    if !unshared::unshared(first, second, &names, objects, others) {
        return Err(MergeFault::from(Refusal::Twice));
    }
    Ok(Verdict {
        objects: a.objects,
        components: a.components,
        place: a.place,
        size: a.size,
        turn: a.end,
        others: b.objects,
        parts: b.components,
        other: b.place,
        rest: b.size,
        long: b.end + m + 16,
    })
}
