// A refusal and what it is about. Where it is about none of them, an index is 0.
ghost use Rattle.std.specs.Prelude.{◌≡◌};

use crate::refusal::Refusal;

// In an object: which component.
#[derive(Clone, Copy)]
pub struct ObjectFault {
    pub refusal: Refusal,
    pub component: usize,
}

impl From<Refusal> for ObjectFault {
    ghost from_gives = { λ r f. f ≡ record { refusal = r; component = 0 } };

    fn from(refusal: Refusal) -> ObjectFault {
        ObjectFault {
            refusal: refusal,
            component: 0,
        }
    }
}

// In a file: which object, and which of its components.
#[derive(Clone, Copy)]
pub struct FileFault {
    pub refusal: Refusal,
    pub object: usize,
    pub component: usize,
}

impl From<Refusal> for FileFault {
    ghost from_gives = { λ r f. f ≡ record { refusal = r; object = 0; component = 0 } };

    fn from(refusal: Refusal) -> FileFault {
        FileFault {
            refusal: refusal,
            object: 0,
            component: 0,
        }
    }
}
