ghost use Rattle.drawer_image.specs.Numbers.{fault_number};

use number::{Number, Numbered};
use thiserror::Error;

// Why bytes are no drawer, each case with its number.
#[derive(Clone, Copy, Debug, PartialEq, Eq, Error)]
pub enum DrawerFault {
    // The number of fields for bills in a section is outside 1 to 4,000.
    #[error("{0}: a section has 1 to 4,000 fields for bills")]
    BadCount(Number<26>),
    // The bytes are not as many as the fields of fourteen sections take: 98 × (that number + 1).
    #[error("{0}: the length is not that of fourteen sections")]
    BadLength(Number<27>),
    // A field is not what its position allows, or a promise has no free field; with the place of its first byte.
    #[error("{0}: the field at byte {1} is not allowed there, or is a promise without a free field")]
    BadField(Number<28>, usize),
}

impl Numbered for DrawerFault {
    ghost number_of = { fault_number };

    fn number(&self) -> u8 {
        match *self {
            DrawerFault::BadCount(number) => number.value(),
            DrawerFault::BadLength(number) => number.value(),
            DrawerFault::BadField(number, _) => number.value(),
        }
    }
}
