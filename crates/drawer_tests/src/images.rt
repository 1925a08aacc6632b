// Images with two fields for bills in each section: section h from byte 21 h, its promise first.
use drawer_fresh::write_fresh;
use drawer_image::check::check;
use drawer_image::fault::DrawerFault;
use drawer_image::{FIELD, PROMISE_TAG, SETTLED_TAG};
use number::Number;

pub const BILLS: u16 = 2;

pub const LENGTH: usize = 294;

pub const BAD_COUNT: Result<(), DrawerFault> = Err(DrawerFault::BadCount(Number));

pub const BAD_LENGTH: Result<(), DrawerFault> = Err(DrawerFault::BadLength(Number));

// Amounts, low byte first: the largest is 255,000,000.
pub const NONE: [u8; 4] = [0; 4];

pub const ONE: [u8; 4] = [1, 0, 0, 0];

pub const FIVE: [u8; 4] = [5, 0, 0, 0];

pub const MOST: [u8; 4] = [0xC0, 0xFD, 0x32, 0x0F];

pub const ABOVE_MOST: [u8; 4] = [0xC1, 0xFD, 0x32, 0x0F];

// A field to be written: its place, its tag, its length and its amount.
#[derive(Clone, Copy)]
pub struct Field(pub usize, pub u8, pub [u8; 2], pub [u8; 4]);

pub(crate) fn bad_field(place: usize) -> Result<(), DrawerFault> {
    Err(DrawerFault::BadField(Number, place))
}

pub const FOUR: [u8; 2] = [4, 0];

pub(crate) fn promise(place: usize, amount: [u8; 4]) -> Field {
    Field(place, PROMISE_TAG, FOUR, amount)
}

pub(crate) fn settled(place: usize, amount: [u8; 4]) -> Field {
    Field(place, SETTLED_TAG, FOUR, amount)
}

// A fresh image with fields written over it.
pub(crate) fn image(fields: &[Field]) -> [u8; LENGTH] {
    let mut bytes = [0; LENGTH];
    // It is not refused: LENGTH bytes are those of BILLS fields for bills in each section.
    let _ = write_fresh(&mut bytes, BILLS);
    for &Field(place, tag, [low, high], [a, b, c, d]) in fields {
        if place <= LENGTH - FIELD {
            bytes[place..place + FIELD].copy_from_slice(&[tag, low, high, a, b, c, d]);
        }
    }
    bytes
}

pub(crate) fn check_of(fields: &[Field]) -> Result<(), DrawerFault> {
    check(&image(fields), BILLS)
}
