// The first two refusals of the check, which look at no field.
ghost use Rattle.std.specs.Prelude.{◌≡◌};
ghost use Rattle.drawer_image.specs.Checks.{count_answer, size_answer};

use crate::FIELD;
use crate::fault::DrawerFault;
use ledger::{HEADS, MOST_PLACES};
use number::Number;

// Whether a section can have so many fields for bills.
pub fn check_count(bills: u16) -> Result<(), DrawerFault>
    ensures { result ≡ count_answer bills }
{
    if !(1..=MOST_PLACES).contains(&bills) {
        return Err(DrawerFault::BadCount(Number));
    }
    Ok(())
}

// Whether so many bytes are those of a drawer with so many fields for bills in each section.
pub fn check_size(length: usize, bills: u16) -> Result<(), DrawerFault>
    ensures { result ≡ size_answer length bills }
{
    check_count(bills)?;
    if length != HEADS * FIELD * (bills as usize + 1) {
        return Err(DrawerFault::BadLength(Number));
    }
    Ok(())
}
