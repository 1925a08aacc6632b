ghost use Rattle.std.specs.Prelude.{◌≡◌, ℕ, ◌+◌, ◌-◌, ◌*◌, ◌^◌, ◌<◌, ◌≤◌, length};
ghost use Rattle.ledger.specs.Held.{most_places};
ghost use Rattle.drawer_image.specs.Sections.{covered, unless};
ghost use Rattle.drawer_image.specs.Checks.{wrong_field, refused_at, checked};
ghost use Rattle.drawer_image.specs.Judged.{Judged};

use crate::fault::DrawerFault;
use crate::field::{bad_field, fields_of};
use crate::section::{Section, read_section};
use crate::size::check_size;

// The refusal of a promise that has no free field, by its field.
fn check_covered(section: Section, first: usize) -> Result<(), DrawerFault>
    requires { first < 2 ^ 32 }
    ensures { result ≡ refused_at (unless (covered section) first) }
{
    if section.is_covered() {
        Ok(())
    } else {
        Err(bad_field(first))
    }
}

// The refusal of the earliest bad field, else of the earliest promise that has no free field.
fn check_fields(bytes: &[u8], bills: usize) -> Result<(), DrawerFault>
    requires few { bills ≤ most_places }
    requires sized { length bytes.now ≡ 98 * (bills + 1) }
    ensures { result ≡ refused_at (wrong_field bytes.now bills) }
{
    let mut covered = Ok(());
    for (head, section) in fields_of(bytes).chunks_exact(bills + 1).enumerate() {
        let first = (bills + 1) * head;
        let section = read_section(section, first)?;
        covered = covered.and(check_covered(section, first));
    }
    covered
}

// Whether bytes are a drawer with this number of fields for bills in each section. The two go as arguments, and not
// as a struct of both, as it would take two structs, one of `&` and one of `&mut`: a drawer, its maker and whoever
// makes calls on one hold the bytes as `&mut`.
pub fn check(bytes: &[u8], bills: u16) -> Result<(), DrawerFault>
    ensures answer { result ≡ checked bytes.now bills }
    ensures judged { Judged bytes.now bills result }
{
    check_size(bytes.len(), bills)?;
    check_fields(bytes, bills as usize)
}
