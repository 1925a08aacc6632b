ghost use Rattle.std.specs.Prelude.{◌≡◌, ℕ, ◌+◌, ◌-◌, ◌*◌, ◌<◌, ◌≤◌, List, length};
ghost use Rattle.std.specs.Option.{unwrap_or};
ghost use Rattle.ledger.specs.Held.{most_places};
ghost use Rattle.drawer_image.specs.Fields.{AreFields};
ghost use Rattle.drawer_image.specs.Sections.{bad_in, section_of, read_of, covered, places_in};
ghost use Rattle.drawer_image.specs.Checks.{section_at, empty_section};

use crate::FIELD;
use crate::fault::DrawerFault;
use crate::field::{Field, bad_field, fields_of};
use crate::size::check_size;

// What a section says: the promised amount, the sum of its settled bills, and how many of its fields are free.
#[derive(Clone, Copy, Debug, Default, PartialEq, Eq)]
pub struct Section {
    pub promised: Option<u32>,
    pub credited: u64,
    pub free: u16,
}

impl Section {
    // Whether a promised amount has a free field to be settled into.
    pub fn is_covered(&self) -> bool
        ensures { result ≡ covered self.now }
    {
        self.promised.is_none() || self.free > 0
    }

    // The places: the free fields, less the one that a promised amount will take.
    pub fn places(&self) -> u16
        ensures { result ≡ places_in self.now }
    {
        match self.promised {
            None => self.free,
            Some(_) => self.free.saturating_sub(1),
        }
    }
}

// What a section says, of which these are the fields, or the refusal of its earliest bad field. The first of them
// is the promise, and the drawer's field `first`.
pub(crate) fn read_section(fields: &[[u8; FIELD]], first: usize) -> Result<Section, DrawerFault>
    requires promise { 0 < length fields.now }
    requires few { length fields.now ≤ most_places + 1 }
    requires near { first ≤ 14 * most_places + 14 }
    ensures { (bs : List ℕ) → AreFields fields.now bs first → result ≡ read_of (bad_in bs first (length fields.now - 1)) (section_of bs first (length fields.now - 1)) }
{
    let bad = bad_field(first);
    let Field::Promise(promised) = Field::read(fields[0]).ok_or(bad)? else {
        return Err(bad);
    };
    let mut credited: u64 = 0;
    let mut free: u16 = 0;
    for (bill, field) in fields[1..].iter().enumerate() {
        let bad = bad_field(first + bill + 1);
        match Field::read(*field).ok_or(bad)? {
            Field::Free => free += 1,
            Field::Settled(amount) if free == 0 => credited += u64::from(amount),
            _ => return Err(bad),
        }
    }
    Ok(Section {
        promised,
        credited,
        free,
    })
}

// The section of a head, if there is such a head, the size of the bytes is right and the section passes the check.
fn sound_section(bytes: &[u8], bills: u16, head: u8) -> Option<Section>
    ensures { unwrap_or result empty_section ≡ section_at bytes.now bills head }
{
    check_size(bytes.len(), bills).ok()?;
    let many = bills as usize + 1;
    let first = many * head as usize;
    let fields = fields_of(bytes).get(first..first + many)?;
    let section = read_section(fields, first).ok()?;
    section.is_covered().then_some(section)
}

// What the section of a head holds: nothing where the section would not pass the check, or there is no such head.
pub fn section_of(bytes: &[u8], bills: u16, head: u8) -> Section
    ensures { result ≡ section_at bytes.now bills head }
{
    sound_section(bytes, bills, head).unwrap_or_default()
}
