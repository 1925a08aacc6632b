// The lines that an audit prints.
ghost use Rattle.std.specs.Prelude.{◌≡◌, ℕ, ◌+◌, ◌<◌, ◌≤◌, Some};
ghost use Rattle.std.specs.Option.{unwrap_or};
ghost use Rattle.audit_report.specs.Reports.{head_text, refusal_text};

use drawer_image::fault::DrawerFault;
use number::Numbered;
use std::fmt;

// What an audit tells of a head.
#[derive(Clone, Copy, Debug, PartialEq, Eq)]
pub struct HeadLine {
    pub head: u8,
    pub promised: Option<u32>,
    pub credited: u64,
    pub places: u16,
}

// Of no promised amount 0 is printed. By hand, as the contract of the report relies on `ghost output`, which a derive
// does not give.
impl fmt::Display for HeadLine {
    ghost output = { λ x. Some (head_text x.head (unwrap_or x.promised 0) x.credited x.places) };

    fn fmt<W: fmt::Write>(&self, f: &mut fmt::Formatter<W>) -> fmt::Result {
        let head = self.head;
        let promised = self.promised.unwrap_or(0);
        let credited = self.credited;
        let places = self.places;
        write!(
            f,
            "head {head} promised {promised} credited {credited} places {places}"
        )
    }
}

// What an audit tells of bytes that are refused.
#[derive(Clone, Copy)]
pub struct Refusal(pub DrawerFault);

// By hand for the same reason.
impl fmt::Display for Refusal {
    ghost output = { λ x. Some (refusal_text x.0) };

    fn fmt<W: fmt::Write>(&self, f: &mut fmt::Formatter<W>) -> fmt::Result {
        match self.0 {
            DrawerFault::BadField(number, place) => write!(f, "refused {number} at {place}"),
            fault => {
                let number = fault.number();
                write!(f, "refused {number}")
            }
        }
    }
}
