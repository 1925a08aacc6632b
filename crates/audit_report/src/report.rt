// The whole text that an audit prints.
ghost use Rattle.std.specs.Prelude.{◌≡◌, ℕ, ◌+◌, ◌<◌, ◌≤◌, IfOk, string_bytes};
ghost use Rattle.std.specs.Option.{unwrap_or};
ghost use Rattle.ledger.specs.Held.{heads};
ghost use Rattle.drawer.specs.Meaning.{bytes_held};
ghost use Rattle.audit_report.specs.Reports.{lines_of, report_of};

use crate::line::{HeadLine, Refusal};
use drawer_image::check::check;
use drawer_image::section::section_of;
use ledger::HEADS;
use std::alloc::{AllocError, Global};

// What the section of a head holds, as a line.
pub fn head_line(image: &[u8], bills: u16, head: u8) -> HeadLine
    ensures { result ≡ record { head = head; promised = (bytes_held image.now bills head).promised; credited = (bytes_held image.now bills head).credited; places = (bytes_held image.now bills head).places } }
{
    let section = section_of(image, bills, head);
    HeadLine {
        head,
        promised: section.promised,
        credited: section.credited,
        places: section.places(),
    }
}

// The lines of all heads. A loop over their numbers, as these are printed: a chain's closure would change the text, of
// which nothing would then be known.
fn report_heads(heap: Global, image: &[u8], bills: u16) -> Result<String, AllocError>
    ensures { IfOk result (λ text. string_bytes text ≡ lines_of (bytes_held image.now bills) heads) }
{
    let mut text = String::new(heap);
    for head in 0..HEADS as u8 {
        let line = head_line(image, bills, head);
        writeln!(text, "{line}")?;
    }
    Ok(text)
}

// What an audit of an image prints: a line for each head, or the refusal.
pub fn report(heap: Global, image: &[u8], bills: u16) -> Result<String, AllocError>
    ensures { IfOk result (λ text. string_bytes text ≡ report_of image.now bills) }
{
    match check(image, bills) {
        Ok(()) => report_heads(heap, image, bills),
        Err(fault) => {
            let refusal = Refusal(fault);
            format!(in heap; "{refusal}\n")
        }
    }
}
