// The number of fields for bills in each section, as an operator writes it.
ghost use Rattle.std.specs.Prelude.{ℕ, ◌+◌, ◌<◌, ◌≤◌};
ghost use Rattle.audit_report.specs.Counts.{CountRead};

use ledger::MOST_PLACES;
use numbers::read_capped;

// The number that decimal digits without leading zeros write, or none for any other text. A number above 4,001 is
// told as 4,001, which is refused as it would be.
pub fn read_count(text: &[u8]) -> Option<u16>
    ensures { CountRead text.now result }
{
    let count = read_capped(text, u64::from(MOST_PLACES + 1))?;
    Some(count as u16)
}
