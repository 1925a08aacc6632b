// The sheet as it comes, and as it is kept once it was checked.
ghost use Rattle.std.specs.Prelude.{◌≡◌, ◌<◌, IfSome};
ghost use Rattle.sheet.specs.Sheets.{sheet_answer, told, value_of, is_enabled, limit_of, denominations_answer, place_of, told_denominations};
ghost use Rattle.sheet.specs.Amounts.{ValuesAreAmounts};

use crate::denomination::{Denomination, Pair};
use crate::fault::SheetFault;
use orders::limit::Limit;

// How many denomination codes there are: 61H to 68H.
pub const DENOMINATIONS: usize = 8;

// A sheet as it comes: any bytes.
#[derive(Clone, Copy, Debug, PartialEq, Eq)]
pub struct Draft {
    // The number of slots within which the head's turn has to come.
    pub limit: u8,
    // What the bills of the codes 61H to 68H are worth.
    pub denominations: [Pair; DENOMINATIONS],
    // Bit 0 is for the code 61H; a 1 disables the code.
    pub enable: u8,
    pub security: u8,
    pub options: [u8; 2],
}

// A sheet that was checked.
#[derive(Clone, Copy, Debug, PartialEq, Eq)]
pub struct Sheet {
    limit: Limit,
    denominations: [Denomination; DENOMINATIONS],
    pub(crate) enable: u8,
    pub(crate) security: u8,
    pub(crate) options: [u8; 2],
}

// The pairs as denominations, unless one of them is wrong. Written one by one into the array: with the array's `try_map`,
// which keeps the places in two more arrays on the way, a sheet's check takes three times as long.
fn check_denominations(
    pairs: &[Pair; DENOMINATIONS],
) -> Result<[Denomination; DENOMINATIONS], SheetFault>
    ensures { told_denominations result ≡ denominations_answer pairs.now }
{
    let mut checked = [Denomination::UNASSIGNED; DENOMINATIONS];
    for (place, pair) in pairs.iter().enumerate() {
        checked[place] = Denomination::try_from(*pair)?;
    }
    Ok(checked)
}

// The place of a bill's code among the denominations.
fn place_of(code: u8) -> Option<usize>
    ensures place { result ≡ place_of code }
    ensures within { IfSome result (λ place. place < DENOMINATIONS) }
{
    match code {
        0x61..=0x68 => Some(usize::from(code - 0x61)),
        _ => None,
    }
}

impl Sheet {
    pub fn check(draft: &Draft) -> Result<Sheet, SheetFault>
        ensures { told result ≡ sheet_answer draft.now }
    {
        let limit = Limit::new(draft.limit).ok_or(SheetFault::SheetWrong)?;
        let denominations = check_denominations(&draft.denominations)?;
        Ok(Sheet {
            limit,
            denominations,
            enable: draft.enable,
            security: draft.security,
            options: draft.options,
        })
    }

    pub fn limit(&self) -> Limit
        ensures { result ≡ limit_of self.now }
    {
        self.limit
    }

    // What a bill of this code is worth; None where the code is unassigned, or is none of 61H to 68H.
    pub fn value(&self, code: u8) -> Option<u32>
        ensures { result ≡ value_of self.now code }
    {
        self.denominations[place_of(code)?].value()
    }

    // Whether bills of this code are taken; of codes other than 61H to 68H none is.
    pub fn is_enabled(&self, code: u8) -> bool
        ensures { result ≡ is_enabled self.now code }
    {
        place_of(code).is_some_and(|place| self.enable >> place & 1 == 0)
    }
}

// What a sheet says a bill is worth is an amount that a ledger takes: 1 to 255,000,000.
pub fn values_are_amounts()
    ensures { ValuesAreAmounts }
{}
