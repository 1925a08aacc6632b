// What a table holds for a head, and what each call makes of it.
ghost use Rattle.ledger.specs.Held.{Within, Amount};

use crate::{LedgerFault, check_promise};
use number::Number;

// No record exists that breaks the bound, or that promises what is no amount.
#[derive(Clone, Copy)]
pub struct HeadRecord {
    pub promised: Option<u32>,
    pub credited: u64,
    pub places: u16,
    ghost within: { Within (record { promised = promised; credited = credited; places = places }) },
    ghost amount: { Amount promised },
}

impl HeadRecord {
    ghost use Rattle.std.specs.Prelude.{◌≡◌, ◌≤◌, MatchResult};
    ghost use Rattle.ledger.specs.Held.{most_places, promising, settling, giving_back};
    ghost use Rattle.ledger.specs.Answers.{promise_check, end_check};
    ghost use Rattle.ledger.specs.Tables.{held_in, starting};

    // A head that starts with so many places.
    pub(crate) fn starting(places: u16) -> HeadRecord
        requires { places ≤ most_places }
        ensures { held_in result ≡ starting places }
    {
        HeadRecord {
            promised: None,
            credited: 0,
            places,
        }
    }

    // The record once an amount is promised.
    pub(crate) fn promise(self, amount: u32) -> Result<HeadRecord, LedgerFault>
        ensures { MatchResult result (λ after. (promise_check self.promised self.places 0 amount ≡ Ok tt) × (held_in after ≡ promising (held_in self) amount)) (λ fault. promise_check self.promised self.places 0 amount ≡ Err fault) }
    {
        check_promise(amount, self.promised, self.places)?;
        Ok(HeadRecord {
            promised: Some(amount),
            credited: self.credited,
            places: self.places - 1,
        })
    }

    // The record once the promised amount is credited.
    pub(crate) fn settle(self) -> Result<HeadRecord, LedgerFault>
        ensures { MatchResult result (λ after. (end_check self.promised ≡ Ok tt) × (held_in after ≡ settling (held_in self))) (λ fault. end_check self.promised ≡ Err fault) }
    {
        let amount = self.promised.ok_or(LedgerFault::NonePromised(Number))?;
        Ok(HeadRecord {
            promised: None,
            credited: self.credited + u64::from(amount),
            places: self.places,
        })
    }

    // The record once the promised amount is given back.
    pub(crate) fn give_back(self) -> Result<HeadRecord, LedgerFault>
        ensures { MatchResult result (λ after. (end_check self.promised ≡ Ok tt) × (held_in after ≡ giving_back (held_in self))) (λ fault. end_check self.promised ≡ Err fault) }
    {
        self.promised.ok_or(LedgerFault::NonePromised(Number))?;
        Ok(HeadRecord {
            promised: None,
            credited: self.credited,
            places: self.places + 1,
        })
    }
}
