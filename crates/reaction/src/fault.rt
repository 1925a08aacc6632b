// Why a bill in escrow is returned.
ghost use Rattle.std.specs.Prelude.{◌≡◌};
ghost use Rattle.reaction.specs.declared.fault.HeadFault.TheVariants.{Ledger};

use ledger::LedgerFault;
use thiserror::Error;

// The first cause that applies, from the top. The ledger's fault comes whole, with its number and its depth.
#[derive(Clone, Copy, Debug, PartialEq, Eq, Error)]
pub enum HeadFault {
    // Not all settings are confirmed.
    #[error("not all settings are confirmed")]
    Settings,
    // The bill's code is unassigned, or is none of 61H to 68H.
    #[error("the bill's code has no value")]
    Value,
    // The bill's code is disabled.
    #[error("the bill's code is disabled")]
    Disabled,
    // The ledger refused the promise.
    #[error("the ledger refuses the promise with {0}")]
    Ledger(LedgerFault),
}

// By hand and not by the derive's `#[from]`, since the clauses of `perform` name the error that `?` makes.
impl From<LedgerFault> for HeadFault {
    ghost from_gives = { λ f r. r ≡ Ledger f };

    fn from(fault: LedgerFault) -> HeadFault {
        HeadFault::Ledger(fault)
    }
}
