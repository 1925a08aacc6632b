// The reaction to a status.
ghost use Rattle.std.specs.Prelude.{◌≡◌, true};
ghost use Rattle.reaction.specs.Orderly.{is_orderly};

use crate::fault::HeadFault;
use ledger_calls::Call;

// What a status is answered with.
#[derive(Clone, Copy, Debug, PartialEq, Eq)]
pub enum Reply {
    // A row of the table like the others: in an Option beside them it would have as many arms.
    Nothing,
    // The first unconfirmed setting, if any.
    NextSetting,
    // STACK-1 if the ledger takes the promise of this amount, else RETURN.
    Stack(u32),
    // RETURN, and why.
    Return(HeadFault),
    Acknowledge,
    // RESET; all settings are unconfirmed then.
    Reset,
}

#[derive(Clone, Copy, Debug, PartialEq, Eq)]
pub struct Reaction {
    // What a promise that stands comes to.
    pub ending: Option<Call>,
    pub reply: Reply,
    // A bill is promised only once a promise that stands was given back.
    ghost orderly: { is_orderly ending reply ≡ true },
}
