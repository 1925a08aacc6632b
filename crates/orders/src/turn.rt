// An admitted head's turn.
use super::limit::Limit;

#[derive(Clone, Copy, Debug, PartialEq, Eq)]
pub struct Turn {
    pub limit: Limit,
    // The limit less the slots opened since the head's last turn or its admission.
    pub slack: u8,
}

impl Turn {
    ghost use Rattle.std.specs.Prelude.{◌≡◌};
    ghost use Rattle.orders.specs.Slots.{lowered_turn, restored_turn};

    // The turn of a head just admitted or just served.
    pub fn new(limit: Limit) -> Turn
        ensures { result ≡ record { limit = limit; slack = limit.value } }
    {
        Turn {
            limit,
            slack: limit.value(),
        }
    }

    // The turn after a slot for another head. A slack is never 0 here, since an order keeps every head within it.
    pub(crate) fn lowered(self) -> Turn
        ensures { result ≡ lowered_turn self }
    {
        Turn {
            limit: self.limit,
            slack: self.slack.saturating_sub(1),
        }
    }

    // The turn after a slot for the head itself.
    pub(crate) fn restored(self) -> Turn
        ensures { result ≡ restored_turn self }
    {
        Turn::new(self.limit)
    }
}
