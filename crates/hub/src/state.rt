// What the hub knows of its heads and of the open slot.
ghost use Rattle.std.specs.Prelude.{◌≡◌};
ghost use Rattle.orders.specs.Orders.{Bounded, SomeOrder};
ghost use Rattle.hub.specs.States.{is_open, new_state, restarted, served_by, setup_of};

use ledger::HEADS;
use reaction::Setup;
use std::marker::Model;
use turns::table::TurnTable;

// The slot, by what it awaits.
#[derive(Clone, Copy, Debug, PartialEq, Eq)]
pub enum Slot {
    Closed,
    // The first report, for this head.
    First(u8),
    // The second report, for this head; whether its first unconfirmed setting was just sent to it.
    Second { head: u8, setting_sent: bool },
}

#[derive(Drop)]
pub struct State {
    // Who is admitted, and whose turn it is.
    pub(crate) turns: TurnTable,
    // The setup of each admitted head, by its number. It stands beside the turn table, which keeps an invariant of its own over
    // its array of heads and knows nothing of sheets.
    pub(crate) setups: [Option<Setup>; HEADS],
    pub(crate) slot: Slot,
    // How many slots were opened, modulo 2^64.
    pub(crate) count: u64,
}

// Clauses see what the hub knows, without the proofs that its turn table holds.
impl Model for State {
    ghost use Rattle.hub.specs.States.{HubState};

    ghost Value = { HubState };

    ghost view = { λ s. record { table = s.turns.heads; setups = s.setups; slot = s.slot; count = s.count } };
}

impl State {
    pub(crate) fn new() -> State
        ensures { result ≡ new_state }
    {
        State {
            turns: TurnTable::new(),
            setups: [None; HEADS],
            slot: Slot::Closed,
            count: 0,
        }
    }

    // No head is admitted and no slot is open. The count goes on, so that a pass from before the restart fits no later slot
    // until the count has gone round.
    pub(crate) fn restart(&mut self)
        ensures { self.new ≡ restarted self.old }
    {
        self.turns.dismiss_all();
        self.setups = [None; HEADS];
        self.slot = Slot::Closed;
    }

    // The head that the open slot is for.
    pub(crate) fn served(&self) -> Option<u8>
        ensures { result ≡ served_by self.now.slot }
    {
        match self.slot {
            Slot::Closed => None,
            Slot::First(head) | Slot::Second { head, .. } => Some(head),
        }
    }

    pub(crate) fn is_open(&self) -> bool
        ensures { result ≡ is_open self.now.slot }
    {
        self.served().is_some()
    }

    // The setup of a head, if it is admitted.
    pub(crate) fn setup(&self, head: u8) -> Option<Setup>
        ensures { result ≡ setup_of self.now head }
    {
        self.setups.get(head as usize).copied().flatten()
    }

    // What the turn table holds of its heads, for clauses that see the state without it. A proof learns it where the state is
    // opened, so the body names the field, and does nothing.
    pub(crate) fn some_order_keeps_every_head_in_time(&self)
        ensures ordered { ∥ SomeOrder self.now.table ∥₁ }
        ensures bounded { Bounded self.now.table }
    {
        let _ = &self.turns;
    }
}
