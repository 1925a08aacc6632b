// The turn table: which heads are admitted, and whose turn it is.
ghost use Rattle.std.specs.Prelude.{◌≡◌, Decides};
ghost use Rattle.orders.specs.Tables.{is_empty, empty_table};
ghost use Rattle.orders.specs.Orders.{SomeOrder, SomeOrderFrom, Bounded};
ghost use Rattle.orders.specs.Choice.{Chosen, chosen};
ghost use Rattle.turns.specs.Calls.{number_answer, admission_answer, after_admission, dismissal_answer, after_dismissal};
ghost use Rattle.orders.specs.Slots.{after_serving};

use super::fault::{AdmissionFault, DismissalFault};
use orders::limit::Limit;
use orders::places::{HEADS, Places, after_slot, fits_limits, leaves_first, smallest_slack};
use orders::turn::Turn;

#[derive(Drop)]
pub struct TurnTable {
    heads: Places,
    // Some order keeps every head within its slack, so there is always a head whose turn may come next.
    ghost ordered: { ∥ SomeOrder heads ∥₁ },
    // The heads outnumber no limit, so a head just served still fits in; and no slack is above its limit.
    ghost bounded: { Bounded heads },
}

impl TurnTable {
    // A table with no head.
    pub fn new() -> TurnTable
        ensures { result.heads ≡ empty_table }
    {
        TurnTable {
            heads: [None; HEADS],
        }
    }

    // Whether this number could be admitted, whatever its limit: 12 and 13 are refused here, 15 by `admit` alone.
    pub fn check_number(&self, number: u8) -> Result<(), AdmissionFault>
        ensures { result ≡ number_answer self.now.heads number }
    {
        let place = self
            .heads
            .get(usize::from(number))
            .ok_or(AdmissionFault::NumberOver13)?;
        if place.is_some() {
            return Err(AdmissionFault::AdmittedAlready);
        }
        Ok(())
    }

    // Admits a head with its slack at its limit.
    pub fn admit(&mut self, number: u8, limit: Limit) -> Result<(), AdmissionFault>
        ensures answer { result ≡ admission_answer self.old.heads number limit }
        ensures after { self.new.heads ≡ after_admission self.old.heads number limit }
    {
        self.check_number(number)?;
        let mut joined = self.heads;
        joined[usize::from(number)] = Some(Turn::new(limit));
        if !fits_limits(&joined) {
            return Err(AdmissionFault::Outnumbered);
        }
        self.heads = joined;
        Ok(())
    }

    pub fn dismiss(&mut self, number: u8) -> Result<(), DismissalFault>
        ensures answer { result ≡ dismissal_answer self.old.heads number }
        ensures after { self.new.heads ≡ after_dismissal self.old.heads number }
    {
        let place = self
            .heads
            .get(usize::from(number))
            .ok_or(DismissalFault::NumberOver13)?;
        place.ok_or(DismissalFault::NotAdmitted)?;
        self.heads[usize::from(number)] = None;
        Ok(())
    }

    // Dismisses every head.
    pub fn dismiss_all(&mut self)
        ensures { self.new.heads ≡ empty_table }
    {
        *self = TurnTable::new();
    }

    // Whether no head is admitted.
    pub fn is_empty(&self) -> bool
        ensures { result ≡ is_empty self.now.heads }
    {
        self.heads.iter().all(Option::is_none)
    }

    // Whether some order that keeps every head within its slack starts with this head.
    pub fn can_start(&self, head: u8) -> bool
        ensures { Decides result (SomeOrderFrom self.now.heads head) }
    {
        let place = usize::from(head);
        if !self.heads.get(place).is_some_and(Option::is_some) {
            return false;
        }
        let mut others = self.heads;
        others[place] = None;
        leaves_first(&others)
    }

    // The head that a slot with this wish is opened for.
    fn choose(&self, wish: u8) -> Option<u8>
        ensures turn { Chosen self.now.heads wish result }
        ensures computed { result ≡ chosen self.now.heads wish }
    {
        if self.can_start(wish) {
            return Some(wish);
        }
        smallest_slack(&self.heads)
    }

    // Opens a slot: the head that it is for, or None if there is no head.
    pub fn serve(&mut self, wish: u8) -> Option<u8>
        ensures turn { Chosen self.old.heads wish result }
        ensures answer { result ≡ chosen self.old.heads wish }
        ensures after { self.new.heads ≡ after_serving self.old.heads wish }
    {
        let chosen = self.choose(wish);
        if let Some(head) = chosen {
            self.heads = after_slot(&self.heads, head);
        }
        chosen
    }
}
