// A limit on the promises of each head, over any ledger.
ghost use Rattle.std.specs.Prelude.{◌≡◌, is_ok, if◌then◌else◌, slice_index};
ghost use Rattle.ledger.specs.Starts.{accepted};
ghost use Rattle.ledger.specs.Answers.{question, promise_answer, end_answer, promised_after, settled_after, given_back_after};
ghost use Rattle.layers.specs.Limits.{limit_held, limit_depth, limit_beyond, limit_within, left_after_promise, left_after_give_back};

use crate::depth::one_deeper;
use ledger::starts::accepted_starts;
use ledger::{HEADS, Ledger, LedgerFault, MOST_PLACES, check_amount, check_promise, head_index};

#[derive(Drop)]
pub struct Limit<L> {
    left: [u16; HEADS],
    below: L,
}

impl<L> Limit<L> {
    // A limit with so many promises left for each head; with none at all if `check_starts` refuses the starts.
    pub fn new(starts: [u16; HEADS], below: L) -> Limit<L>
        ensures left { result.left ≡ accepted starts }
        ensures below { result.below ≡ below }
    {
        Limit {
            left: accepted_starts(starts),
            below,
        }
    }

    // How many promises are left for a head by this limit's own count.
    pub fn left(&self, head: u8) -> Result<u16, LedgerFault>
        ensures { result ≡ question head (slice_index self.now.left head) }
    {
        Ok(self.left[head_index(head)?])
    }

    // The ledger below, as it is.
    pub fn into_below(self) -> L
        ensures { result ≡ self.below }
    {
        self.below
    }
}

impl<L: Ledger> Ledger for Limit<L> {
    ghost held = { limit_held L.Ledger.held };

    ghost depth = { limit_depth L.Ledger.depth };

    ghost beyond = { λ s h le. limit_beyond L.Ledger.held s h (L.Ledger.beyond s.below h le) };

    ghost within = { λ s h. limit_within L.Ledger.held s h (L.Ledger.within s.below h) };

    ghost amounts = { λ s h. L.Ledger.amounts s.below h };

    ghost keeps = { λ s t. L.Ledger.keeps s.below t.below };

    ghost stays = { λ s. L.Ledger.stays s.below };

    ghost joins = { λ s t u. L.Ledger.joins s.below t.below u.below };

    fn promised(&self, head: u8) -> Result<Option<u32>, LedgerFault> {
        self.below.promised(head)
    }

    fn credited(&self, head: u8) -> Result<u64, LedgerFault> {
        self.below.credited(head)
    }

    fn places(&self, head: u8) -> Result<u16, LedgerFault> {
        Ok(self.left(head)?.min(self.below.places(head)?))
    }

    // The refusals that come before 24 are looked for here, since the own count is looked at before the ledger
    // below is asked: the amount first, as a ledger below may read much to tell what it holds.
    fn promise(&mut self, head: u8, amount: u32) -> Result<(), LedgerFault>
        ensures answer { result ≡ promise_answer (limit_held L.Ledger.held self.old) (limit_depth L.Ledger.depth self.old head) head amount }
        ensures after { limit_held L.Ledger.held self.new ≡ promised_after (limit_held L.Ledger.held self.old) head amount }
        ensures kept { L.Ledger.keeps self.old.below self.new.below }
        ensures own { self.new.left ≡ left_after_promise self.old.left head result }
        ensures under { L.Ledger.held self.new.below ≡ (if is_ok result then promised_after (L.Ledger.held self.old.below) head amount else L.Ledger.held self.old.below) }
    {
        let index = head_index(head)?;
        check_amount(amount)?;
        let left = self.left[index];
        check_promise(amount, self.below.promised(head)?, left)?;
        self.below.promise(head, amount).map_err(one_deeper)?;
        self.left[index] = left - 1;
        Ok(())
    }

    fn settle(&mut self, head: u8) -> Result<(), LedgerFault>
        ensures answer { result ≡ end_answer (limit_held L.Ledger.held self.old) head }
        ensures after { limit_held L.Ledger.held self.new ≡ settled_after (limit_held L.Ledger.held self.old) head }
        ensures kept { L.Ledger.keeps self.old.below self.new.below }
        ensures own { self.new.left ≡ self.old.left }
        ensures under { L.Ledger.held self.new.below ≡ settled_after (L.Ledger.held self.old.below) head }
    {
        self.below.settle(head)
    }

    // Over a ledger that held a promise before the limit was made, too, a place comes free: the bound leaves at
    // most 3,999 places beside a promise, so the own count does not stop short of those below.
    fn give_back(&mut self, head: u8) -> Result<(), LedgerFault>
        ensures answer { result ≡ end_answer (limit_held L.Ledger.held self.old) head }
        ensures after { limit_held L.Ledger.held self.new ≡ given_back_after (limit_held L.Ledger.held self.old) head }
        ensures kept { L.Ledger.keeps self.old.below self.new.below }
        ensures own { self.new.left ≡ left_after_give_back self.old.left head result }
        ensures under { L.Ledger.held self.new.below ≡ given_back_after (L.Ledger.held self.old.below) head }
    {
        let index = head_index(head)?;
        self.below.give_back(head)?;
        let left = self.left[index];
        self.left[index] = left.saturating_add(1).min(MOST_PLACES);
        Ok(())
    }
}
