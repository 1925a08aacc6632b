// A tally of the settled bills of each head, over any ledger.
ghost use Rattle.std.specs.Prelude.{◌≡◌, replicate, slice_index_or};
ghost use Rattle.std.specs.Option.{unwrap_or};
ghost use Rattle.ledger.specs.Held.{heads};
ghost use Rattle.ledger.specs.Answers.{question, promise_answer, end_answer, promised_after, settled_after, given_back_after};
ghost use Rattle.layers.specs.Tallies.{tally_held, tally_depth, untallied, tallied_after};

use crate::depth::one_deeper;
use ledger::{HEADS, Ledger, LedgerFault, head_index};
use number::Number;

// What is tallied of a head: how many bills were settled, and the amount of the latest. The amount is a plain number, 0
// at first, as docs/LEDGERS.md promises it: the count beside it tells whether there was one.
#[derive(Clone, Copy, Debug, PartialEq, Eq)]
pub struct Tallied {
    count: u32,
    latest: u32,
}

#[derive(Drop)]
pub struct Tally<L> {
    tallied: [Tallied; HEADS],
    below: L,
}

impl<L> Tally<L> {
    // A tally that has counted nothing yet.
    pub fn new(below: L) -> Tally<L>
        ensures tallied { result.tallied ≡ replicate heads untallied }
        ensures below { result.below ≡ below }
    {
        Tally {
            tallied: [Tallied {
                count: 0,
                latest: 0,
            }; HEADS],
            below,
        }
    }

    // How many bills of a head were settled through this tally, stopping at the largest number.
    pub fn count(&self, head: u8) -> Result<u32, LedgerFault>
        ensures { result ≡ question head (slice_index_or self.now.tallied head untallied).count }
    {
        Ok(self.tallied[head_index(head)?].count)
    }

    // The latest amount settled for a head through this tally, 0 before the first.
    pub fn latest(&self, head: u8) -> Result<u32, LedgerFault>
        ensures { result ≡ question head (slice_index_or self.now.tallied head untallied).latest }
    {
        Ok(self.tallied[head_index(head)?].latest)
    }

    // The ledger below, as it is.
    pub fn into_below(self) -> L
        ensures { result ≡ self.below }
    {
        self.below
    }
}

impl<L: Ledger> Ledger for Tally<L> {
    ghost held = { tally_held L.Ledger.held };

    ghost depth = { tally_depth L.Ledger.depth };

    ghost beyond = { λ s. L.Ledger.beyond s.below };

    ghost within = { λ s. L.Ledger.within s.below };

    ghost amounts = { λ s. L.Ledger.amounts s.below };

    ghost keeps = { λ s t. L.Ledger.keeps s.below t.below };

    ghost stays = { λ s. L.Ledger.stays s.below };

    ghost joins = { λ s t u. L.Ledger.joins s.below t.below u.below };

    fn promised(&self, head: u8) -> Result<Option<u32>, LedgerFault> {
        self.below.promised(head)
    }

    fn credited(&self, head: u8) -> Result<u64, LedgerFault> {
        self.below.credited(head)
    }

    fn places(&self, head: u8) -> Result<u16, LedgerFault> {
        self.below.places(head)
    }

    fn promise(&mut self, head: u8, amount: u32) -> Result<(), LedgerFault>
        ensures answer { result ≡ promise_answer (tally_held L.Ledger.held self.old) (tally_depth L.Ledger.depth self.old head) head amount }
        ensures after { tally_held L.Ledger.held self.new ≡ promised_after (tally_held L.Ledger.held self.old) head amount }
        ensures kept { L.Ledger.keeps self.old.below self.new.below }
        ensures tallied { self.new.tallied ≡ self.old.tallied }
    {
        self.below.promise(head, amount).map_err(one_deeper)
    }

    fn settle(&mut self, head: u8) -> Result<(), LedgerFault>
        ensures answer { result ≡ end_answer (tally_held L.Ledger.held self.old) head }
        ensures after { tally_held L.Ledger.held self.new ≡ settled_after (tally_held L.Ledger.held self.old) head }
        ensures kept { L.Ledger.keeps self.old.below self.new.below }
        ensures tallied { self.new.tallied ≡ tallied_after self.old.tallied head (unwrap_or (tally_held L.Ledger.held self.old head).promised 0) result }
    {
        let index = head_index(head)?;
        let amount = self
            .below
            .promised(head)?
            .ok_or(LedgerFault::NonePromised(Number))?;
        self.below.settle(head)?;
        self.tallied[index] = Tallied {
            count: self.tallied[index].count.saturating_add(1),
            latest: amount,
        };
        Ok(())
    }

    fn give_back(&mut self, head: u8) -> Result<(), LedgerFault>
        ensures answer { result ≡ end_answer (tally_held L.Ledger.held self.old) head }
        ensures after { tally_held L.Ledger.held self.new ≡ given_back_after (tally_held L.Ledger.held self.old) head }
        ensures kept { L.Ledger.keeps self.old.below self.new.below }
        ensures tallied { self.new.tallied ≡ self.old.tallied }
    {
        self.below.give_back(head)
    }
}
