// The plainest ledger: fourteen records.
ghost use Rattle.std.specs.Prelude.{◌≡◌, slice_index_or};
ghost use Rattle.ledger.specs.Answers.{question};
ghost use Rattle.ledger.specs.Tables.{blank, table_held, table_beyond, table_within, table_amounts, fresh};

use crate::head_record::HeadRecord;
use crate::starts::accepted_starts;
use crate::{HEADS, Ledger, LedgerFault, head_index};

#[derive(Drop)]
pub struct Table {
    records: [HeadRecord; HEADS],
}

impl Table {
    // A table with nothing promised or credited, and so many places for each head; with none at all if
    // `check_starts` refuses the starts.
    pub fn new(starts: [u16; HEADS]) -> Table
        ensures { table_held result ≡ fresh starts }
    {
        let records = accepted_starts(starts).map(HeadRecord::starting);
        Table { records }
    }

    fn record(&self, head: u8) -> Result<HeadRecord, LedgerFault>
        ensures { result ≡ question head (slice_index_or self.now.records head blank) }
    {
        Ok(self.records[head_index(head)?])
    }
}

impl Ledger for Table {
    ghost held = { table_held };

    ghost depth = { λ _ _. 0 };

    ghost beyond = { table_beyond };

    ghost within = { table_within };

    ghost amounts = { table_amounts };

    ghost keeps = { λ _ _. Unit {0} };

    ghost stays = { λ _. tt };

    ghost joins = { λ _ _ _ _ _. tt };

    fn promised(&self, head: u8) -> Result<Option<u32>, LedgerFault> {
        Ok(self.record(head)?.promised)
    }

    fn credited(&self, head: u8) -> Result<u64, LedgerFault> {
        Ok(self.record(head)?.credited)
    }

    fn places(&self, head: u8) -> Result<u16, LedgerFault> {
        Ok(self.record(head)?.places)
    }

    fn promise(&mut self, head: u8, amount: u32) -> Result<(), LedgerFault> {
        let index = head_index(head)?;
        self.records[index] = self.records[index].promise(amount)?;
        Ok(())
    }

    fn settle(&mut self, head: u8) -> Result<(), LedgerFault> {
        let index = head_index(head)?;
        self.records[index] = self.records[index].settle()?;
        Ok(())
    }

    fn give_back(&mut self, head: u8) -> Result<(), LedgerFault> {
        let index = head_index(head)?;
        self.records[index] = self.records[index].give_back()?;
        Ok(())
    }
}
