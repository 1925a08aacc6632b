// The ledger that lies in its caller's bytes, whose layout and check `drawer_image` has.
#![tactic(auto)]

ghost use Rattle.std.specs.Prelude.{◌≡◌, ℕ, ◌+◌, ◌-◌, ◌*◌, ◌<◌, ◌≤◌, length, is_ok, if◌then◌else◌};
ghost use Rattle.ledger.specs.Answers.{question, promise_answer, end_answer, promised_after, settled_after, given_back_after};
ghost use Rattle.drawer_image.specs.Sections.{promise_of};
ghost use Rattle.drawer_image.specs.Checks.{checked, section_at};
ghost use Rattle.drawer.specs.Meaning.{bytes_held, made};
ghost use Rattle.drawer.specs.Writes.{promised_bytes, settled_bytes, given_back_bytes};
ghost use Rattle.drawer.specs.Drawers.{drawer_held, drawer_keeps, drawer_stays, drawer_joins, drawer_beyond, drawer_within, drawer_amounts};
ghost use Rattle.drawer.specs.Theorems.{HoldsDocumented, SettlesIntoFirstFree};

use drawer_image::check::check;
use drawer_image::section::{Section, section_of};
use ledger::{Ledger, LedgerFault, check_amount, check_promise, head_index};
use number::Number;

mod write;

use write::{put_amount, put_settled};

// A ledger in the caller's bytes, with so many fields for bills in each section, or 0 where the check refused
// the bytes: no section of 0 fields for bills passes, so that such a drawer holds nothing.
#[derive(Drop)]
pub struct Drawer<'a> {
    bytes: &'a mut [u8],
    bills: u16,
}

impl<'a> Drawer<'a> {
    // The drawer in bytes that pass the check; of bytes that are refused, a ledger that holds nothing. The bytes
    // stay as they are.
    pub fn new(bytes: &'a mut [u8], bills: u16) -> Drawer<'a>
        ensures held { bytes_held result.bytes.now result.bills ≡ made bytes.old bills }
        ensures bytes { result.bytes.now ≡ bytes.old }
        ensures bills { result.bills ≡ (if is_ok (checked bytes.old bills) then bills else 0) }
        ensures same { result.bytes.ghost_name ≡ bytes.entry.ghost_name }
    {
        let bills = if check(bytes, bills).is_ok() {
            bills
        } else {
            0
        };
        Drawer { bytes, bills }
    }

    // The number of fields for bills in each section.
    pub fn bills(&self) -> u16
        ensures { result ≡ self.now.bills }
    {
        self.bills
    }

    // The bytes, as they are.
    pub fn bytes(&self) -> &[u8]
        ensures { result.now ≡ self.now.bytes.now }
    {
        self.bytes
    }

    // The bytes, had back.
    pub fn into_bytes(self) -> &'a mut [u8]
        ensures bytes { result.now ≡ self.entry.bytes.now }
        ensures same { result.ghost_name ≡ self.entry.bytes.ghost_name }
    {
        self.bytes
    }

    // What the section of a head says.
    fn section(&self, head: u8) -> Result<Section, LedgerFault>
        ensures { result ≡ question head (section_at self.now.bytes.now self.now.bills head) }
    {
        head_index(head)?;
        Ok(section_of(self.bytes, self.bills, head))
    }

    // The field of a head's promise, and what its section says.
    fn opened(&self, head: u8) -> Result<(usize, Section), LedgerFault>
        ensures { result ≡ question head (promise_of self.now.bills head, section_at self.now.bytes.now self.now.bills head) }
    {
        let held = self.section(head)?;
        Ok(((self.bills as usize + 1) * usize::from(head), held))
    }
}

impl<'a> Ledger for Drawer<'a> {
    ghost held = { drawer_held };

    ghost depth = { λ _ _. 0 };

    ghost beyond = { drawer_beyond };

    ghost within = { drawer_within };

    ghost amounts = { drawer_amounts };

    ghost keeps = { drawer_keeps };

    ghost stays = { drawer_stays };

    ghost joins = { drawer_joins };

    fn promised(&self, head: u8) -> Result<Option<u32>, LedgerFault> {
        Ok(self.section(head)?.promised)
    }

    fn credited(&self, head: u8) -> Result<u64, LedgerFault> {
        Ok(self.section(head)?.credited)
    }

    fn places(&self, head: u8) -> Result<u16, LedgerFault> {
        Ok(self.section(head)?.places())
    }

    fn promise(&mut self, head: u8, amount: u32) -> Result<(), LedgerFault>
        ensures answer { result ≡ promise_answer (drawer_held self.old) 0 head amount }
        ensures after { drawer_held self.new ≡ promised_after (drawer_held self.old) head amount }
        ensures kept { drawer_keeps self.old self.new }
        ensures bytes { self.new.bytes.now ≡ promised_bytes self.old.bytes.now self.old.bills head amount result }
        ensures same { self.new.bytes.ghost_name ≡ self.old.bytes.ghost_name }
    {
        // A bad head or amount is refused before the section is read, which takes as long as the section is.
        head_index(head)?;
        check_amount(amount)?;
        let (first, held) = self.opened(head)?;
        check_promise(amount, held.promised, held.places())?;
        put_amount(self.bytes, first, amount);
        Ok(())
    }

    fn settle(&mut self, head: u8) -> Result<(), LedgerFault>
        ensures answer { result ≡ end_answer (drawer_held self.old) head }
        ensures after { drawer_held self.new ≡ settled_after (drawer_held self.old) head }
        ensures kept { drawer_keeps self.old self.new }
        ensures bytes { self.new.bytes.now ≡ settled_bytes self.old.bytes.now self.old.bills head result }
        ensures same { self.new.bytes.ghost_name ≡ self.old.bytes.ghost_name }
    {
        let (promise, held) = self.opened(head)?;
        let amount = held.promised.ok_or(LedgerFault::NonePromised(Number))?;
        let next = promise + (self.bills - held.free) as usize + 1;
        put_settled(self.bytes, next, amount);
        put_amount(self.bytes, promise, 0);
        Ok(())
    }

    fn give_back(&mut self, head: u8) -> Result<(), LedgerFault>
        ensures answer { result ≡ end_answer (drawer_held self.old) head }
        ensures after { drawer_held self.new ≡ given_back_after (drawer_held self.old) head }
        ensures kept { drawer_keeps self.old self.new }
        ensures bytes { self.new.bytes.now ≡ given_back_bytes self.old.bytes.now self.old.bills head result }
        ensures same { self.new.bytes.ghost_name ≡ self.old.bytes.ghost_name }
    {
        let (first, held) = self.opened(head)?;
        held.promised.ok_or(LedgerFault::NonePromised(Number))?;
        put_amount(self.bytes, first, 0);
        Ok(())
    }
}

// On bytes that pass the check a drawer means what is documented of them, and a bill is settled into the first
// free field of its section.
pub fn means_what_is_documented()
    ensures held { HoldsDocumented }
    ensures settles { SettlesIntoFirstFree }
{}
