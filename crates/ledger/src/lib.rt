// A ledger keeps the money of fourteen heads: what a head's bill in escrow was promised, what was credited, and
// how many places are free in its cash box. The trait says all that may be relied on; `table` is the plainest
// ledger there is.
#![tactic(auto)]

ghost use Rattle.std.specs.Prelude.{◌≡◌, ℕ, ◌≤◌};
ghost use Rattle.ledger.specs.Held.{heads, Heads, nothing, Within, Amount};
ghost use Rattle.ledger.specs.Starts.{start_fault_number};
ghost use Rattle.ledger.specs.Answers.{fault_number, question, amount_check, promise_check, promise_answer, end_answer, promised_after, settled_after, given_back_after};

use number::{Number, Numbered};
use thiserror::Error;

mod head_record;
pub mod laws;
pub mod starts;
pub mod table;

// How many heads there are, numbered from 0.
pub const HEADS: usize = 14;

// The largest amount that can be promised; the smallest is 1.
pub const MOST_AMOUNT: u32 = 255_000_000;

// The most places that a head can start with.
pub const MOST_PLACES: u16 = 4_000;

// Why a ledger refuses a call. Each case shows its number.
#[derive(Clone, Copy, Debug, PartialEq, Eq, Error)]
pub enum LedgerFault {
    #[error("{0}: there is no such head")]
    NoSuchHead(Number<21>),
    #[error("{0}: the amount is not 1 to 255,000,000")]
    BadAmount(Number<22>),
    #[error("{0}: an amount is promised already")]
    AlreadyPromised(Number<23>),
    // No place is free. The depth says how far down the pile of ledgers that was found, 0 for the top.
    #[error("{0}: no place is free, at depth {1}")]
    NoPlace(Number<24>, u32),
    #[error("{0}: no amount is promised")]
    NonePromised(Number<25>),
}

impl Numbered for LedgerFault {
    ghost number_of = { fault_number };

    fn number(&self) -> u8 {
        // Each number has a type of its own, so that no one pattern takes them all.
        match *self {
            LedgerFault::NoSuchHead(number) => number.value(),
            LedgerFault::BadAmount(number) => number.value(),
            LedgerFault::AlreadyPromised(number) => number.value(),
            LedgerFault::NoPlace(number, _) => number.value(),
            LedgerFault::NonePromised(number) => number.value(),
        }
    }
}

// Why fourteen starts are refused.
#[derive(Clone, Copy, Debug, PartialEq, Eq, Error)]
pub enum StartFault {
    #[error("{}: a start is above 4,000", self.number())]
    AboveMost = 26,
}

impl Numbered for StartFault {
    ghost number_of = { start_fault_number };

    fn number(&self) -> u8 {
        *self as u8
    }
}

// The place of a head in fourteen.
pub fn head_index(head: u8) -> Result<usize, LedgerFault>
    ensures { result ≡ question head head }
{
    let index = usize::from(head);
    if index >= HEADS {
        return Err(LedgerFault::NoSuchHead(Number));
    }
    Ok(index)
}

// Whether an amount can be promised at all. A ledger for which it costs something to tell what it holds asks this
// first, so that a refused amount costs nothing.
pub fn check_amount(amount: u32) -> Result<(), LedgerFault>
    ensures { result ≡ amount_check amount }
{
    if !(1..=MOST_AMOUNT).contains(&amount) {
        return Err(LedgerFault::BadAmount(Number));
    }
    Ok(())
}

// Why an amount cannot be promised for a head, if it cannot, by what is promised for it already and by the places
// that are free for it.
pub fn check_promise(amount: u32, promised: Option<u32>, places: u16) -> Result<(), LedgerFault>
    ensures { result ≡ promise_check promised places 0 amount }
{
    check_amount(amount)?;
    if promised.is_some() {
        return Err(LedgerFault::AlreadyPromised(Number));
    }
    if places == 0 {
        return Err(LedgerFault::NoPlace(Number, 0));
    }
    Ok(())
}

// Whatever shows this meaning and keeps the bound is a ledger.
pub trait Ledger {
    // What is held for each head.
    ghost held: { Self → Heads };

    // The depth that comes with refusal 24 for a head. It alone differs between ledgers that hold the same.
    ghost depth: { Self → ℕ → ℕ };

    // A number that is no head's holds nothing.
    ghost beyond: { (s : Self) (h : ℕ) → heads ≤ h → held s h ≡ nothing };

    // The bound, kept by every ledger: it is why settling never overflows.
    ghost within: { (s : Self) (h : ℕ) → Within (held s h) };

    // A promised amount is 1 to 255,000,000.
    ghost amounts: { (s : Self) (h : ℕ) → Amount (held s h).promised };

    // What every call keeps, accepted or refused, from before it to after it: as that a buffer in which a ledger
    // lies still passes its check.
    ghost keeps: { Self → Self → Type 0 };

    // No call at all keeps it too,
    ghost stays: { (s : Self) → keeps s s };

    // and so does one call after another.
    ghost joins: { (s t u : Self) → keeps s t → keeps t u → keeps s u };

    // The amount that is promised for a head, if any.
    fn promised(&self, head: u8) -> Result<Option<u32>, LedgerFault>
        ensures { result ≡ question head (held self.now head).promised };

    // The total credited for a head.
    fn credited(&self, head: u8) -> Result<u64, LedgerFault>
        ensures { result ≡ question head (held self.now head).credited };

    // How many places are free for a head.
    fn places(&self, head: u8) -> Result<u16, LedgerFault>
        ensures { result ≡ question head (held self.now head).places };

    // Promises an amount for a head, which takes a place.
    fn promise(&mut self, head: u8, amount: u32) -> Result<(), LedgerFault>
        ensures answer { result ≡ promise_answer (held self.old) (depth self.old head) head amount }
        ensures after { held self.new ≡ promised_after (held self.old) head amount }
        ensures kept { keeps self.old self.new };

    // Credits the promised amount of a head, which is promised no longer.
    fn settle(&mut self, head: u8) -> Result<(), LedgerFault>
        ensures answer { result ≡ end_answer (held self.old) head }
        ensures after { held self.new ≡ settled_after (held self.old) head }
        ensures kept { keeps self.old self.new };

    // Takes the promise of a head back, and its place is free again.
    fn give_back(&mut self, head: u8) -> Result<(), LedgerFault>
        ensures answer { result ≡ end_answer (held self.old) head }
        ensures after { held self.new ≡ given_back_after (held self.old) head }
        ensures kept { keeps self.old self.new };
}
