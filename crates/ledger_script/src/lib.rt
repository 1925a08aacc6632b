// Scripts for a ledger: calls in order with the answers that they must get, and what is then held for a head. The
// tests of the ledgers are written in them.
#![tactic(auto)]

ghost use Rattle.std.specs.Prelude.{◌≡◌, MatchResult};
ghost use Rattle.ledger.specs.Answers.{question};
ghost use Rattle.ledger_script.specs.Scripts.{AnsweredAsTold, FirstAnsweredOtherwise};

use ledger::{Ledger, LedgerFault};
use ledger_calls::{Call, make_call};
use number::Number;

pub const NO_SUCH_HEAD: LedgerFault = LedgerFault::NoSuchHead(Number);

pub const BAD_AMOUNT: LedgerFault = LedgerFault::BadAmount(Number);

pub const ALREADY_PROMISED: LedgerFault = LedgerFault::AlreadyPromised(Number);

pub const NONE_PROMISED: LedgerFault = LedgerFault::NonePromised(Number);

// A call for a head, and the answer that it must get.
#[derive(Clone, Copy, Debug, PartialEq, Eq)]
pub struct Step(pub u8, pub Call, pub Result<(), LedgerFault>);

// A step was answered otherwise than it says: its place among the steps.
#[derive(Clone, Copy, Debug, PartialEq, Eq)]
pub struct AnsweredOtherwise(pub usize);

// Makes the calls of steps in order, and stops after the first that is answered otherwise than its step says.
pub fn run<L: Ledger>(ledger: &mut L, steps: &[Step]) -> Result<(), AnsweredOtherwise>
    ensures answers { MatchResult result (λ _. AnsweredAsTold L.Ledger.held L.Ledger.depth ledger.old steps.now ledger.new) (λ wrong. FirstAnsweredOtherwise L.Ledger.held L.Ledger.depth ledger.old steps.now wrong.0 ledger.new) }
    ensures kept { L.Ledger.keeps ledger.old ledger.new }
{
    // No chain: its closure would change the ledger that it captures, and nothing is known of the ledger after that.
    for (place, step) in steps.iter().enumerate() {
        if make_call(ledger, step.0, step.1) != step.2 {
            return Err(AnsweredOtherwise(place));
        }
    }
    Ok(())
}

// What a ledger answers to the three questions about a head: the promised amount, the credited total, the places.
pub fn asked<L: Ledger>(
    ledger: &L,
    head: u8,
) -> (
    Result<Option<u32>, LedgerFault>,
    Result<u64, LedgerFault>,
    Result<u16, LedgerFault>,
)
    ensures promised { result.0 ≡ question head (L.Ledger.held ledger.now head).promised }
    ensures credited { result.1 ≡ question head (L.Ledger.held ledger.now head).credited }
    ensures places { result.2 ≡ question head (L.Ledger.held ledger.now head).places }
{
    (
        ledger.promised(head),
        ledger.credited(head),
        ledger.places(head),
    )
}
