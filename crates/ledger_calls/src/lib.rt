// The calls that change a ledger as values, and making many of them in order.
#![tactic(auto)]

ghost use Rattle.std.specs.Prelude.{◌≡◌, ℕ};
ghost use Rattle.ledger.specs.Held.{Within};
ghost use Rattle.ledger_calls.specs.Calls.{call_answer, call_after, after_all};
ghost use Rattle.ledger_calls.specs.Books.{journal, accepted_in, Balanced, RefusedCallsLeaveNoTrace};

use ledger::{Ledger, LedgerFault};

// A call that changes what is held for a head.
#[derive(Clone, Copy, Debug, PartialEq, Eq)]
pub enum Call {
    Promise(u32),
    Settle,
    GiveBack,
}

// A call with the head it is for.
#[derive(Clone, Copy, Debug, PartialEq, Eq)]
pub struct HeadCall {
    pub head: u8,
    pub call: Call,
}

// Makes one call for a head.
pub fn make_call<L: Ledger>(ledger: &mut L, head: u8, call: Call) -> Result<(), LedgerFault>
    ensures answer { result ≡ call_answer (L.Ledger.held ledger.old) (L.Ledger.depth ledger.old head) head call }
    ensures after { L.Ledger.held ledger.new ≡ call_after (L.Ledger.held ledger.old) head call }
    ensures kept { L.Ledger.keeps ledger.old ledger.new }
{
    match call {
        Call::Promise(amount) => ledger.promise(head, amount),
        Call::Settle => ledger.settle(head),
        Call::GiveBack => ledger.give_back(head),
    }
}

// Makes calls in order, refused ones included, and tells how many were accepted. Whatever the calls and the
// ledger, the books balance: what is credited is what was settled, and all that was promised was settled, given
// back or is still promised.
pub fn make_calls<L: Ledger>(ledger: &mut L, calls: &[HeadCall]) -> usize
    ensures accepted { result ≡ accepted_in (journal (L.Ledger.held ledger.old) calls.now) }
    ensures after { L.Ledger.held ledger.new ≡ after_all (L.Ledger.held ledger.old) calls.now }
    ensures books { Balanced (L.Ledger.held ledger.old) (journal (L.Ledger.held ledger.old) calls.now) (L.Ledger.held ledger.new) }
    ensures within { (h : ℕ) → Within (L.Ledger.held ledger.new h) }
    ensures refused { RefusedCallsLeaveNoTrace }
    ensures kept { L.Ledger.keeps ledger.old ledger.new }
{
    // No chain: its closure would change the ledger that it captures, and nothing is known of the ledger after that.
    let mut accepted = 0;
    for it in calls {
        if make_call(ledger, it.head, it.call).is_ok() {
            accepted += 1;
        }
    }
    accepted
}
