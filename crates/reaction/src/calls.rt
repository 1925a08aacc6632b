// The ledger calls of a first report.
ghost use Rattle.std.specs.Prelude.{◌≡◌, min, length, take};
ghost use Rattle.reaction.specs.Calls.{PromiseAnswered, called_all, calls_of, listed, parts_of, promise_made, verdict};

use crate::fault::HeadFault;
use crate::reaction::{Reaction, Reply};
use ledger::{Ledger, LedgerFault};
use ledger_calls::{Call, make_call};

// At most two calls, in this order: the end of a promise that stands, and the promise of a bill in escrow.
#[derive(Clone, Copy, Debug, PartialEq, Eq)]
pub struct Calls {
    pub ending: Option<Call>,
    pub promise: Option<u32>,
}

impl Calls {
    // How many calls there are.
    fn count(self) -> usize
        ensures { result ≡ length (listed self) }
    {
        usize::from(self.ending.is_some()) + usize::from(self.promise.is_some())
    }

    // The first so many of them: what is cut off first is the promise.
    fn first(self, count: usize) -> Calls
        ensures { listed result ≡ take count (listed self) }
    {
        Calls {
            ending: self.ending.filter(|_| count > 0),
            promise: self.promise.filter(|_| count >= self.count()),
        }
    }
}

impl Reaction {
    // The calls of a report, where this amount is promised. No other function says which calls are made.
    pub fn calls(&self, promised: Option<u32>) -> Calls
        ensures list { listed result ≡ calls_of self.now promised }
        ensures parts { result ≡ parts_of self.now promised }
    {
        Calls {
            ending: promised.and(self.ending),
            promise: match self.reply {
                Reply::Stack(value) => Some(value),
                _ => None,
            },
        }
    }

    // The calls of a report for a head, with what is promised for it now: nothing where there is no such head.
    pub fn calls_now<L: Ledger>(&self, ledger: &L, head: u8) -> Calls
        ensures list { listed result ≡ calls_of self.now (L.Ledger.held ledger.now head).promised }
        ensures parts { result ≡ parts_of self.now (L.Ledger.held ledger.now head).promised }
    {
        self.calls(ledger.promised(head).unwrap_or(None))
    }
}

// Makes the calls in order, one at a time, and answers what the promise among them was answered.
fn make_all<L: Ledger>(ledger: &mut L, head: u8, calls: Calls) -> Result<(), LedgerFault>
    ensures answer { PromiseAnswered (L.Ledger.held ledger.old) (L.Ledger.depth ledger.old head) head calls result }
    ensures after { L.Ledger.held ledger.new ≡ called_all (L.Ledger.held ledger.old) head (listed calls) }
    ensures kept { L.Ledger.keeps ledger.old ledger.new }
{
    if let Some(ending) = calls.ending {
        let _ = make_call(ledger, head, ending);
    }
    // No `map_or`: of a ledger that a closure changes nothing would be known afterwards.
    match calls.promise {
        Some(value) => make_call(ledger, head, Call::Promise(value)),
        None => Ok(()),
    }
}

// Makes the calls of a report, and tells why the bill in escrow is returned, if it is.
pub fn perform<L: Ledger>(ledger: &mut L, head: u8, reaction: &Reaction) -> Result<(), HeadFault>
    ensures verdict { result ≡ verdict reaction.now.reply (promise_made (L.Ledger.held ledger.old) (L.Ledger.depth ledger.old head) head reaction.now) }
    ensures after { L.Ledger.held ledger.new ≡ called_all (L.Ledger.held ledger.old) head (calls_of reaction.now (L.Ledger.held ledger.old head).promised) }
    ensures kept { L.Ledger.keeps ledger.old ledger.new }
{
    let calls = reaction.calls_now(ledger, head);
    make_all(ledger, head, calls)?;
    match reaction.reply {
        Reply::Return(cause) => Err(cause),
        _ => Ok(()),
    }
}

// Makes the first so many of the same calls, as where the power is cut after them, and tells how many were made.
pub fn perform_some<L: Ledger>(ledger: &mut L, head: u8, reaction: &Reaction, count: usize) -> usize
    ensures made { result ≡ min count (length (calls_of reaction.now (L.Ledger.held ledger.old head).promised)) }
    ensures after { L.Ledger.held ledger.new ≡ called_all (L.Ledger.held ledger.old) head (take count (calls_of reaction.now (L.Ledger.held ledger.old head).promised)) }
    ensures kept { L.Ledger.keeps ledger.old ledger.new }
{
    let calls = reaction.calls_now(ledger, head).first(count);
    let _ = make_all(ledger, head, calls);
    calls.count()
}
