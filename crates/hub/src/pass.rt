// Passes: whoever opens a slot is handed the right, and the duty, to report it.
ghost use Rattle.std.specs.Prelude.{◌≡◌, ℕ, Option};
ghost use Rattle.hub.specs.Passes.{pass_of};
ghost use Rattle.hub.specs.States.{first_of, second_of};
ghost use Rattle.hub.specs.declared.state.Slot.{Slot};

use crate::state::Slot;
use std::marker::PhantomData;

mod sealed {
    pub trait Sealed {}
}

// One of the two reports of a slot.
pub trait Report: sealed::Sealed {
    // Its name in a message.
    const NAME: &'static str;

    // The head whose report a slot awaits, if it awaits this one.
    ghost awaited: { Slot → Option ℕ };

    fn awaited(slot: Slot) -> Option<u8>
        ensures { result ≡ awaited slot };
}

// The report of what the head answered to the poll.
#[derive(Clone, Copy, Debug)]
pub struct First;

// The report of what it answered to the second frame.
#[derive(Clone, Copy, Debug)]
pub struct Second;

impl sealed::Sealed for First {}

impl sealed::Sealed for Second {}

impl Report for First {
    const NAME: &'static str = "first";

    ghost awaited = { first_of };

    fn awaited(slot: Slot) -> Option<u8> {
        match slot {
            Slot::First(head) => Some(head),
            _ => None,
        }
    }
}

impl Report for Second {
    const NAME: &'static str = "second";

    ghost awaited = { second_of };

    fn awaited(slot: Slot) -> Option<u8> {
        match slot {
            Slot::Second { head, .. } => Some(head),
            _ => None,
        }
    }
}

// The right to a report of a slot. It is neither `Copy` nor `Drop`, and nobody else can make one, so that it is spent by
// a report and by nothing else.
#[derive(Debug)]
pub struct Pass<R: Report> {
    count: u64,
    of: PhantomData<R>,
}

pub type FirstPass = Pass<First>;

// Handed out by the first report.
pub type SecondPass = Pass<Second>;

impl<R: Report> Pass<R> {
    pub(crate) fn new(count: u64) -> Pass<R>
        ensures { result ≡ pass_of count }
    {
        Pass {
            count,
            of: PhantomData,
        }
    }

    // The count of its slot: 1 for the first, modulo 2^64.
    pub fn count(&self) -> u64
        ensures { result ≡ self.now.count }
    {
        self.count
    }

    // The report is made, or there is no slot that it could be made for.
    pub(crate) fn spend(self) {
        let Pass { count: _, of: _ } = self;
    }
}

impl FirstPass {
    // The first report is made, and the second of the same slot is due.
    pub(crate) fn into_second(self) -> SecondPass
        ensures { result ≡ pass_of self.count }
    {
        let count = self.count;
        self.spend();
        Pass::new(count)
    }
}

// A slot that was opened: the head that is polled, and the pass for its first report.
#[derive(Debug)]
pub struct Opening {
    pub head: u8,
    pub pass: FirstPass,
}
