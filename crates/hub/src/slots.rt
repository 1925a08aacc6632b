// Opening a slot.
ghost use Rattle.std.specs.Prelude.{◌≡◌, length};
ghost use Rattle.hub.specs.Slots.{after_opening, opening_answer, poll_written};

use crate::pass::{Opening, Pass};
use crate::refusal::OpeningRefusal;
use crate::state::{Slot, State};

// What the hub asks a head: its status.
const POLL: u8 = 0x11;

// A poll has no data.
const POLL_LENGTH: usize = 5;

impl State {
    // Opens a slot for the head whose turn it is, and writes the poll for it to the start of the buffer, whose rest stays.
    pub(crate) fn open(&mut self, wish: u8, buffer: &mut [u8]) -> Result<Opening, OpeningRefusal>
        ensures answer { result ≡ opening_answer self.old wish (length buffer.old) }
        ensures after { self.new ≡ after_opening self.old wish result }
        ensures written { buffer.new ≡ poll_written result buffer.old }
    {
        if self.is_open() {
            return Err(OpeningRefusal::SlotOpen);
        }
        if self.turns.is_empty() {
            return Err(OpeningRefusal::NoHead);
        }
        if buffer.len() < POLL_LENGTH {
            return Err(OpeningRefusal::BufferTooShort);
        }
        let head = self.turns.serve(wish).ok_or(OpeningRefusal::NoHead)?;
        frame::write(POLL, &[], buffer).unwrap();
        self.slot = Slot::First(head);
        self.count = self.count.wrapping_add(1);
        Ok(Opening {
            head,
            pass: Pass::new(self.count),
        })
    }
}
