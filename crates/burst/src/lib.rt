// What `listen` prints of a burst, the bytes received in one go.
#![tactic(auto)]

ghost use Rattle.std.specs.Prelude.{◌≡◌, IfOk, Some, string_bytes};
ghost use Rattle.message.specs.Heard.{found_by};
ghost use Rattle.message.specs.Kinds.{message_kind, message_content};
ghost use Rattle.burst.specs.Described.{Answered, kind_word, described_burst, described_found, refusal, refused_text, without_end};

use hex_text::{Blanked, HexFault};
use message::{Heard, Message, hear};
use number::Numbered;
use status::StatusFault;
use std::alloc::{AllocError, Global};
use std::fmt;

fn kind_word(message: Message) -> &'static str
    ensures { result.now ≡ kind_word (message_kind message.entry) }
{
    match message {
        Message::Status(..) => "status",
        Message::Acknowledgement(..) => "acknowledgement",
        Message::Setting(..) => "setting",
        Message::Other(..) => "other",
    }
}

// Why a status does not read.
fn refusal(message: Message) -> Option<StatusFault>
    ensures { result ≡ refusal (message_kind message.entry) (message_content message.entry) }
{
    match message {
        Message::Status(code, data) => status::read(code.into(), data).err(),
        _ => None,
    }
}

// The end of a line: why a status does not read, or nothing.
#[derive(Clone, Copy)]
struct Refused(Option<StatusFault>);

// Written out, since the clause of `describe_heard` relies on what it prints, its `ghost output`.
impl fmt::Display for Refused {
    ghost output = { λ x. Some (refused_text x.0) };

    fn fmt<W: fmt::Write>(&self, f: &mut fmt::Formatter<W>) -> fmt::Result {
        match self.0 {
            Some(fault) => write!(f, " refused {}", fault.number()),
            None => Ok(()),
        }
    }
}

fn describe_heard(heap: Global, heard: Heard) -> Result<String, AllocError>
    ensures { IfOk result (λ text. string_bytes text ≡ described_found (found_by heard.entry)) }
{
    let Heard { place, message } = heard;
    let kind = kind_word(message);
    let command = message.command();
    let data = Blanked(message.data());
    let refused = Refused(refusal(message));
    format!(in heap; "{kind} {command:02X}{data} at {place}{refused}")
}

// The line for received bytes.
pub fn describe(heap: Global, received: &[u8]) -> Result<String, AllocError>
    ensures { IfOk result (λ text. string_bytes text ≡ described_burst received.now) }
{
    match hear(received) {
        Ok(heard) => describe_heard(heap, heard),
        Err(nothing) => {
            let fault = nothing.fault.number();
            let place = nothing.place;
            format!(in heap; "fault {fault} at {place}")
        }
    }
}

// The line for a line of input.
pub fn answer(heap: Global, line: &[u8]) -> Result<String, AllocError>
    ensures { IfOk result (λ text. Answered line.now (string_bytes text)) }
{
    match hex_text::parse(heap, line) {
        Ok(received) => describe(heap, received.as_slice()),
        Err(HexFault::NotHex) => String::from_str(heap, "bad"),
        Err(HexFault::NoMemory) => Err(AllocError),
    }
}

// A line of input without the 0AH that ends it; the last line may have none.
pub fn without_end(line: &[u8]) -> &[u8]
    ensures { result.now ≡ without_end line.now }
{
    match line {
        [front @ .., b'\n'] => front,
        _ => line,
    }
}
