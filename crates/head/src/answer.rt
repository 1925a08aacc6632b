// A reply, written as a frame.
//
// There is no heap, so the frame goes into the caller's buffer, and its length tells how much of that it takes. Both
// functions require room for two data bytes: a reply has no more, and `receive` has tested the room.
ghost use Rattle.std.specs.Prelude.{◌≡◌, ◌≤◌, length, Some};
ghost use Rattle.frame.specs.Frames.{content};
ghost use Rattle.message.specs.Kinds.{message_content};
ghost use Rattle.head.specs.Answers.{EchoShort, reply_content, written};

use crate::command::Reply;
use message::Message;

// Writes a frame with at most two data bytes to the start of the buffer, whose rest stays, and tells its length. There is
// no heap, so the frame goes into the caller's buffer, and `receive` has refused with 7 one without room.
fn send(code: u8, data: &[u8], buffer: &mut [u8]) -> usize
    requires short { length «data».now ≤ 2 }
    requires room { 7 ≤ length buffer.old }
    ensures { (buffer.new, result) ≡ written (Some (content code «data».now)) buffer.old }
{
    frame::write(code, data, buffer).unwrap()
}

// Writes the reply to a message, and tells its length.
pub(crate) fn answer(reply: Reply, message: Message, buffer: &mut [u8]) -> usize
    requires short { EchoShort reply (message_content message) }
    requires room { 7 ≤ length buffer.old }
    ensures { (buffer.new, result) ≡ written (Some (reply_content reply (message_content message.entry))) buffer.old }
{
    match reply {
        Reply::Status(phase) => {
            send(
                phase.status_code(),
                phase.status_detail().as_slice(),
                buffer,
            )
        }
        Reply::Acknowledgement(code) => send(code.value(), &[], buffer),
        Reply::InvalidCommand(code) => send(code.value(), &[], buffer),
        Reply::Echo => send(message.command(), message.data(), buffer),
    }
}
