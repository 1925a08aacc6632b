// The second frame of a slot.
ghost use Rattle.std.specs.Prelude.{◌≡◌, ◌≤◌, length};
ghost use Rattle.reaction.specs.Frames.{SevenSuffice, buffer_with, frame_content, frame_message, room_answer, second_frame, sent_setting, setting_sent};

use crate::fault::HeadFault;
use crate::reaction::Reply;
use crate::setup::Setup;
use frame::WriteFault;
use number::Number;
use sheet::Setting;

// What the hub sends after it has heard a head, each command with its byte.
#[derive(Clone, Copy, Debug, PartialEq, Eq)]
pub enum SecondFrame {
    Setting(Setting),
    // STACK-1
    Stack(Number<0x41>),
    Return(Number<0x43>),
    Reset(Number<0x40>),
    Acknowledge(Number<0x50>),
}

impl Reply {
    // The frame that the reply comes to, if any, where the verdict tells why a bill in escrow is returned, if it is.
    pub fn second_frame(&self, setup: &Setup, verdict: Result<(), HeadFault>) -> Option<SecondFrame>
        ensures frame { frame_content result ≡ second_frame setup.now self.now verdict }
        ensures setting { sent_setting result ≡ setting_sent setup.now self.now }
    {
        match (self, verdict) {
            (Reply::Nothing, _) => None,
            (Reply::NextSetting, _) => setup.next_setting().map(SecondFrame::Setting),
            (Reply::Stack(_), Ok(())) => Some(SecondFrame::Stack(Number)),
            (Reply::Stack(_), Err(_)) => Some(SecondFrame::Return(Number)),
            (Reply::Return(_), _) => Some(SecondFrame::Return(Number)),
            (Reply::Acknowledge, _) => Some(SecondFrame::Acknowledge(Number)),
            (Reply::Reset, _) => Some(SecondFrame::Reset(Number)),
        }
    }
}

impl SecondFrame {
    // An arm for each case, since each code is a type of its own.
    fn command(&self) -> u8
        ensures { result ≡ (frame_message self.now).command }
    {
        match self {
            SecondFrame::Setting(setting) => setting.command(),
            SecondFrame::Stack(code) => code.value(),
            SecondFrame::Return(code) => code.value(),
            SecondFrame::Reset(code) => code.value(),
            SecondFrame::Acknowledge(code) => code.value(),
        }
    }

    // Only a setting has any.
    fn data(&self) -> &[u8]
        ensures bytes { result.now ≡ (frame_message self.now).«data» }
        ensures few { length result.now ≤ 2 }
    {
        match self {
            SecondFrame::Setting(setting) => setting.data(),
            _ => &[],
        }
    }

    // Writes the frame to the start of the caller's buffer, since there is no heap; its rest stays. Tells the frame's
    // length. It is refused where the frame does not fit; seven bytes are enough for any.
    pub fn write(&self, buffer: &mut [u8]) -> Result<usize, WriteFault>
        ensures answer { result ≡ room_answer (Some (frame_message self.now)) (length buffer.old) }
        ensures after { buffer.new ≡ buffer_with (Some (frame_message self.now)) buffer.old result }
        ensures seven { SevenSuffice (Some (frame_message self.now)) buffer.old result buffer.new }
    {
        frame::write(self.command(), self.data(), buffer)
    }

    // Writes a second frame that there may be none of: for none the buffer stays as it is, and the length is 0, so that
    // whoever puts that many bytes of the buffer on the line puts none. Of a frame it is `write`.
    pub fn write_if_any(frame: &Option<SecondFrame>, buffer: &mut [u8]) -> Result<usize, WriteFault>
        ensures answer { result ≡ room_answer (frame_content frame.now) (length buffer.old) }
        ensures after { buffer.new ≡ buffer_with (frame_content frame.now) buffer.old result }
        ensures seven { SevenSuffice (frame_content frame.now) buffer.old result buffer.new }
    {
        // No `map_or`: of a buffer that a closure changes nothing would be known afterwards.
        match frame {
            Some(frame) => frame.write(buffer),
            None => Ok(0),
        }
    }
}
