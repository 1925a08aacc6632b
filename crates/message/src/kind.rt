// A message by its kind.
ghost use Rattle.std.specs.Prelude.{◌≡◌};
ghost use Rattle.message.specs.Kinds.{Carries, message_content};

use codes::{SettingCode, StatusCode};
use frame::Frame;
use number::Number;

// Each kind with its code, and with its data as a part of the received bytes.
#[derive(Clone, Copy, Debug, PartialEq, Eq)]
pub enum Message<'a> {
    Status(StatusCode, &'a [u8]),
    Acknowledgement(Number<0x50>, &'a [u8]),
    Setting(SettingCode, &'a [u8]),
    Other(u8, &'a [u8]),
}

impl<'a> Message<'a> {
    pub fn command(self) -> u8
        ensures { result ≡ (message_content self.entry).command }
    {
        match self {
            Message::Status(code, _) => code.into(),
            Message::Acknowledgement(number, _) => number.value(),
            Message::Setting(code, _) => code.into(),
            Message::Other(command, _) => command,
        }
    }

    pub fn data(self) -> &'a [u8]
        ensures { result.now ≡ (message_content self.entry).«data» }
    {
        match self {
            Message::Status(_, data)
            | Message::Acknowledgement(_, data)
            | Message::Setting(_, data)
            | Message::Other(_, data) => data,
        }
    }
}

impl<'a> From<Frame<'a>> for Message<'a> {
    ghost from_gives = { Carries };

    fn from(frame: Frame<'a>) -> Message<'a> {
        let Frame { command, data } = frame;
        if let Ok(code) = StatusCode::try_from(command) {
            Message::Status(code, data)
        } else if command == 0x50 {
            Message::Acknowledgement(Number, data)
        } else if let Ok(code) = SettingCode::try_from(command) {
            Message::Setting(code, data)
        } else {
            Message::Other(command, data)
        }
    }
}
