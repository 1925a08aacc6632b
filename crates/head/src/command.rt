// What a head is told to do, and how it replies.
ghost use Rattle.std.specs.Prelude.{◌≡◌};
ghost use Rattle.frame.specs.Frames.{content};
ghost use Rattle.head.specs.Commands.{command_of};

use crate::phase::Phase;
use number::Number;

// A command as a head takes it, by the command byte and the data of a message.
#[derive(Clone, Copy)]
pub(crate) enum Command {
    // 11H, no data
    StatusRequest,
    // 41H, no data
    Stack,
    // 43H, no data
    Return,
    // 40H, no data
    Reset,
    // 50H, no data
    Acknowledge,
    // C0H, C1H or C5H, two data bytes
    Configure,
    // C3H, 01H
    Inhibit,
    // C3H, 00H
    Permit,
    // all else
    Unknown,
}

impl Command {
    // The command byte and the data come apart, as the one match over both wants them.
    pub(crate) fn read(code: u8, data: &[u8]) -> Command
        ensures { result ≡ command_of (content code «data».now) }
    {
        match (code, data) {
            (0x11, []) => Self::StatusRequest,
            (0x40, []) => Self::Reset,
            (0x41, []) => Self::Stack,
            (0x43, []) => Self::Return,
            (0x50, []) => Self::Acknowledge,
            (0xc0 | 0xc1 | 0xc5, [_, _]) => Self::Configure,
            (0xc3, [0x01]) => Self::Inhibit,
            (0xc3, [0x00]) => Self::Permit,
            _ => Self::Unknown,
        }
    }
}

// How a head replies.
#[derive(Clone, Copy)]
pub(crate) enum Reply {
    // the status of a phase
    Status(Phase),
    Acknowledgement(Number<0x50>),
    InvalidCommand(Number<0x4b>),
    // what was heard, as it was heard
    Echo,
}
