// What is heard in received bytes.
ghost use Rattle.std.specs.Prelude.{◌≡◌, drop};
ghost use Rattle.std.specs.Option.{option_map};
ghost use Rattle.std.specs.Result.{result_ok};
ghost use Rattle.frame.specs.Frames.{read_answer};
ghost use Rattle.message.specs.Heard.{EarliestSync, Hears, IsFirstHeard, fault_place, found_by, frame_here, hear_answer, heard_at, told_heard};

use crate::kind::Message;
use frame::FrameFault;

// A message, and the place in the received bytes where its frame begins.
#[derive(Clone, Copy, Debug, PartialEq, Eq)]
pub struct Heard<'a> {
    pub place: usize,
    pub message: Message<'a>,
}

// No well-formed frame stands in the bytes: why, and at which place.
#[derive(Clone, Copy, Debug, PartialEq, Eq)]
pub struct NothingHeard {
    pub place: usize,
    pub fault: FrameFault,
}

// The place whose fault is told: the earliest FCH, else the first place.
fn fault_place(received: &[u8]) -> usize
    ensures value { result ≡ fault_place received.now }
    ensures earliest { EarliestSync received.now result }
{
    received
        .iter()
        .position(|byte| *byte == frame::SYNC)
        .unwrap_or(0)
}

// What is heard at one place.
fn heard_at<'a>(received: &'a [u8], place: usize) -> Result<Heard<'a>, NothingHeard>
    ensures answer { told_heard result ≡ heard_at place (read_answer received.now place) }
    ensures frame { option_map found_by (result_ok result) ≡ frame_here place (drop place received.now) }
{
    match frame::read(received, place) {
        Ok(frame) => Ok(Heard {
            place,
            message: frame.into(),
        }),
        Err(fault) => Err(NothingHeard { place, fault }),
    }
}

// The message whose frame stands at the smallest place.
fn first_heard<'a>(received: &'a [u8]) -> Option<Heard<'a>>
    ensures { IsFirstHeard received.now (option_map found_by result) }
{
    (0..received.len()).find_map(|place| heard_at(received, place).ok())
}

// The message heard: the well-formed frame at the smallest place.
pub fn hear<'a>(received: &'a [u8]) -> Result<Heard<'a>, NothingHeard>
    ensures answer { told_heard result ≡ hear_answer received.now }
    ensures hears { Hears received.now (told_heard result) }
{
    match first_heard(received) {
        Some(heard) => Ok(heard),
        None => heard_at(received, fault_place(received)),
    }
}
