// Frames: FCH, LNG, a command byte, 0 to 250 data bytes, and the check, low byte first. LNG counts all bytes.
#![tactic(auto)]

ghost use Rattle.std.specs.Prelude.{◌≡◌, length};
ghost use Rattle.frame.specs.Frames.{Exactly, WrittenReads, content, told, front_answer, read_answer, write_answer, buffer_after};

mod fault;

pub use fault::{FrameFault, WriteFault};

// The byte that starts each frame.
pub const SYNC: u8 = 0xfc;

// The most data bytes that a frame carries.
pub const MOST_DATA: usize = 250;

// The bytes of a frame besides its data: SYNC, LNG, the command and the two bytes of the check.
const OVERHEAD: usize = 5;

// A frame that was read: its command byte, and its data as a part of the bytes that it was read from.
#[derive(Clone, Copy, Debug, PartialEq, Eq)]
pub struct Frame<'a> {
    pub command: u8,
    pub data: &'a [u8],
}

// The frame at the start of the bytes.
fn front<'a>(bytes: &'a [u8]) -> Result<Frame<'a>, FrameFault>
    ensures { told result ≡ front_answer bytes.now }
{
    let [sync, length, command, _, _, ..] = bytes else {
        return Err(FrameFault::TooShort);
    };
    if *sync != SYNC {
        return Err(FrameFault::NoSync);
    }
    let total = usize::from(*length);
    if total < OVERHEAD {
        return Err(FrameFault::BadLength);
    }
    if bytes.len() < total {
        return Err(FrameFault::Incomplete);
    }
    let carried = u16::from_le_bytes([bytes[total - 2], bytes[total - 1]]);
    if frame_check::check(&bytes[..total - 2]) != carried {
        return Err(FrameFault::CheckDiffers);
    }
    Ok(Frame {
        command: *command,
        data: &bytes[3..total - 2],
    })
}

// Reads the frame at a place, which may be any, also past the end.
pub fn read<'a>(bytes: &'a [u8], place: usize) -> Result<Frame<'a>, FrameFault>
    ensures answer { told result ≡ read_answer bytes.now place }
    ensures exactly { Exactly bytes.now place (told result) }
{
    let rest = bytes.get(place..).ok_or(FrameFault::TooShort)?;
    front(rest)
}

// Writes a frame to the start of the buffer, whose rest stays, and tells its length.
//
// There is no heap, so a frame goes into the caller's buffer: the length says how much of it the frame takes, and the
// clauses speak of the whole buffer. Command and data come apart, since most callers have them so, as a constant
// and an empty slice.
pub fn write(command: u8, data: &[u8], buffer: &mut [u8]) -> Result<usize, WriteFault>
    ensures answer { result ≡ write_answer «data».now (length buffer.old) }
    ensures after { buffer.new ≡ buffer_after (content command «data».now) buffer.old result }
    ensures back { WrittenReads (content command «data».now) buffer.new result }
{
    if data.len() > MOST_DATA {
        return Err(WriteFault::DataTooLong);
    }
    let total = data.len() + OVERHEAD;
    if buffer.len() < total {
        return Err(WriteFault::BufferTooShort);
    }
    buffer[..3].copy_from_slice(&[SYNC, total as u8, command]);
    buffer[3..total - 2].copy_from_slice(data);
    let sum = frame_check::check(&buffer[..total - 2]);
    buffer[total - 2..total].copy_from_slice(&sum.to_le_bytes());
    Ok(total)
}
