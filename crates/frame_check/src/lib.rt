// The check of a frame: a register of 16 bits over the bytes, low bit first, a byte at a time by a table.
#![tactic(auto)]

ghost use Rattle.std.specs.Prelude.{◌≡◌};
ghost use Rattle.frame_check.specs.Register.{byte_step, check_of};

mod table;

use table::entry;

// The register after one more byte.
#[tactic(auto, using(crate::proofs::Linear::by_table_of_bytes))]
fn step(register: u16, byte: u8) -> u16
    ensures { result ≡ byte_step register byte }
{
    let [low, high] = (register ^ u16::from(byte)).to_le_bytes();
    u16::from(high) ^ entry(low)
}

// The check of the bytes: what a frame carries of all bytes before it. It is this loop over the bytes, folding the
// register, as docs/FRAMES.md tells it.
pub fn check(bytes: &[u8]) -> u16
    ensures { result ≡ check_of bytes.now }
{
    let mut register = 0;
    for byte in bytes {
        register = step(register, *byte);
    }
    register
}
