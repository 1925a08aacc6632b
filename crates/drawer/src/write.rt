// Writing into the fields of a drawer.
ghost use Rattle.std.specs.Prelude.{◌≡◌, ℕ, ◌+◌, ◌*◌, ◌≤◌, length};
ghost use Rattle.drawer.specs.Writes.{put_amount, put_settled};

use drawer_image::{FIELD, SETTLED_TAG};

// Writes the amount of a field.
pub fn put_amount(bytes: &mut [u8], field: usize, amount: u32)
    requires { 7 * field + 7 ≤ length bytes.old }
    ensures { bytes.new ≡ put_amount bytes.old field amount }
{
    let at = FIELD * field + 3;
    bytes[at..at + 4].copy_from_slice(&amount.to_le_bytes());
}

// Makes a free field a settled bill. Its length is 4 already.
pub fn put_settled(bytes: &mut [u8], field: usize, amount: u32)
    requires { 7 * field + 7 ≤ length bytes.old }
    ensures { bytes.new ≡ put_settled bytes.old field amount }
{
    bytes[FIELD * field] = SETTLED_TAG;
    put_amount(bytes, field, amount);
}
