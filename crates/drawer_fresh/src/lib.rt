// Fresh bytes for a drawer.
#![tactic(auto)]

ghost use Rattle.std.specs.Prelude.{◌≡◌, ℕ, ◌+◌, ◌*◌, ◌<◌, ◌≤◌, length, is_ok, slice_index, if◌then◌else◌, MatchResult};
ghost use Rattle.drawer_image.specs.Checks.{size_answer};
ghost use Rattle.drawer_fresh.specs.Fresh.{fresh_section, fresh_bytes, HoldsFresh};

use drawer_image::fault::DrawerFault;
use drawer_image::size::check_size;
use drawer_image::{FIELD, FREE_TAG, PROMISE_TAG};
use ledger::HEADS;

// The byte at a place of a section without a promise or a bill, of as many fields as reach that place: the tag of
// its field first, then the length 4, then the amount 0.
fn fresh_byte(place: usize) -> u8
    ensures { (k : ℕ) → place < 7 * (k + 1) → result ≡ slice_index (fresh_section k) place }
{
    match (place / FIELD, place % FIELD) {
        (0, 0) => PROMISE_TAG,
        (_, 0) => FREE_TAG,
        (_, 1) => 4,
        _ => 0,
    }
}

// Writes a section without a promise or a bill over these bytes.
fn put_section(section: &mut [u8])
    ensures { (k : ℕ) → length section.old ≡ 7 * (k + 1) → section.new ≡ fresh_section k }
{
    for (place, byte) in section.iter_mut().enumerate() {
        *byte = fresh_byte(place);
    }
}

// Makes bytes a drawer with so many fields for bills in each section, in which nothing is promised and every
// field is free. Where the check would refuse the number or the length, the bytes stay as they are.
pub fn write_fresh(bytes: &mut [u8], bills: u16) -> Result<(), DrawerFault>
    ensures answer { result ≡ size_answer (length bytes.old) bills }
    ensures bytes { bytes.new ≡ (if is_ok result then fresh_bytes bills else bytes.old) }
    ensures fresh { MatchResult result (λ _. HoldsFresh bytes.new bills) (λ _. bytes.new ≡ bytes.old) }
{
    check_size(bytes.len(), bills)?;
    let section = FIELD * (bills as usize + 1);
    let (first, others) = bytes.split_at_mut(section);
    put_section(first);
    // One section is written and copied over the others, as bytes are copied many at a time. The copies are told by
    // their places, as std says nothing of what the bytes hold after `chunks_exact_mut`.
    for other in 0..HEADS - 1 {
        others[section * other..section * (other + 1)].copy_from_slice(first);
    }
    Ok(())
}
