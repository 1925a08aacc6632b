ghost use Rattle.std.specs.Prelude.{◌≡◌, ℕ, ◌*◌, ◌/◌, ◌^◌, ◌<◌, length};
ghost use Rattle.ledger.specs.Answers.{its_number};
ghost use Rattle.drawer_image.specs.declared.fault.DrawerFault.TheVariants.{BadField};
ghost use Rattle.drawer_image.specs.Fields.{field_at, AreFields};

use crate::fault::DrawerFault;
use crate::{FIELD, FREE_TAG, PROMISE_TAG, SETTLED_TAG};
use ledger::MOST_AMOUNT;
use number::Number;

// What the bytes of a field say: a promise, of an amount or of none, a settled bill, or that it is free for one.
#[derive(Clone, Copy)]
pub enum Field {
    Promise(Option<u32>),
    Settled(u32),
    Free,
}

impl Field {
    // What seven bytes are as a field, if they are one.
    #[tactic(auto, unfolding(crate::specs::Fields::is_promise, crate::specs::Fields::is_settled, crate::specs::Fields::is_free))]
    pub fn read(bytes: [u8; FIELD]) -> Option<Field>
        ensures { result ≡ field_at bytes 0 }
    {
        let [tag, low, high, a, b, c, d] = bytes;
        if u16::from_le_bytes([low, high]) != 4 {
            return None;
        }
        // The tag first: a free field, as most are, is then told by one comparison of its amount.
        match (tag, u32::from_le_bytes([a, b, c, d])) {
            (FREE_TAG, 0) => Some(Field::Free),
            (SETTLED_TAG, amount @ 1..=MOST_AMOUNT) => Some(Field::Settled(amount)),
            (PROMISE_TAG, 0) => Some(Field::Promise(None)),
            (PROMISE_TAG, amount @ 1..=MOST_AMOUNT) => Some(Field::Promise(Some(amount))),
            _ => None,
        }
    }
}

// The fields of a drawer's bytes.
pub(crate) fn fields_of(bytes: &[u8]) -> &[[u8; FIELD]]
    ensures long { length result.now ≡ length bytes.now / 7 }
    ensures fields { AreFields result.now bytes.now 0 }
{
    let (fields, _) = bytes.as_chunks::<FIELD>();
    fields
}

// The refusal of a field, by its place.
pub(crate) fn bad_field(field: usize) -> DrawerFault
    requires { field < 2 ^ 32 }
    ensures { result ≡ BadField its_number (7 * field) }
{
    DrawerFault::BadField(Number, FIELD * field)
}
