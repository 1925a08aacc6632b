// Calls made on a drawer, alone or at the bottom of a pile, and what its bytes are afterwards.
#![tactic(auto)]

ghost use Rattle.std.specs.Prelude.{◌≡◌, ℕ, ◌+◌, ◌<◌, ◌≤◌, false, is_ok, Ok};
ghost use Rattle.ledger_calls.specs.Calls.{after_all};
ghost use Rattle.ledger_calls.specs.Books.{journal, accepted_in};
ghost use Rattle.drawer_image.specs.Checks.{Passes, checked};
ghost use Rattle.drawer.specs.Meaning.{documented, made};
ghost use Rattle.drawer_calls.specs.Piles.{pile_held};

use drawer::Drawer;
use drawer_image::check::check;
use drawer_image::fault::DrawerFault;
use layers::limit::Limit;
use layers::tally::Tally;
use ledger::HEADS;
use ledger_calls::{HeadCall, make_calls};

// Makes calls in order on the drawer in bytes, refused ones included. Bytes that pass the check pass it
// afterwards, and what they are documented to hold is what the calls make of what they held. Bytes that are
// refused stay as they are.
pub fn make_calls_on_drawer(bytes: &mut [u8], bills: u16, calls: &[HeadCall])
    ensures passes { Passes bytes.old bills → Passes bytes.new bills }
    ensures held { Passes bytes.old bills → documented bytes.new bills ≡ after_all (documented bytes.old bills) calls.now }
    ensures refused { is_ok (checked bytes.old bills) ≡ false → bytes.new ≡ bytes.old }
{
    let mut drawer = Drawer::new(bytes, bills);
    let _ = make_calls(&mut drawer, calls);
}

// Makes calls in order on a limit over a tally over the drawer in bytes, refused ones included. Tells how many
// were accepted, and what the check says of the bytes afterwards: that they pass, if they did before.
pub fn make_calls_on_pile(
    bytes: &mut [u8],
    bills: u16,
    starts: [u16; HEADS],
    calls: &[HeadCall],
) -> (usize, Result<(), DrawerFault>)
    ensures accepted { result.0 ≡ accepted_in (journal (pile_held starts (made bytes.old bills)) calls.now) }
    ensures passes { Passes bytes.old bills → result.1 ≡ Ok tt }
    ensures refused { is_ok (checked bytes.old bills) ≡ false → result.1 ≡ checked bytes.old bills }
{
    let mut pile = Limit::new(starts, Tally::new(Drawer::new(bytes, bills)));
    let accepted = make_calls(&mut pile, calls);
    let drawer = pile.into_below().into_below();
    (accepted, check(drawer.bytes(), bills))
}
