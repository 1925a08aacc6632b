// The table of reactions.
ghost use Rattle.std.specs.Prelude.{◌≡◌};
ghost use Rattle.reaction.specs.Reactions.{reaction_to, status_content};

use crate::fault::HeadFault;
use crate::reaction::{Reaction, Reply};
use crate::setup::Setup;
use ledger_calls::Call::{GiveBack, Settle};
use status::Status;

// The table of reactions, by the code of the status and what the bill in escrow is worth, if anything. The first
// cause that applies returns the bill. The form is settled (docs/DECISIONS.md): one match over the codes of the status,
// with ranges, and with guards on sheet and settings, so that each arm is a row of the table in docs/HUB.md.
pub fn react(setup: &Setup, status: Status) -> Reaction
    ensures { result ≡ reaction_to setup.now (status_content status) }
{
    let bill = status.detail();
    let value = bill.and_then(|bill| setup.sheet.value(bill));
    let enabled = bill.is_some_and(|bill| setup.sheet.is_enabled(bill));
    let (ending, reply) = match (status.code(), value) {
        (0x11 | 0x1a, _) => (Some(GiveBack), Reply::NextSetting),
        (0x12 | 0x17 | 0x18, _) => (Some(GiveBack), Reply::Nothing),
        (0x1b, _) => (None, Reply::NextSetting),
        (0x13, _) if setup.next_setting().is_some() => (
            Some(GiveBack),
            Reply::Return(HeadFault::Settings),
        ),
        (0x13, None) => (Some(GiveBack), Reply::Return(HeadFault::Value)),
        (0x13, Some(_)) if !enabled => (Some(GiveBack), Reply::Return(HeadFault::Disabled)),
        (0x13, Some(value)) => (Some(GiveBack), Reply::Stack(value)),
        (0x15, _) => (Some(Settle), Reply::Acknowledge),
        (0x40 | 0x41, _) => (Some(GiveBack), Reply::Reset),
        (0x42, _) => (Some(Settle), Reply::Reset),
        (0x14 | 0x16 | 0x43..=0x49, _) => (None, Reply::Nothing),
        // No other byte is a status' code.
        _ => (None, Reply::Nothing),
    };
    Reaction { ending, reply }
}
