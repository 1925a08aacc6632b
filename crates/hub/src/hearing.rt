// What a first report hears, and what it tells of that.
ghost use Rattle.std.specs.Prelude.{◌≡◌, Result};
ghost use Rattle.std.specs.Option.{option_map};
ghost use Rattle.message.specs.Kinds.{message_content};
ghost use Rattle.message.specs.Heard.{told_heard};
ghost use Rattle.hub.specs.declared.report.ReportFault.{ReportFault as Fault};
ghost use Rattle.hub.specs.Reports.{by_head, said_in, status_of, taken_as, status_read, taken_by};

use crate::report::ReportFault;
use message::{Heard, Message, NothingHeard};
use reaction::HeadFault;
use status::{Status, StatusFault};

// The message heard, if any.
pub(crate) fn said<'a>(heard: Result<Heard<'a>, NothingHeard>) -> Option<Message<'a>>
    ensures { option_map message_content result ≡ said_in (told_heard heard.entry) }
{
    heard.ok().map(|heard| heard.message)
}

// The status heard, if any, or why the message heard is none.
pub(crate) fn status_heard<'a>(
    heard: Result<Heard<'a>, NothingHeard>,
) -> Result<Option<Status>, StatusFault>
    ensures status { status_read result ≡ status_of (said_in (told_heard heard.entry)) }
    ensures fault { (next : Result (Unit {0}) Fault) → taken_by result next ≡ taken_as (said_in (told_heard heard.entry)) next }
{
    said(heard)
        .map(|message| status::read(message.command(), message.data()))
        .transpose()
}

// Whether the hub took what the head said: the message must be a status, and a bill in escrow must be promised.
pub(crate) fn taken(
    status: Result<Option<Status>, StatusFault>,
    verdict: Result<(), HeadFault>,
) -> Result<(), ReportFault>
    ensures { result ≡ taken_by status (by_head verdict) }
{
    status?;
    verdict?;
    Ok(())
}
