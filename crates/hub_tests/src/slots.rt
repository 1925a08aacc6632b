// A head is set up, and its bills are promised, stacked, credited or returned, slot by slot.
ghost use Rattle.std.specs.Prelude.{◌≤◌};

use frame::write;
use hub::{FirstReport, Hub, Opening};
use ledger::Ledger;
use ledger::table::Table;
use sheet::{Draft, Pair};
use std::process::Abort;

const NONE: Pair = Pair {
    mantissa: 0,
    exponent: 0,
};

// Limit 1; the code 61H is worth 500.
pub(crate) const SHEET: Draft = Draft {
    limit: 1,
    denominations: [
        Pair {
            mantissa: 5,
            exponent: 2,
        },
        NONE,
        NONE,
        NONE,
        NONE,
        NONE,
        NONE,
        NONE,
    ],
    enable: 0xfe,
    security: 0,
    options: [0, 0],
};

// A message on the line: its command and its data.
#[derive(Clone, Copy)]
struct Said(u8, &'static [u8]);

// Puts a message's frame at the start of the line, and tells how long it is: 0 for silence, of which the line then has
// no byte.
fn say(rt: &impl Abort, said: Option<Said>, line: &mut [u8; 16]) -> usize
    ensures { result ≤ 16 }
{
    let Some(Said(command, data)) = said else {
        return 0;
    };
    let Ok(length) = write(command, data, line) else {
        panic!(rt; "the frame does not fit");
    };
    assert!(rt; length <= 16);
    length
}

// One slot of head 0, which answers `status` to the poll, is sent `second`, and answers `reply`.
fn slot(
    rt: &impl Abort,
    hub: &mut Hub<Table>,
    status: Option<Said>,
    second: Option<Said>,
    reply: Option<Said>,
) {
    let mut sent = [0; 16];
    let mut line = [0; 16];
    let opening = match hub.open(0, &mut sent) {
        Ok(opening) => opening,
        Err(refusal) => panic!(rt; "{refusal}"),
    };
    let Opening { head, pass } = opening;
    assert_eq!(rt; head, 0);
    let polled = say(rt, Some(Said(0x11, &[])), &mut line);
    assert_eq!(rt; &sent[0..5], &line[0..polled]);
    let received = say(rt, status, &mut line);
    let report = match hub.first_report(pass, &line[0..received], &mut sent) {
        Ok(report) => report,
        Err(refusal) => panic!(rt; "{refusal}"),
    };
    let FirstReport {
        heard: _,
        taken: _,
        length,
        pass,
    } = report;
    assert!(rt; length <= 16);
    let wanted = say(rt, second, &mut line);
    assert_eq!(rt; &sent[0..length], &line[0..wanted]);
    let received = say(rt, reply, &mut line);
    match hub.second_report(pass, &line[0..received]) {
        Ok(_) => {}
        Err(refusal) => panic!(rt; "{refusal}"),
    }
}

// Sets head 0 up, from its four settings to idle.
fn set_up(rt: &impl Abort, hub: &mut Hub<Table>) {
    assert_eq!(rt; hub.admit(0, &SHEET), Ok(()));
    let settings = [
        Said(0xc0, &[0xfe, 0x00]),
        Said(0xc1, &[0x00, 0x00]),
        Said(0xc5, &[0x00, 0x00]),
        Said(0xc3, &[0x00]),
    ];
    for setting in settings {
        slot(rt, hub, Some(Said(0x1a, &[])), Some(setting), Some(setting));
    }
}

// 500 is promised at 13H, the bill is stacked, and what ends the promise is `end`, answered by `reply`.
#[test]
fn a_bill_is_promised_stacked_and_credited(rt: HostRuntime) {
    let mut hub = Hub::new(Table::new([4; 14]));
    set_up(&rt, &mut hub);
    slot(&rt, &mut hub, Some(Said(0x11, &[])), None, None);
    slot(
        &rt,
        &mut hub,
        Some(Said(0x13, &[0x61])),
        Some(Said(0x41, &[])),
        Some(Said(0x50, &[])),
    );
    assert_eq!(rt; hub.ledger().promised(0), Ok(Some(500)));
    // the acknowledgement is lost once, and the bill is told again
    for _ in 0..2u8 {
        slot(
            &rt,
            &mut hub,
            Some(Said(0x15, &[])),
            Some(Said(0x50, &[])),
            None,
        );
    }
    assert_eq!(rt; hub.ledger().promised(0), Ok(None));
    assert_eq!(rt; hub.ledger().credited(0), Ok(500));
}

// The power fails with the bill on its way, and the head finds it in the box.
#[test]
fn a_bill_found_in_the_box_is_credited_once(rt: HostRuntime) {
    let mut hub = Hub::new(Table::new([4; 14]));
    set_up(&rt, &mut hub);
    slot(
        &rt,
        &mut hub,
        Some(Said(0x13, &[0x61])),
        Some(Said(0x41, &[])),
        Some(Said(0x50, &[])),
    );
    for _ in 0..2u8 {
        slot(
            &rt,
            &mut hub,
            Some(Said(0x42, &[])),
            Some(Said(0x40, &[])),
            Some(Said(0x50, &[])),
        );
    }
    slot(
        &rt,
        &mut hub,
        Some(Said(0x15, &[])),
        Some(Said(0x50, &[])),
        None,
    );
    assert_eq!(rt; hub.ledger().credited(0), Ok(500));
}

// A bill of an unassigned code goes back, and nothing is promised.
#[test]
fn an_unassigned_bill_is_returned(rt: HostRuntime) {
    let mut hub = Hub::new(Table::new([4; 14]));
    set_up(&rt, &mut hub);
    slot(
        &rt,
        &mut hub,
        Some(Said(0x13, &[0x62])),
        Some(Said(0x43, &[])),
        Some(Said(0x50, &[])),
    );
    assert_eq!(rt; hub.ledger().promised(0), Ok(None));
}
