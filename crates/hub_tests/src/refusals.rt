// What the refusals tell: number and sentence.
use crate::slots::SHEET;
use hub::{
    AdmissionRefusal, DismissalRefusal, FirstPass, FirstRefusal, FirstReport, Hub, Opening,
    OpeningRefusal, ReportRefusal,
};
use ledger::table::Table;
use number::Numbered;
use std::fmt;
use std::process::Abort;

// Sees that a refusal has this number and prints this sentence.
fn tells<R: Numbered + fmt::Display>(
    rt: &(impl Abort + AllocGlobal),
    refusal: &R,
    number: u8,
    sentence: &str,
) {
    assert_eq!(rt; refusal.number(), number);
    let Ok(text) = refusal.to_string(rt.alloc()) else {
        panic!(rt; "out of memory");
    };
    assert_eq!(rt; text.as_str(), sentence);
}

#[test]
fn refusals_print_number_and_sentence(rt: HostRuntime) {
    let admission = [
        (AdmissionRefusal::SlotOpen, 11, "11: a slot is open"),
        (
            AdmissionRefusal::NumberOver13,
            12,
            "12: head number over 13",
        ),
        (
            AdmissionRefusal::AdmittedAlready,
            13,
            "13: head admitted already",
        ),
        (AdmissionRefusal::SheetWrong, 14, "14: the sheet is wrong"),
        (
            AdmissionRefusal::Outnumbered,
            15,
            "15: heads would outnumber a limit",
        ),
    ];
    for (refusal, number, sentence) in admission {
        tells(&rt, &refusal, number, sentence);
    }
    let dismissal = [
        (DismissalRefusal::SlotOpen, 11, "11: a slot is open"),
        (
            DismissalRefusal::NumberOver13,
            12,
            "12: head number over 13",
        ),
        (DismissalRefusal::NotAdmitted, 16, "16: head not admitted"),
    ];
    for (refusal, number, sentence) in dismissal {
        tells(&rt, &refusal, number, sentence);
    }
    let opening = [
        (OpeningRefusal::SlotOpen, 11, "11: a slot is open"),
        (OpeningRefusal::NoHead, 17, "17: no head is admitted"),
        (
            OpeningRefusal::BufferTooShort,
            7,
            "7: the buffer is too short for the poll",
        ),
    ];
    for (refusal, number, sentence) in opening {
        tells(&rt, &refusal, number, sentence);
    }
}

// Opens a slot for head 0.
fn opened(rt: &impl Abort, hub: &mut Hub<Table>, buffer: &mut [u8]) -> FirstPass {
    match hub.open(0, buffer) {
        Ok(Opening { head: _, pass }) => pass,
        Err(refusal) => panic!(rt; "{refusal}"),
    }
}

// The refusal of a report, which tells this number and this sentence.
fn refused<T, R: Numbered + fmt::Display>(
    rt: &(impl Abort + AllocGlobal),
    answer: Result<T, R>,
    number: u8,
    sentence: &str,
) -> R {
    match answer {
        Ok(_) => panic!(rt; "the report is accepted"),
        Err(refusal) => {
            tells(rt, &refusal, number, sentence);
            refusal
        }
    }
}

const STALE: &str = "18: no first report is awaited with this pass";

const TOO_MUCH: &str = "19: more than 512 bytes were received";

const TOO_SHORT: &str = "7: the buffer is too short for a second frame";

const STALE_SECOND: &str = "18: no second report is awaited with this pass";

// With 19 and 7 the pass comes back, and with 18 it does not.
#[test]
fn refused_reports_print_number_and_sentence(rt: HostRuntime) {
    let mut hub = Hub::new(Table::new([4; 14]));
    assert_eq!(rt; hub.admit(0, &SHEET), Ok(()));
    let mut buffer = [0; 16];
    let pass = opened(&rt, &mut hub, &mut buffer);
    let refusal = refused(
        &rt,
        hub.first_report(pass, &[0; 513], &mut buffer),
        19,
        TOO_MUCH,
    );
    let FirstRefusal::TooMuchReceived(_, pass) = refusal else {
        panic!(rt; "the refusal is another");
    };
    let refusal = refused(&rt, hub.first_report(pass, &[], &mut [0; 6]), 7, TOO_SHORT);
    let FirstRefusal::BufferTooShort(_, pass) = refusal else {
        panic!(rt; "the refusal is another");
    };
    let refusal = refused(&rt, hub.cut_first_report(pass, &[0; 513], 0), 19, TOO_MUCH);
    let ReportRefusal::TooMuchReceived(_, pass) = refusal else {
        panic!(rt; "the refusal is another");
    };
    let pass = match hub.first_report(pass, &[], &mut buffer) {
        Ok(
            FirstReport {
                heard: _,
                taken: _,
                length: _,
                pass,
            },
        ) => pass,
        Err(refusal) => panic!(rt; "{refusal}"),
    };
    let refusal = refused(&rt, hub.second_report(pass, &[0; 513]), 19, TOO_MUCH);
    let ReportRefusal::TooMuchReceived(_, pass) = refusal else {
        panic!(rt; "the refusal is another");
    };
    hub.restart();
    let refusal = refused(&rt, hub.second_report(pass, &[]), 18, STALE_SECOND);
    let ReportRefusal::NoSuchSlot(_) = refusal else {
        panic!(rt; "the refusal is another");
    };
    assert_eq!(rt; hub.admit(0, &SHEET), Ok(()));
    let pass = opened(&rt, &mut hub, &mut buffer);
    hub.restart();
    let refusal = refused(&rt, hub.first_report(pass, &[], &mut buffer), 18, STALE);
    let FirstRefusal::NoSuchSlot(_) = refusal else {
        panic!(rt; "the refusal is another");
    };
    assert_eq!(rt; hub.admit(0, &SHEET), Ok(()));
    let pass = opened(&rt, &mut hub, &mut buffer);
    hub.restart();
    let refusal = refused(&rt, hub.cut_first_report(pass, &[], 0), 18, STALE);
    let ReportRefusal::NoSuchSlot(_) = refusal else {
        panic!(rt; "the refusal is another");
    };
}
