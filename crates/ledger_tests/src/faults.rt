// Each fault tells its own number, and prints it with a sentence.
use ledger::{LedgerFault, StartFault};
use ledger_script::{ALREADY_PROMISED, BAD_AMOUNT, NO_SUCH_HEAD, NONE_PROMISED};
use number::{Number, Numbered};
use std::test::Fail;

#[test]
fn faults_tell_their_numbers(rt: HostRuntime) -> Result<(), Fail> {
    let faults = [
        (NO_SUCH_HEAD, 21, "21: there is no such head"),
        (BAD_AMOUNT, 22, "22: the amount is not 1 to 255,000,000"),
        (ALREADY_PROMISED, 23, "23: an amount is promised already"),
        (
            LedgerFault::NoPlace(Number, 7),
            24,
            "24: no place is free, at depth 7",
        ),
        (NONE_PROMISED, 25, "25: no amount is promised"),
    ];
    for (fault, number, sentence) in faults {
        assert_eq!(rt; fault.number(), number);
        assert_eq!(rt; fault.to_string(rt.alloc())?.as_str(), sentence);
    }
    assert_eq!(rt; StartFault::AboveMost.number(), 26);
    assert_eq!(rt;
        StartFault::AboveMost.to_string(rt.alloc())?.as_str(),
        "26: a start is above 4,000"
    );
    Ok(())
}
