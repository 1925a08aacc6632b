// The tally counts what is settled, and nothing else.
use layers::tally::Tally;
use ledger::table::Table;
use ledger_calls::Call;
use ledger_script::{NO_SUCH_HEAD, NONE_PROMISED, Step, asked, run};

#[test]
fn a_tally_counts_settled_bills(rt: HostRuntime) {
    let mut tally = Tally::new(Table::new([3; 14]));
    assert_eq!(rt; tally.count(13), Ok(0));
    assert_eq!(rt; tally.latest(13), Ok(0));
    assert_eq!(rt;
        run(
            &mut tally,
            &[
                Step(13, Call::Promise(500), Ok(())),
                Step(13, Call::Settle, Ok(())),
                Step(13, Call::Promise(20), Ok(())),
                Step(13, Call::Settle, Ok(())),
            ]
        ),
        Ok(())
    );
    assert_eq!(rt; tally.count(13), Ok(2));
    assert_eq!(rt; tally.latest(13), Ok(20));
    assert_eq!(rt; tally.count(12), Ok(0));
    assert_eq!(rt; asked(&tally.into_below(), 13), (Ok(None), Ok(520), Ok(1)));
}

#[test]
fn what_is_given_back_or_refused_is_not_counted(rt: HostRuntime) {
    let mut tally = Tally::new(Table::new([1; 14]));
    assert_eq!(rt;
        run(
            &mut tally,
            &[
                Step(0, Call::Settle, Err(NONE_PROMISED)),
                Step(14, Call::Settle, Err(NO_SUCH_HEAD)),
                Step(0, Call::Promise(9), Ok(())),
                Step(0, Call::GiveBack, Ok(())),
            ]
        ),
        Ok(())
    );
    assert_eq!(rt; tally.count(0), Ok(0));
    assert_eq!(rt; tally.latest(0), Ok(0));
    assert_eq!(rt; tally.count(14), Err(NO_SUCH_HEAD));
    assert_eq!(rt; tally.latest(14), Err(NO_SUCH_HEAD));
    assert_eq!(rt; asked(&tally, 0), (Ok(None), Ok(0), Ok(1)));
}
