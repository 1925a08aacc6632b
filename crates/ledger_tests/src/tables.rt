// The table at its edges.
use ledger::starts::check_starts;
use ledger::table::Table;
use ledger::{LedgerFault, StartFault};
use ledger_calls::Call;
use ledger_script::{ALREADY_PROMISED, BAD_AMOUNT, NO_SUCH_HEAD, NONE_PROMISED, Step, asked, run};
use number::Number;

#[test]
fn starts_stop_at_4000(rt: HostRuntime) {
    assert_eq!(rt; check_starts(&[4_000; 14]), Ok(()));
    assert_eq!(rt;
        check_starts(&[0, 0, 0, 0, 0, 0, 0, 0, 0, 0, 0, 0, 0, 4_001]),
        Err(StartFault::AboveMost)
    );
    assert_eq!(rt;
        check_starts(&[4_001, 0, 0, 0, 0, 0, 0, 0, 0, 0, 0, 0, 0, 0]),
        Err(StartFault::AboveMost)
    );
}

#[test]
fn a_table_starts_with_its_places(rt: HostRuntime) {
    let table = Table::new([4_000, 1, 2, 3, 4, 5, 6, 7, 8, 9, 10, 11, 12, 13]);
    assert_eq!(rt; asked(&table, 0), (Ok(None), Ok(0), Ok(4_000)));
    assert_eq!(rt; asked(&table, 1), (Ok(None), Ok(0), Ok(1)));
    assert_eq!(rt; asked(&table, 13), (Ok(None), Ok(0), Ok(13)));
}

#[test]
fn a_table_of_refused_starts_holds_nothing(rt: HostRuntime) {
    let mut table = Table::new([1, 1, 1, 1, 1, 1, 1, 4_001, 1, 1, 1, 1, 1, 1]);
    assert_eq!(rt;
        run(
            &mut table,
            &[Step(0, Call::Promise(1), Err(LedgerFault::NoPlace(Number, 0)))]
        ),
        Ok(())
    );
    assert_eq!(rt; asked(&table, 0), (Ok(None), Ok(0), Ok(0)));
    assert_eq!(rt; asked(&table, 7), (Ok(None), Ok(0), Ok(0)));
    assert_eq!(rt; asked(&table, 13), (Ok(None), Ok(0), Ok(0)));
}

#[test]
fn heads_end_at_13(rt: HostRuntime) {
    let mut table = Table::new([2; 14]);
    assert_eq!(rt;
        run(
            &mut table,
            &[
                Step(13, Call::Promise(5), Ok(())),
                Step(14, Call::Promise(5), Err(NO_SUCH_HEAD)),
                Step(14, Call::Settle, Err(NO_SUCH_HEAD)),
                Step(255, Call::GiveBack, Err(NO_SUCH_HEAD)),
            ]
        ),
        Ok(())
    );
    assert_eq!(rt;
        asked(&table, 14),
        (Err(NO_SUCH_HEAD), Err(NO_SUCH_HEAD), Err(NO_SUCH_HEAD))
    );
    assert_eq!(rt; asked(&table, 13), (Ok(Some(5)), Ok(0), Ok(1)));
}

#[test]
fn amounts_are_1_to_255_million(rt: HostRuntime) {
    let mut table = Table::new([2; 14]);
    assert_eq!(rt;
        run(
            &mut table,
            &[
                Step(0, Call::Promise(0), Err(BAD_AMOUNT)),
                Step(0, Call::Promise(255_000_001), Err(BAD_AMOUNT)),
                Step(0, Call::Promise(1), Ok(())),
                Step(1, Call::Promise(255_000_000), Ok(())),
            ]
        ),
        Ok(())
    );
    assert_eq!(rt; asked(&table, 0), (Ok(Some(1)), Ok(0), Ok(1)));
    assert_eq!(rt; asked(&table, 1), (Ok(Some(255_000_000)), Ok(0), Ok(1)));
}

// Each refused call meets the conditions of later refusals as well.
#[test]
fn refusals_come_in_order(rt: HostRuntime) {
    assert_eq!(rt;
        run(
            &mut Table::new([1; 14]),
            &[
                Step(2, Call::Promise(5), Ok(())),
                Step(14, Call::Promise(0), Err(NO_SUCH_HEAD)),
                Step(2, Call::Promise(0), Err(BAD_AMOUNT)),
                Step(2, Call::Promise(6), Err(ALREADY_PROMISED)),
                Step(2, Call::Settle, Ok(())),
                Step(2, Call::Promise(0), Err(BAD_AMOUNT)),
                Step(2, Call::Promise(6), Err(LedgerFault::NoPlace(Number, 0))),
            ]
        ),
        Ok(())
    );
}

#[test]
fn settling_credits_what_was_promised(rt: HostRuntime) {
    let mut table = Table::new([2; 14]);
    assert_eq!(rt;
        run(
            &mut table,
            &[
                Step(3, Call::Settle, Err(NONE_PROMISED)),
                Step(3, Call::Promise(500), Ok(())),
                Step(3, Call::Settle, Ok(())),
                Step(3, Call::Settle, Err(NONE_PROMISED)),
            ]
        ),
        Ok(())
    );
    assert_eq!(rt; asked(&table, 3), (Ok(None), Ok(500), Ok(1)));
    assert_eq!(rt; asked(&table, 4), (Ok(None), Ok(0), Ok(2)));
}

#[test]
fn giving_back_frees_the_place(rt: HostRuntime) {
    let mut table = Table::new([1; 14]);
    assert_eq!(rt;
        run(
            &mut table,
            &[
                Step(3, Call::GiveBack, Err(NONE_PROMISED)),
                Step(3, Call::Promise(500), Ok(())),
                Step(3, Call::GiveBack, Ok(())),
                Step(3, Call::GiveBack, Err(NONE_PROMISED)),
            ]
        ),
        Ok(())
    );
    assert_eq!(rt; asked(&table, 3), (Ok(None), Ok(0), Ok(1)));
}
