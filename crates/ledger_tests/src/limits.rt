// The limit at its edges.
use layers::limit::Limit;
use ledger::LedgerFault;
use ledger::table::Table;
use ledger_calls::Call;
use ledger_script::{ALREADY_PROMISED, BAD_AMOUNT, NO_SUCH_HEAD, NONE_PROMISED, Step, asked, run};
use number::Number;

#[test]
fn a_limit_has_the_lesser_places(rt: HostRuntime) {
    let limit = Limit::new(
        [2, 9, 0, 4_000, 5, 5, 5, 5, 5, 5, 5, 5, 5, 5],
        Table::new([5; 14]),
    );
    assert_eq!(rt; asked(&limit, 0), (Ok(None), Ok(0), Ok(2)));
    assert_eq!(rt; asked(&limit, 1), (Ok(None), Ok(0), Ok(5)));
    assert_eq!(rt; asked(&limit, 2), (Ok(None), Ok(0), Ok(0)));
    assert_eq!(rt;
        asked(&limit, 14),
        (Err(NO_SUCH_HEAD), Err(NO_SUCH_HEAD), Err(NO_SUCH_HEAD))
    );
    assert_eq!(rt; limit.left(3), Ok(4_000));
    assert_eq!(rt; limit.left(13), Ok(5));
    assert_eq!(rt; limit.left(14), Err(NO_SUCH_HEAD));
}

#[test]
fn a_limit_of_refused_starts_has_nothing_left(rt: HostRuntime) {
    let mut limit = Limit::new(
        [5, 5, 5, 5, 5, 5, 5, 5, 5, 5, 5, 5, 5, 4_001],
        Table::new([5; 14]),
    );
    assert_eq!(rt;
        run(
            &mut limit,
            &[Step(0, Call::Promise(1), Err(LedgerFault::NoPlace(Number, 0)))]
        ),
        Ok(())
    );
    assert_eq!(rt; limit.left(0), Ok(0));
    assert_eq!(rt; limit.left(13), Ok(0));
    assert_eq!(rt; asked(&limit.into_below(), 0), (Ok(None), Ok(0), Ok(5)));
}

#[test]
fn a_promise_takes_one_and_a_give_back_returns_it(rt: HostRuntime) {
    let mut limit = Limit::new([2; 14], Table::new([5; 14]));
    assert_eq!(rt;
        run(&mut limit, &[Step(4, Call::Promise(7), Ok(()))]),
        Ok(())
    );
    assert_eq!(rt; limit.left(4), Ok(1));
    assert_eq!(rt; run(&mut limit, &[Step(4, Call::GiveBack, Ok(()))]), Ok(()));
    assert_eq!(rt; limit.left(4), Ok(2));
    assert_eq!(rt;
        run(
            &mut limit,
            &[
                Step(4, Call::Promise(7), Ok(())),
                Step(4, Call::Settle, Ok(())),
                Step(4, Call::GiveBack, Err(NONE_PROMISED)),
            ]
        ),
        Ok(())
    );
    assert_eq!(rt; limit.left(4), Ok(1));
    assert_eq!(rt; asked(&limit.into_below(), 4), (Ok(None), Ok(7), Ok(4)));
}

#[test]
fn earlier_refusals_come_before_the_own_count(rt: HostRuntime) {
    let mut table = Table::new([5; 14]);
    assert_eq!(rt;
        run(&mut table, &[Step(4, Call::Promise(7), Ok(()))]),
        Ok(())
    );
    assert_eq!(rt;
        run(
            &mut Limit::new([0; 14], table),
            &[
                Step(14, Call::Promise(0), Err(NO_SUCH_HEAD)),
                Step(4, Call::Promise(0), Err(BAD_AMOUNT)),
                Step(4, Call::Promise(255_000_001), Err(BAD_AMOUNT)),
                Step(4, Call::Promise(8), Err(ALREADY_PROMISED)),
                Step(
                    5,
                    Call::Promise(255_000_000),
                    Err(LedgerFault::NoPlace(Number, 0)),
                ),
                Step(5, Call::Settle, Err(NONE_PROMISED)),
                Step(14, Call::GiveBack, Err(NO_SUCH_HEAD)),
            ]
        ),
        Ok(())
    );
}

// The promise was there before the limit was made.
#[test]
fn giving_back_an_older_promise_frees_a_place(rt: HostRuntime) {
    let mut table = Table::new([4_000; 14]);
    assert_eq!(rt;
        run(&mut table, &[Step(6, Call::Promise(7), Ok(()))]),
        Ok(())
    );
    let mut limit = Limit::new([4_000; 14], table);
    assert_eq!(rt; asked(&limit, 6), (Ok(Some(7)), Ok(0), Ok(3_999)));
    assert_eq!(rt; run(&mut limit, &[Step(6, Call::GiveBack, Ok(()))]), Ok(()));
    assert_eq!(rt; asked(&limit, 6), (Ok(None), Ok(0), Ok(4_000)));
    assert_eq!(rt; limit.left(6), Ok(4_000));
}
