// Layers over layers: the depth with 24 says which of them has no place left.
use layers::limit::Limit;
use layers::tally::Tally;
use ledger::LedgerFault;
use ledger::table::Table;
use ledger_calls::Call;
use ledger_script::{ALREADY_PROMISED, Step, asked, run};
use number::Number;

// The limit's own count is spent first for head 0, the table's places for head 1; neither has any for head 2.
#[test]
fn depths_through_a_limit_over_a_tally_over_a_table(rt: HostRuntime) {
    let own = [1, 2, 0, 2, 2, 2, 2, 2, 2, 2, 2, 2, 2, 2];
    let places = [1, 1, 0, 1, 1, 1, 1, 1, 1, 1, 1, 1, 1, 1];
    let mut pile = Limit::new(own, Tally::new(Table::new(places)));
    assert_eq!(rt;
        run(
            &mut pile,
            &[
                Step(0, Call::Promise(5), Ok(())),
                Step(0, Call::Settle, Ok(())),
                Step(0, Call::Promise(5), Err(LedgerFault::NoPlace(Number, 0))),
                Step(1, Call::Promise(6), Ok(())),
                Step(1, Call::Settle, Ok(())),
                Step(1, Call::Promise(6), Err(LedgerFault::NoPlace(Number, 2))),
                Step(2, Call::Promise(6), Err(LedgerFault::NoPlace(Number, 0))),
            ]
        ),
        Ok(())
    );
    assert_eq!(rt; pile.left(1), Ok(1));
    let tally = pile.into_below();
    assert_eq!(rt; tally.count(1), Ok(1));
    assert_eq!(rt; tally.latest(1), Ok(6));
    assert_eq!(rt; tally.count(2), Ok(0));
    assert_eq!(rt; asked(&tally.into_below(), 1), (Ok(None), Ok(6), Ok(0)));
}

// The upper limit has nothing left for head 0, the lower one for head 1, the table no place for head 2.
#[test]
fn depths_through_a_tally_over_two_limits(rt: HostRuntime) {
    let upper = [0, 2, 2, 2, 2, 2, 2, 2, 2, 2, 2, 2, 2, 2];
    let lower = [2, 0, 2, 2, 2, 2, 2, 2, 2, 2, 2, 2, 2, 2];
    let places = [2, 2, 0, 2, 2, 2, 2, 2, 2, 2, 2, 2, 2, 2];
    let mut pile = Tally::new(Limit::new(upper, Limit::new(lower, Table::new(places))));
    assert_eq!(rt;
        run(
            &mut pile,
            &[
                Step(0, Call::Promise(5), Err(LedgerFault::NoPlace(Number, 1))),
                Step(1, Call::Promise(5), Err(LedgerFault::NoPlace(Number, 2))),
                Step(2, Call::Promise(5), Err(LedgerFault::NoPlace(Number, 3))),
                Step(3, Call::Promise(5), Ok(())),
                Step(3, Call::Promise(5), Err(ALREADY_PROMISED)),
                Step(3, Call::Settle, Ok(())),
            ]
        ),
        Ok(())
    );
    assert_eq!(rt; pile.count(3), Ok(1));
    let limits = pile.into_below();
    assert_eq!(rt; limits.left(3), Ok(1));
    assert_eq!(rt; limits.into_below().left(3), Ok(1));
}
