// Calls in order, on a table and through a pile.
use layers::limit::Limit;
use layers::tally::Tally;
use ledger::table::Table;
use ledger_calls::{Call, HeadCall, make_calls};
use ledger_script::asked;

const CALLS: [HeadCall; 8] = [
    HeadCall {
        head: 3,
        call: Call::Promise(500),
    },
    HeadCall {
        head: 3,
        call: Call::Settle,
    },
    HeadCall {
        head: 3,
        call: Call::Settle,
    },
    HeadCall {
        head: 14,
        call: Call::Promise(1),
    },
    HeadCall {
        head: 3,
        call: Call::Promise(20),
    },
    HeadCall {
        head: 4,
        call: Call::Promise(7),
    },
    HeadCall {
        head: 3,
        call: Call::GiveBack,
    },
    HeadCall {
        head: 3,
        call: Call::Promise(0),
    },
];

#[test]
fn calls_come_to_what_was_settled(rt: HostRuntime) {
    let mut table = Table::new([2; 14]);
    assert_eq!(rt; make_calls(&mut table, &CALLS), 5);
    assert_eq!(rt; asked(&table, 3), (Ok(None), Ok(500), Ok(1)));
    assert_eq!(rt; asked(&table, 4), (Ok(Some(7)), Ok(0), Ok(1)));
}

// The limit's one promise for head 3 is spent when the second is asked for, so its give-back is refused as well.
#[test]
fn calls_through_a_pile_stop_at_its_limit(rt: HostRuntime) {
    let mut pile = Limit::new([1; 14], Tally::new(Table::new([2; 14])));
    assert_eq!(rt; make_calls(&mut pile, &CALLS), 3);
    assert_eq!(rt; asked(&pile, 3), (Ok(None), Ok(500), Ok(0)));
    assert_eq!(rt; asked(&pile, 4), (Ok(Some(7)), Ok(0), Ok(0)));
}
