// A limit over a tally over a drawer, and the audit of the bytes afterwards.
use crate::images::*;
use audit_report::report::report;
use drawer::Drawer;
use drawer_calls::{make_calls_on_drawer, make_calls_on_pile};
use layers::limit::Limit;
use layers::tally::Tally;
use ledger::LedgerFault;
use ledger_calls::{Call, HeadCall};
use ledger_script::{ALREADY_PROMISED, NO_SUCH_HEAD, Step, asked, run};
use number::Number;
use std::test::Fail;

// Head 0 fills its two fields below a limit of three, head 1 spends its limit of one.
#[test]
fn a_pile_over_a_drawer_leaves_bytes_that_pass(rt: HostRuntime) -> Result<(), Fail> {
    let mut bytes = image(&[]);
    let mut starts = [0; 14];
    starts[0] = 3;
    starts[1] = 1;
    let mut pile = Limit::new(starts, Tally::new(Drawer::new(&mut bytes, BILLS)));
    assert_eq!(rt;
        run(
            &mut pile,
            &[
                Step(0, Call::Promise(100), Ok(())),
                Step(0, Call::Settle, Ok(())),
                Step(0, Call::Promise(50), Ok(())),
                Step(0, Call::Settle, Ok(())),
                Step(0, Call::Promise(1), Err(LedgerFault::NoPlace(Number, 2))),
                Step(1, Call::Promise(7), Ok(())),
                Step(1, Call::GiveBack, Ok(())),
                Step(1, Call::Promise(8), Ok(())),
                Step(1, Call::Promise(9), Err(ALREADY_PROMISED)),
                Step(2, Call::Promise(1), Err(LedgerFault::NoPlace(Number, 0))),
                Step(14, Call::Settle, Err(NO_SUCH_HEAD)),
            ]
        ),
        Ok(())
    );
    assert_eq!(rt; asked(&pile, 0), (Ok(None), Ok(150), Ok(0)));
    assert_eq!(rt; asked(&pile, 1), (Ok(Some(8)), Ok(0), Ok(0)));
    assert_eq!(rt; pile.left(0), Ok(1));
    let tally = pile.into_below();
    assert_eq!(rt; tally.count(0), Ok(2));
    assert_eq!(rt; tally.latest(0), Ok(50));
    let drawer = tally.into_below();
    let text = report(rt.alloc(), drawer.bytes(), BILLS)?;
    assert_eq!(rt;
        text.as_str(),
        "head 0 promised 0 credited 150 places 0\nhead 1 promised 8 credited 0 places 1\nhead 2 promised 0 credited 0 places 2\nhead 3 promised 0 credited 0 places 2\nhead 4 promised 0 credited 0 places 2\nhead 5 promised 0 credited 0 places 2\nhead 6 promised 0 credited 0 places 2\nhead 7 promised 0 credited 0 places 2\nhead 8 promised 0 credited 0 places 2\nhead 9 promised 0 credited 0 places 2\nhead 10 promised 0 credited 0 places 2\nhead 11 promised 0 credited 0 places 2\nhead 12 promised 0 credited 0 places 2\nhead 13 promised 0 credited 0 places 2\n"
    );
    Ok(())
}

const CALLS: [HeadCall; 6] = [
    HeadCall {
        head: 0,
        call: Call::Promise(5),
    },
    HeadCall {
        head: 0,
        call: Call::Settle,
    },
    HeadCall {
        head: 0,
        call: Call::Settle,
    },
    HeadCall {
        head: 0,
        call: Call::Promise(1),
    },
    HeadCall {
        head: 14,
        call: Call::Settle,
    },
    HeadCall {
        head: 13,
        call: Call::Promise(5),
    },
];

#[test]
fn lists_of_calls_leave_what_they_say(rt: HostRuntime) {
    let mut bytes = image(&[]);
    make_calls_on_drawer(&mut bytes, BILLS, &CALLS);
    assert_eq!(rt;
        bytes,
        image(&[promise(0, ONE), settled(7, FIVE), promise(273, FIVE)])
    );
    let mut bytes = image(&[]);
    assert_eq!(rt;
        make_calls_on_pile(&mut bytes, BILLS, [1; 14], &CALLS),
        (3, Ok(()))
    );
    assert_eq!(rt; bytes, image(&[settled(7, FIVE), promise(273, FIVE)]));
    let mut bytes = image(&[promise(7, ONE)]);
    assert_eq!(rt;
        make_calls_on_pile(&mut bytes, BILLS, [1; 14], &CALLS),
        (0, bad_field(7))
    );
    assert_eq!(rt; bytes, image(&[promise(7, ONE)]));
}
