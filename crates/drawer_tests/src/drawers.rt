// The calls on a drawer, and the bytes after them.
use crate::images::*;
use drawer::Drawer;
use ledger::LedgerFault;
use ledger_calls::Call;
use ledger_script::{ALREADY_PROMISED, BAD_AMOUNT, NO_SUCH_HEAD, NONE_PROMISED, Step, asked, run};
use number::Number;

const NO_PLACE: LedgerFault = LedgerFault::NoPlace(Number, 0);

#[test]
fn calls_are_refused_in_order_and_change_nothing(rt: HostRuntime) {
    let before = image(&[promise(0, FIVE), settled(28, ONE), settled(35, ONE)]);
    let mut bytes = before;
    let mut drawer = Drawer::new(&mut bytes, BILLS);
    assert_eq!(rt;
        run(
            &mut drawer,
            &[
                Step(14, Call::Promise(0), Err(NO_SUCH_HEAD)),
                Step(0, Call::Promise(0), Err(BAD_AMOUNT)),
                Step(1, Call::Promise(255_000_001), Err(BAD_AMOUNT)),
                Step(0, Call::Promise(1), Err(ALREADY_PROMISED)),
                Step(1, Call::Promise(1), Err(NO_PLACE)),
                Step(14, Call::Settle, Err(NO_SUCH_HEAD)),
                Step(1, Call::Settle, Err(NONE_PROMISED)),
                Step(14, Call::GiveBack, Err(NO_SUCH_HEAD)),
                Step(1, Call::GiveBack, Err(NONE_PROMISED)),
            ]
        ),
        Ok(())
    );
    assert_eq!(rt; asked(&drawer, 0), (Ok(Some(5)), Ok(0), Ok(1)));
    assert_eq!(rt; asked(&drawer, 1), (Ok(None), Ok(2), Ok(0)));
    assert_eq!(rt;
        asked(&drawer, 14),
        (Err(NO_SUCH_HEAD), Err(NO_SUCH_HEAD), Err(NO_SUCH_HEAD))
    );
    assert_eq!(rt; bytes, before);
}

// Bills go into the fields of their section in order, and the last place can be promised and settled.
#[test]
fn bills_settle_into_the_first_free_field(rt: HostRuntime) {
    let mut bytes = image(&[]);
    let mut drawer = Drawer::new(&mut bytes, BILLS);
    assert_eq!(rt;
        run(
            &mut drawer,
            &[
                Step(13, Call::Promise(255_000_000), Ok(())),
                Step(13, Call::Settle, Ok(())),
                Step(13, Call::Promise(1), Ok(())),
                Step(13, Call::Settle, Ok(())),
                Step(13, Call::Promise(1), Err(NO_PLACE)),
                Step(0, Call::Promise(5), Ok(())),
            ]
        ),
        Ok(())
    );
    assert_eq!(rt; asked(&drawer, 13), (Ok(None), Ok(255_000_001), Ok(0)));
    assert_eq!(rt; asked(&drawer, 0), (Ok(Some(5)), Ok(0), Ok(1)));
    assert_eq!(rt;
        bytes,
        image(&[promise(0, FIVE), settled(280, MOST), settled(287, ONE)])
    );
}

#[test]
fn a_promise_given_back_leaves_the_bytes_as_they_were(rt: HostRuntime) {
    let mut bytes = image(&[settled(70, FIVE)]);
    let mut drawer = Drawer::new(&mut bytes, BILLS);
    assert_eq!(rt;
        run(
            &mut drawer,
            &[
                Step(3, Call::Promise(255_000_000), Ok(())),
                Step(3, Call::GiveBack, Ok(())),
                Step(3, Call::GiveBack, Err(NONE_PROMISED)),
            ]
        ),
        Ok(())
    );
    assert_eq!(rt; asked(&drawer, 3), (Ok(None), Ok(5), Ok(1)));
    assert_eq!(rt; bytes, image(&[settled(70, FIVE)]));
}

// A settled bill behind a free field: the whole image is refused.
#[test]
fn a_drawer_of_refused_bytes_holds_nothing(rt: HostRuntime) {
    let before = image(&[promise(21, FIVE), settled(77, ONE)]);
    let mut bytes = before;
    let mut drawer = Drawer::new(&mut bytes, BILLS);
    assert_eq!(rt; drawer.bills(), 0);
    assert_eq!(rt;
        run(
            &mut drawer,
            &[
                Step(1, Call::Settle, Err(NONE_PROMISED)),
                Step(1, Call::GiveBack, Err(NONE_PROMISED)),
                Step(0, Call::Promise(1), Err(NO_PLACE)),
            ]
        ),
        Ok(())
    );
    assert_eq!(rt; asked(&drawer, 1), (Ok(None), Ok(0), Ok(0)));
    assert_eq!(rt; bytes, before);
}
