// What the program `audit` makes of its arguments, and what it prints.
use crate::images::*;
use audit_report::count::read_count;
use audit_report::report::report;
use std::test::Fail;

#[test]
fn a_count_is_decimal_digits_without_leading_zeros(rt: HostRuntime) {
    let counts: [(&str, Option<u16>); 14] = [
        ("", None),
        ("0", Some(0)),
        ("00", None),
        ("01", None),
        ("1", Some(1)),
        ("10", Some(10)),
        ("4000", Some(4000)),
        ("4001", Some(4001)),
        ("99999999999999999999999", Some(4001)),
        ("9999999999999999999999x", None),
        ("+1", None),
        ("1 ", None),
        (":", None),
        ("/", None),
    ];
    for (text, count) in counts {
        assert_eq!(rt; read_count(text.as_bytes()), count);
    }
}

#[test]
fn refusals_are_printed_with_their_numbers(rt: HostRuntime) -> Result<(), Fail> {
    assert_eq!(rt; report(rt.alloc(), &[], 0)?.as_str(), "refused 26\n");
    assert_eq!(rt; report(rt.alloc(), &[], 4001)?.as_str(), "refused 26\n");
    assert_eq!(rt;
        report(rt.alloc(), &image(&[]), 1)?.as_str(),
        "refused 27\n"
    );
    assert_eq!(rt;
        report(rt.alloc(), &image(&[promise(7, ONE)]), BILLS)?.as_str(),
        "refused 28 at 7\n"
    );
    Ok(())
}
