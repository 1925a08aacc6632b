// The check, and the maker of fresh bytes.
use crate::images::*;
use drawer_fresh::write_fresh;
use drawer_image::check::check;
use drawer_image::fault::DrawerFault;
use drawer_image::section::{Section, section_of};
use number::{Number, Numbered};
use std::test::Fail;

// Each kind of field that its position does not allow, and its place.
#[test]
fn a_bad_field_is_refused_at_its_place(rt: HostRuntime) {
    let bad = [
        Field(0, 0x51, FOUR, NONE),
        Field(0, 0x43, FOUR, ONE),
        Field(0, 0x50, [3, 0], NONE),
        Field(21, 0x50, [4, 1], NONE),
        Field(21, 0x50, FOUR, ABOVE_MOST),
        Field(7, 0x50, FOUR, NONE),
        Field(7, 0x43, [5, 0], ONE),
        Field(7, 0x43, FOUR, NONE),
        Field(7, 0x43, FOUR, ABOVE_MOST),
        Field(7, 0x00, [0, 0], NONE),
        Field(7, 0x00, FOUR, ONE),
        Field(14, 0x00, FOUR, [0, 0, 0, 1]),
        Field(14, 0x43, FOUR, ONE),
        Field(287, 0x44, FOUR, NONE),
    ];
    for field in bad {
        assert_eq!(rt; check_of(&[field]), bad_field(field.0));
    }
}

#[test]
fn what_positions_allow_passes(rt: HostRuntime) {
    assert_eq!(rt; check_of(&[]), Ok(()));
    assert_eq!(rt; check_of(&[promise(0, ONE), promise(273, MOST)]), Ok(()));
    assert_eq!(rt; check_of(&[settled(7, ONE), settled(14, MOST)]), Ok(()));
}

// The earliest of several, and a bad field anywhere before a promise that has no free field.
#[test]
fn the_earliest_wrong_field_is_told(rt: HostRuntime) {
    let full = [
        promise(21, ONE),
        settled(28, ONE),
        settled(35, ONE),
        promise(42, ONE),
        settled(49, ONE),
        settled(56, ONE),
        Field(287, 0x01, FOUR, NONE),
        Field(280, 0x01, FOUR, NONE),
    ];
    assert_eq!(rt; check_of(&full[0..2]), Ok(()));
    assert_eq!(rt; check_of(&full[0..3]), bad_field(21));
    assert_eq!(rt; check_of(&full[3..6]), bad_field(42));
    assert_eq!(rt; check_of(&full[0..6]), bad_field(21));
    assert_eq!(rt; check_of(&full[0..7]), bad_field(287));
    assert_eq!(rt; check_of(&full[0..8]), bad_field(280));
}

// A count outside 1 to 4,000 comes before the length, and the length before the fields.
#[test]
fn count_and_length_come_first(rt: HostRuntime) -> Result<(), Fail> {
    let bytes = vec![in rt.alloc(); 0u8; 392_099]?;
    let sizes = [
        (0, 0, BAD_COUNT),
        (98, 0, BAD_COUNT),
        (0, 1, BAD_LENGTH),
        (195, 1, BAD_LENGTH),
        (196, 1, bad_field(0)),
        (197, 1, BAD_LENGTH),
        (392_097, 4000, BAD_LENGTH),
        (392_098, 4000, bad_field(0)),
        (392_099, 4000, BAD_LENGTH),
        (392_098, 4001, BAD_COUNT),
    ];
    for (length, bills, answer) in sizes {
        assert_eq!(rt;
            check(bytes.as_slice().get(0..length).unwrap_or(&[]), bills),
            answer
        );
    }
    Ok(())
}

#[test]
fn fresh_bytes_pass_and_hold_nothing(rt: HostRuntime) -> Result<(), Fail> {
    let mut least = [7; 196];
    assert_eq!(rt; write_fresh(&mut least, 1), Ok(()));
    assert_eq!(rt; check(&least, 1), Ok(()));
    assert_eq!(rt;
        section_of(&least, 1, 13),
        Section {
            promised: None,
            credited: 0,
            free: 1,
        }
    );
    let mut most = vec![in rt.alloc(); 7u8; 392_098]?;
    assert_eq!(rt; write_fresh(&mut most, 4000), Ok(()));
    assert_eq!(rt; check(most.as_slice(), 4000), Ok(()));
    assert_eq!(rt;
        section_of(most.as_slice(), 4000, 0),
        Section {
            promised: None,
            credited: 0,
            free: 4000,
        }
    );
    assert_eq!(rt;
        section_of(most.as_slice(), 4000, 14),
        Section {
            promised: None,
            credited: 0,
            free: 0,
        }
    );
    Ok(())
}

#[test]
fn what_is_refused_is_not_made_fresh(rt: HostRuntime) {
    let mut bytes = [7; 196];
    assert_eq!(rt; write_fresh(&mut bytes, 0), BAD_COUNT);
    assert_eq!(rt; write_fresh(&mut bytes, 4001), BAD_COUNT);
    assert_eq!(rt; write_fresh(&mut bytes, 2), BAD_LENGTH);
    assert_eq!(rt; write_fresh(&mut bytes[0..195], 1), BAD_LENGTH);
    assert_eq!(rt; bytes, [7; 196]);
}

#[test]
fn faults_tell_their_numbers(rt: HostRuntime) -> Result<(), Fail> {
    let faults = [
        (
            DrawerFault::BadCount(Number),
            26,
            "26: a section has 1 to 4,000 fields for bills",
        ),
        (
            DrawerFault::BadLength(Number),
            27,
            "27: the length is not that of fourteen sections",
        ),
        (
            DrawerFault::BadField(Number, 21),
            28,
            "28: the field at byte 21 is not allowed there, or is a promise without a free field",
        ),
    ];
    for (fault, number, sentence) in faults {
        assert_eq!(rt; fault.number(), number);
        assert_eq!(rt; fault.to_string(rt.alloc())?.as_str(), sentence);
    }
    Ok(())
}
