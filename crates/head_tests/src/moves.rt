// Every own move from every phase: to the phases that are listed, and to no other.
use crate::ways::{WAYS, Way, bring};
use head::Phase::{
    Accepting, Disabled, Error, Escrow, Idle, Init, Rejecting, Returning, Stacked, Stacking,
    Storing, Up40, Up41, Up42, Vend,
};
use head::{ErrorCode, MoveFault, Phase};
use number::{Number, Numbered};
use std::process::Abort;
use std::test::Fail;

// The phases to move to, in the order of the marks. A head holds the bill 62H where it holds one.
const TARGETS: [Phase; 26] = [
    Idle(Number),
    Disabled(Number),
    Accepting(Number, 0x60),
    Accepting(Number, 0x61),
    Accepting(Number, 0x68),
    Accepting(Number, 0x69),
    Escrow(Number, 0x62),
    Escrow(Number, 0x63),
    Stacking(Number, 0x62),
    Vend(Number, 0x62),
    Vend(Number, 0x63),
    Stacked(Number, 0x62),
    Rejecting(Number, 0x70),
    Rejecting(Number, 0x71),
    Rejecting(Number, 0x7f),
    Rejecting(Number, 0x80),
    Returning(Number),
    Init(Number),
    Storing(Number, 0x62),
    Error(ErrorCode::StackerFull, 0x00),
    Error(ErrorCode::Cheated, 0xff),
    Error(ErrorCode::Failure, 0x05),
    Up40(Number),
    Up41(Number),
    Up42(Number, 0x62),
    Up42(Number, 0x63),
];

// A mark for each target, a letter so that a row is one line: '.' it is refused, 'm' the head moves, 't' it moves and
// takes the bill, 'c' its power is cut, 'C' its power is cut and it takes the bill. The bars only part the groups of
// targets:
//  Idle Disabled | Accepting | Escrow | Stacking | Vend | Stacked | Rejecting | Returning | Init | Storing | Error | Up
struct Row(Phase, bool, &'static [u8]);

const ROWS: [Row; 27] = [
    Row(
        Idle(Number),
        false,
        b"..|.mm.|..|.|..|.|....|.|.|.|mmm|c...",
    ),
    Row(
        Accepting(Number, 0x62),
        false,
        b"..|....|m.|.|..|.|.mm.|.|.|.|...|cc..",
    ),
    Row(
        Escrow(Number, 0x62),
        false,
        b"..|....|..|.|..|.|.mm.|.|.|.|...|.c..",
    ),
    Row(
        Stacking(Number, 0x62),
        false,
        b"..|....|..|.|t.|.|.mm.|.|.|.|...|.cC.",
    ),
    Row(
        Stacking(Number, 0x62),
        true,
        b"..|....|..|.|t.|.|.mm.|.|.|.|...|.cC.",
    ),
    Row(
        Vend(Number, 0x62),
        false,
        b"..|....|..|.|..|.|....|.|.|.|...|..c.",
    ),
    Row(
        Vend(Number, 0x62),
        true,
        b"..|....|..|.|..|.|....|.|.|.|...|..c.",
    ),
    Row(
        Stacked(Number, 0x62),
        false,
        b"m.|....|..|.|..|.|....|.|.|.|mmm|c.c.",
    ),
    Row(
        Stacked(Number, 0x62),
        true,
        b".m|....|..|.|..|.|....|.|.|.|mmm|c.c.",
    ),
    Row(
        Rejecting(Number, 0x71),
        false,
        b"m.|....|..|.|..|.|....|.|.|.|mmm|cc..",
    ),
    Row(
        Rejecting(Number, 0x79),
        true,
        b".m|....|..|.|..|.|....|.|.|.|mmm|cc..",
    ),
    Row(
        Returning(Number),
        false,
        b"m.|....|..|.|..|.|....|.|.|.|mmm|cc..",
    ),
    Row(
        Returning(Number),
        true,
        b".m|....|..|.|..|.|....|.|.|.|mmm|cc..",
    ),
    Row(
        Disabled(Number),
        true,
        b"..|....|..|.|..|.|....|.|.|.|mmm|c...",
    ),
    Row(
        Init(Number),
        false,
        b"m.|....|..|.|..|.|....|.|.|.|...|c...",
    ),
    Row(Init(Number), true, b".m|....|..|.|..|.|....|.|.|.|...|c..."),
    Row(
        Storing(Number, 0x62),
        false,
        b"m.|....|..|.|m.|.|....|.|.|.|...|c.c.",
    ),
    Row(
        Storing(Number, 0x62),
        true,
        b".m|....|..|.|m.|.|....|.|.|.|...|c.c.",
    ),
    Row(
        Up40(Number),
        false,
        b"..|....|..|.|..|.|....|.|.|.|...|c...",
    ),
    Row(Up40(Number), true, b"..|....|..|.|..|.|....|.|.|.|...|c..."),
    Row(Up41(Number), true, b"..|....|..|.|..|.|....|.|.|.|...|.c.."),
    Row(
        Up41(Number),
        false,
        b"..|....|..|.|..|.|....|.|.|.|...|.c..",
    ),
    Row(
        Up42(Number, 0x62),
        true,
        b"..|....|..|.|..|.|....|.|.|.|...|..c.",
    ),
    Row(
        Up42(Number, 0x62),
        false,
        b"..|....|..|.|..|.|....|.|.|.|...|..c.",
    ),
    Row(
        Error(ErrorCode::StackerFull, 0x05),
        false,
        b"..|....|..|.|..|.|....|.|m|.|...|c...",
    ),
    Row(
        Error(ErrorCode::Failure, 0x05),
        false,
        b"..|....|..|.|..|.|....|.|m|.|...|c...",
    ),
    Row(
        Error(ErrorCode::Failure, 0x05),
        true,
        b"..|....|..|.|..|.|....|.|m|.|...|c...",
    ),
];

fn marks_of(phase: Phase, inhibited: bool) -> Result<&'static [u8], Fail> {
    ROWS.iter()
        .find(|Row(from, bit, _)| *from == phase && *bit == inhibited)
        .map(|row| row.2)
        .ok_or_else(|| Fail::new("a phase without a row"))
}

// The head goes the way and moves. The answer and the head after are compared with the mark.
fn own_move(rt: &impl Abort, way: Way, to: Phase, mark: u8) -> Result<(), Fail> {
    let Way(from, bit, _) = way;
    let (wanted, phase, inhibited) = match mark {
        b'm' => (Ok(false), to, bit),
        b't' => (Ok(true), to, bit),
        b'c' => (Ok(false), to, true),
        b'C' => (Ok(true), to, true),
        b'.' => (Err(MoveFault::NotListed), from, bit),
        _ => return Err(Fail::new("a mark that stands for nothing")),
    };
    let mut head = bring(rt, way)?;
    assert_eq!(rt; head.make_move(to), wanted);
    assert_eq!(rt; head.phase(), phase);
    assert_eq!(rt; head.inhibited(), inhibited);
    Ok(())
}

fn row_holds(rt: &impl Abort, way: Way) -> Result<(), Fail> {
    let Way(phase, inhibited, _) = way;
    let marks = marks_of(phase, inhibited)?
        .iter()
        .filter(|mark| **mark != b'|');
    assert_eq!(rt; marks.clone()?.count(), TARGETS.len());
    for (mark, to) in marks.zip(&TARGETS) {
        own_move(rt, way, *to, *mark)?;
    }
    Ok(())
}

#[test]
fn every_own_move(rt: HostRuntime) -> Result<(), Fail> {
    assert_eq!(rt; MoveFault::NotListed.number(), 20);
    for way in &WAYS {
        row_holds(&rt, *way)?;
    }
    Ok(())
}
