// Every pair of a phase and a command.
use crate::ways::{WAYS, Way, bring};
use head::Phase::{
    Accepting, Disabled, Error, Escrow, Idle, Init, Rejecting, Returning, Stacked, Stacking,
    Storing, Up40, Up41, Up42, Vend,
};
use head::{ErrorCode, Head, Phase, ReceiveFault};
use number::{Number, Numbered};
use std::process::Abort;
use std::test::Fail;

// A phase, the code and the data of its status, and a mark for each command in the order 41H, 43H, 40H, 50H,
// C0H C1H C5H, C3H 01H, C3H 00H (see `outcome`).
#[derive(Clone, Copy)]
struct Row(Phase, u8, &'static [u8], &'static [u8; 7]);

const ROWS: [Row; 17] = [
    Row(Idle(Number), 0x11, &[], b"--i.ede"),
    Row(Accepting(Number, 0x62), 0x12, &[], b"--i.-je"),
    Row(Escrow(Number, 0x62), 0x13, &[0x62], b"sbi.-je"),
    Row(Stacking(Number, 0x62), 0x14, &[], b"--i.-ee"),
    Row(Vend(Number, 0x62), 0x15, &[], b"--ok-ee"),
    Row(Stacked(Number, 0x62), 0x16, &[], b"--o.-ee"),
    Row(Rejecting(Number, 0x71), 0x17, &[0x71], b"--i.-ee"),
    Row(Rejecting(Number, 0x79), 0x17, &[0x79], b"--i.-ee"),
    Row(Returning(Number), 0x18, &[], b"--i.-ee"),
    Row(Disabled(Number), 0x1a, &[], b"--i.eea"),
    Row(Init(Number), 0x1b, &[], b"--i.eee"),
    Row(Storing(Number, 0x62), 0x1b, &[], b"--o.eee"),
    Row(Up40(Number), 0x40, &[], b"--i.-ee"),
    Row(Up41(Number), 0x41, &[], b"--i.-ee"),
    Row(Up42(Number, 0x62), 0x42, &[], b"--o.-ee"),
    Row(Error(ErrorCode::StackerFull, 0x05), 0x43, &[], b"--i.-ee"),
    Row(Error(ErrorCode::Failure, 0x05), 0x49, &[0x05], b"--i.-ee"),
];

// A command byte and the data that goes with it.
type Message<'a> = (u8, &'a [u8]);

// The answer to a message, if any, and the phase after it, that a mark stands for. A letter for each, so that a row
// is read beside its row of docs/HEAD.md.
fn outcome<'a>(
    mark: u8,
    message: Message<'a>,
    phase: Phase,
) -> Result<(Option<Message<'a>>, Phase), Fail> {
    match mark {
        b'-' => Ok((Some((0x4b, &[])), phase)),
        b's' => Ok((Some((0x50, &[])), Stacking(Number, 0x62))),
        b'b' => Ok((Some((0x50, &[])), Returning(Number))),
        b'i' => Ok((Some((0x50, &[])), Init(Number))),
        b'o' => Ok((Some((0x50, &[])), Storing(Number, 0x62))),
        b'.' => Ok((None, phase)),
        b'k' => Ok((None, Stacked(Number, 0x62))),
        b'e' => Ok((Some(message), phase)),
        b'd' => Ok((Some(message), Disabled(Number))),
        b'a' => Ok((Some(message), Idle(Number))),
        b'j' => Ok((Some(message), Rejecting(Number, 0x79))),
        _ => Err(Fail::new("a mark that stands for nothing")),
    }
}

// Messages that get 4BH in every phase.
const UNKNOWN: [Message<'static>; 20] = [
    (0x11, &[0x00]),
    (0x40, &[0x00]),
    (0x41, &[0x00]),
    (0x43, &[0x00]),
    (0x50, &[0x00]),
    (0xc0, &[]),
    (0xc0, &[0x00]),
    (0xc0, &[0x00, 0x00, 0x00]),
    (0xc1, &[0x01]),
    (0xc1, &[]),
    (0xc5, &[0x00]),
    (0xc5, &[0x00, 0x00, 0x00]),
    (0xc3, &[]),
    (0xc3, &[0x02]),
    (0xc3, &[0xff]),
    (0xc3, &[0x00, 0x00]),
    (0xc3, &[0x01, 0x00]),
    (0x42, &[]),
    (0x13, &[0x62]),
    (0x00, &[]),
];

// The head goes the way and receives the message. The answer's bytes, the buffer's rest and the head after are
// compared with the mark.
fn pair(
    rt: &impl Abort,
    way: Way,
    message: Message,
    mark: u8,
    inhibited: bool,
) -> Result<(), Fail> {
    let (answer, phase) = outcome(mark, message, way.0)?;
    let mut wanted = [0xee; 9];
    let length = match answer {
        Some((code, data)) => frame::write(code, data, &mut wanted)?,
        None => 0,
    };
    let (command, data) = message;
    let mut head = bring(rt, way)?;
    let mut line = [0; 9];
    frame::write(command, data, &mut line)?;
    let mut buffer = [0xee; 9];
    assert_eq!(rt; head.receive(&line, &mut buffer), Ok(length));
    assert!(rt; buffer == wanted);
    assert_eq!(rt; head.phase(), phase);
    assert_eq!(rt; head.inhibited(), inhibited);
    Ok(())
}

// The head is asked for its status, which changes nothing.
fn tells(rt: &impl Abort, mut head: Head, code: u8, data: &[u8]) -> Result<(), Fail> {
    let mut wanted = [0xee; 9];
    let length = frame::write(code, data, &mut wanted)?;
    let asked = head;
    let mut buffer = [0xee; 9];
    assert_eq!(rt; head.receive(&POLL, &mut buffer), Ok(length));
    assert!(rt; buffer == wanted);
    assert_eq!(rt; head, asked);
    Ok(())
}

fn row_of(phase: Phase) -> Result<Row, Fail> {
    ROWS.iter()
        .find(|row| row.0 == phase)
        .copied()
        .ok_or_else(|| Fail::new("a phase without a row"))
}

fn row_holds(rt: &impl Abort, way: Way) -> Result<(), Fail> {
    let Way(phase, bit, _) = way;
    let Row(_, code, data, marks) = row_of(phase)?;
    tells(rt, bring(rt, way)?, code, data)?;
    let [stack, back, reset, acknowledge, setting, inhibit, permit] = *marks;
    pair(rt, way, (0x41, &[]), stack, bit)?;
    pair(rt, way, (0x43, &[]), back, bit)?;
    pair(rt, way, (0x40, &[]), reset, bit)?;
    pair(rt, way, (0x50, &[]), acknowledge, bit)?;
    pair(rt, way, (0xc0, &[0x83, 0x00]), setting, bit)?;
    pair(rt, way, (0xc1, &[0x00, 0x01]), setting, bit)?;
    pair(rt, way, (0xc5, &[0xff, 0x7f]), setting, bit)?;
    pair(rt, way, (0xc3, &[0x01]), inhibit, true)?;
    pair(rt, way, (0xc3, &[0x00]), permit, false)
}

#[test]
fn every_pair_of_phase_and_command(rt: HostRuntime) -> Result<(), Fail> {
    for way in &WAYS {
        row_holds(&rt, *way)?;
    }
    Ok(())
}

#[test]
fn all_else_is_answered_4b(rt: HostRuntime) -> Result<(), Fail> {
    for way in &WAYS {
        for message in &UNKNOWN {
            pair(&rt, *way, *message, b'-', way.1)?;
        }
    }
    Ok(())
}

// An error and its status.
const ERRORS: [(ErrorCode, u8, &'static [u8]); 7] = [
    (ErrorCode::StackerFull, 0x43, &[]),
    (ErrorCode::StackerOpen, 0x44, &[]),
    (ErrorCode::JamInAcceptor, 0x45, &[]),
    (ErrorCode::JamInStacker, 0x46, &[]),
    (ErrorCode::Pause, 0x47, &[]),
    (ErrorCode::Cheated, 0x48, &[]),
    (ErrorCode::Failure, 0x49, &[0xa7]),
];

#[test]
fn every_error_is_told(rt: HostRuntime) -> Result<(), Fail> {
    for (error, code, data) in &ERRORS {
        let mut head = bring(&rt, WAYS[0])?;
        head.make_move(Error(*error, 0xa7))?;
        tells(&rt, head, *code, *data)?;
    }
    Ok(())
}

// Bytes without a well-formed frame: none, noise, a poll with a wrong check, a poll cut short.
const NOISE: [&'static [u8]; 4] = [
    &[],
    &[0x00, 0x11, 0xfc],
    &[0xfc, 0x05, 0x11, 0x27, 0x57],
    &[0xfc, 0x05, 0x40, 0x2b],
];

#[test]
fn noise_has_no_answer(rt: HostRuntime) -> Result<(), Fail> {
    for way in &WAYS {
        for noise in &NOISE {
            let mut head = bring(&rt, *way)?;
            let mut buffer = [0xee; 7];
            assert_eq!(rt; head.receive(*noise, &mut buffer), Ok(0));
            assert!(rt; buffer == [0xee; 7]);
            assert_eq!(rt; head.phase(), way.0);
            assert_eq!(rt; head.inhibited(), way.1);
        }
    }
    Ok(())
}

// A status request, RESET, whose frame is also the status 40H, and ACK, which has no answer.
const POLL: [u8; 5] = [0xfc, 0x05, 0x11, 0x27, 0x56];

const RESET: [u8; 5] = [0xfc, 0x05, 0x40, 0x2b, 0x15];

const ACKNOWLEDGE: [u8; 5] = [0xfc, 0x05, 0x50, 0xaa, 0x05];

#[test]
fn six_bytes_of_buffer_are_too_few(rt: HostRuntime) {
    let mut head = Head::new();
    let mut buffer = [0xee; 6];
    let short = Err(ReceiveFault::BufferTooShort);
    assert_eq!(rt; ReceiveFault::BufferTooShort.number(), 7);
    assert_eq!(rt; head.receive(&RESET, &mut buffer), short);
    assert_eq!(rt; head.receive(&ACKNOWLEDGE, &mut buffer), short);
    assert_eq!(rt; head.receive(&[], &mut buffer), short);
    assert!(rt; buffer == [0xee; 6]);
    assert_eq!(rt; head.phase(), Up40(Number));
}

#[test]
fn a_poll_behind_noise_is_heard(rt: HostRuntime) {
    let mut head = Head::new();
    let mut buffer = [0xee; 7];
    let received = [
        0x00, 0xfc, 0xfc, 0x05, 0x11, 0x27, 0x56, 0xfc, 0x05, 0x50, 0xaa, 0x05,
    ];
    assert_eq!(rt; head.receive(&received, &mut buffer), Ok(5));
    assert!(rt; buffer == [0xfc, 0x05, 0x40, 0x2b, 0x15, 0xee, 0xee]);
    assert_eq!(rt; head.phase(), Up40(Number));
}
