// How a head is brought into each phase, from its start.
use head::Phase::{
    Accepting, Disabled, Error, Escrow, Idle, Init, Rejecting, Returning, Stacked, Stacking,
    Storing, Up40, Up41, Up42, Vend,
};
use head::{ErrorCode, Head, Phase};
use number::Number;
use std::process::Abort;
use std::test::Fail;

// A phase, an inhibit bit, and the steps that lead there from the start (see `take`), a letter each, so that a way is
// one line and shows which way it prolongs. A head holds the bill 62H where it holds one.
#[derive(Clone, Copy)]
pub struct Way(pub Phase, pub bool, pub &'static [u8]);

// All phases, each with every inhibit bit that a head can have in it.
pub const WAYS: [Way; 27] = [
    Way(Idle(Number), false, b"rpi"),
    Way(Accepting(Number, 0x62), false, b"rpia"),
    Way(Escrow(Number, 0x62), false, b"rpiae"),
    Way(Stacking(Number, 0x62), false, b"rpiaes"),
    Way(Stacking(Number, 0x62), true, b"rpiaesn"),
    Way(Vend(Number, 0x62), false, b"rpiaesv"),
    Way(Vend(Number, 0x62), true, b"rpiaesvn"),
    Way(Stacked(Number, 0x62), false, b"rpiaesvk"),
    Way(Stacked(Number, 0x62), true, b"rpiaesvkn"),
    Way(Rejecting(Number, 0x71), false, b"rpiaj"),
    Way(Rejecting(Number, 0x79), true, b"rpiaen"),
    Way(Returning(Number), false, b"rpiaeb"),
    Way(Returning(Number), true, b"rpiaebn"),
    Way(Disabled(Number), true, b"rd"),
    Way(Init(Number), false, b"rp"),
    Way(Init(Number), true, b"r"),
    Way(Storing(Number, 0x62), false, b"rpiaesvr"),
    Way(Storing(Number, 0x62), true, b"rpiaesvrn"),
    Way(Up40(Number), true, b""),
    Way(Up40(Number), false, b"p"),
    Way(Up41(Number), true, b"rpiae1"),
    Way(Up41(Number), false, b"rpiae1p"),
    Way(Up42(Number, 0x62), true, b"rpiaes2"),
    Way(Up42(Number, 0x62), false, b"rpiaes2p"),
    Way(Error(ErrorCode::StackerFull, 0x05), false, b"rpif"),
    Way(Error(ErrorCode::Failure, 0x05), false, b"rpig"),
    Way(Error(ErrorCode::Failure, 0x05), true, b"rdg"),
];

// The head receives a message; its answer is let go.
fn hears(head: &mut Head, command: u8, data: &[u8]) -> Result<(), Fail> {
    let mut line = [0; 7];
    frame::write(command, data, &mut line)?;
    head.receive(&line, &mut [0; 7])?;
    Ok(())
}

fn moves(head: &mut Head, to: Phase) -> Result<(), Fail> {
    head.make_move(to)?;
    Ok(())
}

// Takes a step: it hears a command, or makes an own move.
fn take(head: &mut Head, step: u8) -> Result<(), Fail> {
    match step {
        b'r' => hears(head, 0x40, &[]),
        b's' => hears(head, 0x41, &[]),
        b'b' => hears(head, 0x43, &[]),
        b'k' => hears(head, 0x50, &[]),
        b'p' => hears(head, 0xc3, &[0x00]),
        b'n' => hears(head, 0xc3, &[0x01]),
        b'i' => moves(head, Idle(Number)),
        b'd' => moves(head, Disabled(Number)),
        b'a' => moves(head, Accepting(Number, 0x62)),
        b'e' => moves(head, Escrow(Number, 0x62)),
        b'j' => moves(head, Rejecting(Number, 0x71)),
        b'v' => moves(head, Vend(Number, 0x62)),
        b'1' => moves(head, Up41(Number)),
        b'2' => moves(head, Up42(Number, 0x62)),
        b'f' => moves(head, Error(ErrorCode::StackerFull, 0x05)),
        b'g' => moves(head, Error(ErrorCode::Failure, 0x05)),
        _ => Err(Fail::new("a step that is none")),
    }
}

// A head that went the way.
pub fn bring(rt: &impl Abort, way: Way) -> Result<Head, Fail> {
    let Way(phase, inhibited, steps) = way;
    let mut head = Head::new();
    for step in steps {
        take(&mut head, *step)?;
    }
    assert_eq!(rt; head.phase(), phase);
    assert_eq!(rt; head.inhibited(), inhibited);
    Ok(head)
}
