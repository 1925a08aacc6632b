// The frames and the register trace that the text of ID-003 prints, and each refusal of the line at its edge.
use frame::{FrameFault, WriteFault};
use message::hear;
use number::Numbered;
use std::test::Fail;

const POLL: [u8; 5] = [0xfc, 0x05, 0x11, 0x27, 0x56];

const ACKNOWLEDGE: [u8; 5] = [0xfc, 0x05, 0x50, 0xaa, 0x05];

// The register after the first, the second and the third byte of a poll.
#[test]
fn register_trace(rt: HostRuntime) {
    assert_eq!(rt; frame_check::check(&POLL[0..1]), 0x3de3);
    assert_eq!(rt; frame_check::check(&POLL[0..2]), 0x8205);
    assert_eq!(rt; frame_check::check(&POLL[0..3]), 0x5627);
}

#[test]
fn printed_frames_are_written(rt: HostRuntime) {
    let mut buffer = [0xee; 7];
    assert_eq!(rt; frame::write(0x11, &[], &mut buffer), Ok(5));
    assert_eq!(rt; buffer, [0xfc, 0x05, 0x11, 0x27, 0x56, 0xee, 0xee]);
    assert_eq!(rt; frame::write(0x50, &[], &mut buffer), Ok(5));
    assert_eq!(rt; buffer, [0xfc, 0x05, 0x50, 0xaa, 0x05, 0xee, 0xee]);
}

fn command_at(bytes: &[u8], place: usize) -> Result<u8, FrameFault> {
    frame::read(bytes, place).map(|frame| frame.command)
}

#[test]
fn printed_frames_are_read(rt: HostRuntime) {
    assert_eq!(rt; command_at(&POLL, 0), Ok(0x11));
    assert_eq!(rt; command_at(&ACKNOWLEDGE, 0), Ok(0x50));
}

#[test]
fn reading_refuses_at_its_edges(rt: HostRuntime) {
    let cases: [(&[u8], usize, u8); 9] = [
        (&[], 0, 1),
        (&POLL, 1, 1),
        (&POLL, 5, 1),
        (&POLL, 6, 1),
        (&[0xfb, 0x05, 0x11, 0x27, 0x56], 0, 2),
        (&[0xfc, 0x04, 0x11, 0x27, 0x56], 0, 3),
        (&[0xfc, 0x06, 0x11, 0x27, 0x56], 0, 4),
        (&[0xfc, 0x05, 0x11, 0x27, 0x57], 0, 5),
        (&[0xfc, 0x05, 0x11, 0x26, 0x56], 0, 5),
    ];
    for (bytes, place, number) in cases {
        let refusal = command_at(bytes, place).map_err(|fault| fault.number());
        assert_eq!(rt; refusal, Err(number));
    }
}

#[test]
fn writing_refuses_at_its_edges(rt: HostRuntime) {
    let data = [0x41; 251];
    let mut buffer = [0; 255];
    assert_eq!(rt; frame::write(0x88, &data[0..250], &mut buffer), Ok(255));
    assert_eq!(rt; command_at(&buffer, 0), Ok(0x88));
    assert_eq!(rt;
        frame::write(0x88, &data[0..250], &mut buffer[0..254]),
        Err(WriteFault::BufferTooShort)
    );
    assert_eq!(rt;
        frame::write(0x88, &data, &mut []),
        Err(WriteFault::DataTooLong)
    );
    assert_eq!(rt;
        frame::write(0x88, &[], &mut buffer[0..4]),
        Err(WriteFault::BufferTooShort)
    );
}

#[test]
fn the_smallest_place_is_heard(rt: HostRuntime) -> Result<(), Fail> {
    let heard = hear(&[
        0x00, 0xfc, 0x05, 0x50, 0xaa, 0x05, 0xfc, 0x05, 0x11, 0x27, 0x56,
    ])
    .map_err(|_| Fail::new("nothing heard"))?;
    assert_eq!(rt; heard.place, 1);
    assert_eq!(rt; heard.message.command(), 0x50);
    Ok(())
}

// The code of a status with its number of data bytes, or the number of the refusal.
#[test]
fn statuses_read_or_refuse(rt: HostRuntime) {
    let cases: [(u8, &[u8], Result<u8, u8>); 14] = [
        (0x11, &[], Ok(0x11)),
        (0x11, &[0x00], Err(9)),
        (0x13, &[0x61], Ok(0x13)),
        (0x13, &[0x00], Ok(0x13)),
        (0x13, &[], Err(9)),
        (0x13, &[0x61, 0x62], Err(9)),
        (0x49, &[0xff], Ok(0x49)),
        (0x48, &[0xff], Err(9)),
        (0x19, &[], Err(8)),
        (0x4a, &[], Err(10)),
        (0x4b, &[], Err(10)),
        (0x4b, &[0x00], Err(9)),
        (0x4c, &[], Err(8)),
        (0x50, &[], Err(8)),
    ];
    for (code, data, wanted) in cases {
        let read = status::read(code, data)
            .map(|status| status.code())
            .map_err(|fault| fault.number());
        assert_eq!(rt; read, wanted);
    }
}
