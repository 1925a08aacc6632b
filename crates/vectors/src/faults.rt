// What the faults of the line tell: the number of the interface, and a sentence.
use codes::UnknownCode;
use frame::{FrameFault, WriteFault};
use number::Numbered;
use status::StatusFault;
use std::alloc::Global;
use std::fmt::Display;
use std::process::Abort;
use std::test::Fail;

// Each fault tells its number, and prints the number and its sentence.
fn tells<F: Numbered + Display>(
    rt: &impl Abort,
    heap: Global,
    cases: &[(F, u8, &str)],
) -> Result<(), Fail> {
    for (fault, number, sentence) in cases {
        assert_eq!(rt; fault.number(), *number);
        let printed = format!(in heap; "{fault}")?;
        let wanted = format!(in heap; "{number}: {sentence}")?;
        assert_eq!(rt; printed.as_str(), wanted.as_str());
    }
    Ok(())
}

#[test]
fn reading_faults_print_number_and_sentence(rt: HostRuntime) -> Result<(), Fail> {
    tells(
        &rt,
        rt.alloc(),
        &[
            (FrameFault::TooShort, 1, "fewer than 5 bytes are left"),
            (FrameFault::NoSync, 2, "the byte is not FC"),
            (FrameFault::BadLength, 3, "the length byte is under 5"),
            (
                FrameFault::Incomplete,
                4,
                "fewer bytes are left than the length byte counts",
            ),
            (FrameFault::CheckDiffers, 5, "the check differs"),
        ],
    )
}

#[test]
fn writing_faults_print_number_and_sentence(rt: HostRuntime) -> Result<(), Fail> {
    tells(
        &rt,
        rt.alloc(),
        &[
            (
                WriteFault::DataTooLong,
                6,
                "there are more than 250 data bytes",
            ),
            (
                WriteFault::BufferTooShort,
                7,
                "the buffer is too short for the frame",
            ),
        ],
    )
}

#[test]
fn status_faults_print_number_and_sentence(rt: HostRuntime) -> Result<(), Fail> {
    tells(
        &rt,
        rt.alloc(),
        &[
            (StatusFault::UnknownCode, 8, "the code is no status"),
            (
                StatusFault::WrongDataCount,
                9,
                "the status has another number of data bytes",
            ),
            (
                StatusFault::Complaint,
                10,
                "the head answers that it could not take what was sent",
            ),
        ],
    )
}

#[test]
fn an_unknown_code_prints_its_byte(rt: HostRuntime) -> Result<(), Fail> {
    let printed = format!(in rt.alloc(); "{}", UnknownCode(0x0a))?;
    assert_eq!(rt; printed.as_str(), "0A is no code of this kind");
    Ok(())
}
