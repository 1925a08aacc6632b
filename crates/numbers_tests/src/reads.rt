// What is read of numbers and words, and the promises of `read` at the types of numbers.
ghost use Rattle.std.specs.Prelude.{◌^◌, ◌<◌, decimal};
ghost use Rattle.numbers.specs.Texts.{Spelled};

use numbers::{read, read_capped, read_number, split_before};

// What is promised of a type comes out in the words of its numbers.
fn read_u8(text: &[u8]) -> Option<u8>
    ensures { Spelled (λ n. n < 256) decimal text.now result }
{
    read(text)
}

fn read_u16(text: &[u8]) -> Option<u16>
    ensures { Spelled (λ n. n < 65536) decimal text.now result }
{
    read(text)
}

fn read_u64(text: &[u8]) -> Option<u64>
    ensures { Spelled (λ n. n < 2 ^ 32) decimal text.now result }
{
    read(text)
}

#[test]
fn a_number_is_decimal_digits_without_leading_zeros(rt: HostRuntime) {
    let numbers: [(&str, Option<u32>); 12] = [
        ("", None),
        ("0", Some(0)),
        ("00", None),
        ("01", None),
        ("7", Some(7)),
        ("10", Some(10)),
        ("1000", Some(1000)),
        ("1001", None),
        ("+1", None),
        ("1 ", None),
        (":", None),
        ("/", None),
    ];
    for (text, number) in numbers {
        assert_eq!(rt; read_number(text.as_bytes(), 1000), number);
    }
}

#[test]
fn the_largest_number_of_a_type_is_read(rt: HostRuntime) {
    assert_eq!(rt; read_u8(b"255"), Some(255));
    assert_eq!(rt; read_u8(b"256"), None);
    assert_eq!(rt; read_u16(b"65535"), Some(65535));
    assert_eq!(rt; read_u16(b"65536"), None);
    assert_eq!(rt; read_u64(b"4294967295"), Some(4_294_967_295));
    assert_eq!(rt; read_u64(b"4294967296"), None);
    assert_eq!(rt; read_number(b"4294967295", u32::MAX), Some(4_294_967_295));
    assert_eq!(rt; read_number(b"4294967296", u32::MAX), None);
}

#[test]
fn a_larger_number_is_told_as_the_cap(rt: HostRuntime) {
    assert_eq!(rt; read_capped(b"99", 100), Some(99));
    assert_eq!(rt; read_capped(b"100", 100), Some(100));
    assert_eq!(rt; read_capped(b"101", 100), Some(100));
    assert_eq!(rt; read_capped(b"99999999999999999999999", 100), Some(100));
    assert_eq!(rt; read_capped(b"9999999999999999999999x", 100), None);
    assert_eq!(rt;
        read_capped(b"18446744073709551615", u64::MAX),
        Some(u64::MAX)
    );
    assert_eq!(rt;
        read_capped(b"18446744073709551616", u64::MAX),
        Some(u64::MAX)
    );
    assert_eq!(rt; read_capped(b"1", 0), Some(0));
}

#[test]
fn a_text_is_cut_before_the_first_mark(rt: HostRuntime) {
    let cuts: [(&[u8], &[u8], &[u8]); 5] = [
        (b"ab cd ef", b"ab", b" cd ef"),
        (b" ab", b"", b" ab"),
        (b"ab ", b"ab", b" "),
        (b"ab", b"ab", b""),
        (b"", b"", b""),
    ];
    for (text, front, rest) in cuts {
        let (before, after) = split_before(text, b' ');
        assert_eq!(rt; before, front);
        assert_eq!(rt; after, rest);
    }
}
