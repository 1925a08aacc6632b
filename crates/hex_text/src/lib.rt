// Bytes as text: two uppercase hexadecimal digits each, with one blank between.
#![tactic(auto)]

ghost use Rattle.std.specs.Prelude.{◌≡◌, ◌*◌, ◌<◌, ◌≤◌, [], ◌∷◌, length, take, IfOk, Some, string_bytes};
ghost use Rattle.std.specs.Str.{IsAscii};
ghost use Rattle.hex_text.specs.declared.HexFault.TheVariants.{NoMemory};
ghost use Rattle.hex_text.specs.Spelled.{DigitOf, ByteOf, Parsed, blanked, digit};

use std::alloc::{AllocError, AllocFailed, Global};
use std::{fmt, str};

#[derive(Clone, Copy, Debug, PartialEq, Eq)]
pub enum HexFault {
    NotHex,
    NoMemory,
}

// The two conversions are written out, since the clauses of `parse` name the error that `?` makes: a derived one
// promises nothing of it.
impl From<AllocError> for HexFault {
    ghost from_gives = { λ _ r. r ≡ NoMemory };

    fn from(_error: AllocError) -> HexFault {
        HexFault::NoMemory
    }
}

impl<T: Drop> From<AllocFailed<T>> for HexFault {
    ghost from_gives = { λ _ r. r ≡ NoMemory };

    fn from(_failed: AllocFailed<T>) -> HexFault {
        HexFault::NoMemory
    }
}

// The number that an uppercase digit stands for. The standard library's `to_digit(16)` takes small letters too.
fn digit_value(letter: u8) -> Option<u8>
    ensures { DigitOf letter result }
{
    match letter {
        b'0'..=b'9' => Some(letter - b'0'),
        b'A'..=b'F' => Some(letter - b'A' + 10),
        _ => None,
    }
}

// The byte that two uppercase digits spell.
fn byte_of(high: u8, low: u8) -> Option<u8>
    ensures { ByteOf (high ∷ low ∷ []) result }
{
    Some(16 * digit_value(high)? + digit_value(low)?)
}

// The bytes that a line of text spells: two digits, and then groups of a blank and two digits. A line of another length
// is refused before any memory is asked for.
pub fn parse(heap: Global, line: &[u8]) -> Result<Vec<u8>, HexFault>
    ensures { Parsed line.now result }
{
    let mut bytes = Vec::new(heap);
    if line.is_empty() {
        return Ok(bytes);
    }
    let ([high, low], groups) = line.as_rchunks::<3>() else {
        return Err(HexFault::NotHex);
    };
    let first = byte_of(*high, *low).ok_or(HexFault::NotHex)?;
    bytes.push(first)?;
    for group in groups {
        let [b' ', high, low] = group else {
            return Err(HexFault::NotHex);
        };
        let byte = byte_of(*high, *low).ok_or(HexFault::NotHex)?;
        bytes.push(byte)?;
    }
    Ok(bytes)
}

// Bytes that are printed with a blank before each.
#[derive(Clone, Copy, Debug)]
pub struct Blanked<'a>(pub &'a [u8]);

// The uppercase digit of a number below 16.
fn digit_of(number: u8) -> u8
    requires { number < 16 }
    ensures { result ≡ digit number }
{
    if number < 10 {
        b'0' + number
    } else {
        b'A' + (number - 10)
    }
}

// Lays a blank and two digits for each byte at the front of the text, and tells how much of it that takes.
fn lay(bytes: &[u8], text: &mut [u8; 96]) -> usize
    requires { length bytes.now ≤ 32 }
    ensures size { result ≡ 3 * length bytes.now }
    ensures laid { take (3 * length bytes.now) text.new ≡ blanked bytes.now }
    ensures ascii { IsAscii (blanked bytes.now) }
{
    let mut end = 0;
    for byte in bytes {
        text[end] = b' ';
        text[end + 1] = digit_of(*byte / 16);
        text[end + 2] = digit_of(*byte % 16);
        end += 3;
    }
    end
}

// Written out, since the clause of `spell_blanked` relies on what it prints, its `ghost output`. The bytes are laid and
// written many at a time: a formatter takes each piece of text by itself.
impl fmt::Display for Blanked<'_> {
    ghost output = { λ x. Some (blanked x.0.now) };

    fn fmt<W: fmt::Write>(&self, f: &mut fmt::Formatter<W>) -> fmt::Result {
        let mut text = [b' '; 96];
        for part in self.0.chunks(32) {
            let end = lay(part, &mut text);
            let Ok(laid) = str::from_utf8(&text[..end]) else {
                unreachable!();
            };
            f.write_str(laid)?;
        }
        Ok(())
    }
}

// The bytes as text, each with a blank before it.
pub fn spell_blanked(heap: Global, bytes: &[u8]) -> Result<String, AllocError>
    ensures { IfOk result (λ text. string_bytes text ≡ blanked bytes.now) }
{
    Blanked(bytes).to_string(heap)
}
