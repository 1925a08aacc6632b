// Decimal numbers and words in a line of text.
#![tactic(auto)]

ghost use Rattle.std.specs.Prelude.{◌≡◌, ℕ, ◌+◌, ◌-◌, ◌*◌, ◌<◌, ◌≤◌, decimal};
ghost use Rattle.numbers.specs.Texts.{Converted, ReadCapped, Spelled, front, rest};

// The text before the first byte that is the mark, and the text from that byte on: a word or a line, and what
// follows it, the mark included.
pub fn split_before(text: &[u8], mark: u8) -> (&[u8], &[u8])
    ensures front { result.0.now ≡ front mark text.now }
    ensures back { result.1.now ≡ rest mark text.now }
{
    let end = text
        .iter()
        .position(|byte| *byte == mark)
        .unwrap_or(text.len());
    text.split_at(end)
}

// The number that the text writes in decimal digits without leading zeros. One above the cap is told as the cap.
pub fn read_capped(text: &[u8], cap: u64) -> Option<u64>
    ensures { ReadCapped cap text.now result }
{
    if let [] | [b'0', _, ..] = text {
        return None;
    }
    let mut number: u64 = 0;
    for digit in text {
        let value = char::from(*digit).to_digit(10)?;
        let more = number.saturating_mul(10).saturating_add(u64::from(value));
        number = more.min(cap);
    }
    Some(number)
}

// The most decimal digits that a u32 has: a longer text without leading zeros is above every `most`, however long.
const MOST_DIGITS: usize = 10;

// The number that the text writes in decimal digits without leading zeros, if it is at most `most`.
pub fn read_number(text: &[u8], most: u32) -> Option<u32>
    ensures { Spelled (λ n. n ≤ most) decimal text.now result }
{
    if text.len() > MOST_DIGITS {
        return None;
    }
    let number = read_capped(text, u64::from(most) + 1)?;
    u32::try_from(number).ok().filter(|number| *number <= most)
}

// The same of any type of numbers, if it fits the type. A number of 2^32 or more is not read, though a larger type could
// hold it.
pub fn read<N: TryFrom<u32>>(text: &[u8]) -> Option<N>
where
    N::Error: Drop,
    ensures { Converted N.try_from_gives text.now result }
{
    N::try_from(read_number(text, u32::MAX)?).ok()
}
