// The prices of a list, in order.
ghost use Rattle.std.specs.Prelude.{◌≡◌, Ok, MatchResult};
ghost use Rattle.std.specs.Option.{option_copied};
ghost use Rattle.prices.specs.Prices.{said, no_digit, line_read, prices, Told};

use crate::error::InputError;
use std::alloc::Global;

// The most prices in one list.
pub const MAX_PRICES: usize = 1024;

// The prices of the list, in order, or what is wrong on its first bad line.
#[tactic(auto, using(crate::proofs::Texts::ends))]
pub fn parse(heap: Global, text: &[u8]) -> Result<Vec<u32>, InputError>
    ensures { MatchResult result (λ v. prices text.now ≡ Ok v.items) (λ e. Told e (prices text.now)) }
{
    if text.is_empty() {
        return Err(InputError::NoPrices);
    }
    let mut list = Vec::new(heap);
    for (number, part) in (1..).zip(text.split_inclusive(|byte| *byte == b'\n')) {
        let line = part.strip_suffix(b"\n").unwrap_or(part);
        list.push(read_line(number, line)?)?;
    }
    Ok(list)
}

// The price on the line of this number.
#[tactic(auto, using(crate::proofs::Numbers::judging))]
fn read_line(number: usize, line: &[u8]) -> Result<u32, InputError>
    ensures { result ≡ line_read number line.now }
{
    if number > MAX_PRICES {
        return Err(InputError::TooMany(number));
    }
    if line.is_empty() {
        return Err(InputError::EmptyLine(number));
    }
    if let Some(value) = value_of(line) {
        return Ok(value);
    }
    match first_other(line) {
        Some(byte) => Err(InputError::NotADigit(number, *byte)),
        None => Err(InputError::TooLarge(number)),
    }
}

// The first byte of the line that is no digit.
fn first_other(line: &[u8]) -> Option<&u8>
    ensures { option_copied result ≡ no_digit line.now }
{
    line.iter().find(|byte| !byte.is_ascii_digit())
}

// The number that the line says; nothing where a byte is no digit, or the number has more than 32 bits. A price takes one pass over its
// line: only a refused line is searched for what is wrong.
#[tactic(auto, using(crate::proofs::Numbers::digits))]
fn value_of(line: &[u8]) -> Option<u32>
    ensures { result ≡ said 0 line.now }
{
    let mut value = 0u32;
    for digit in line {
        if !digit.is_ascii_digit() {
            return None;
        }
        value = value
            .checked_mul(10)?
            .checked_add(u32::from(*digit - b'0'))?;
    }
    Some(value)
}
