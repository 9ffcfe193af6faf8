// What is wrong with a list of prices, and how it is said.
ghost use Rattle.std.specs.Prelude.{◌≡◌, Some};
ghost use Rattle.prices.specs.declared.error.InputError.TheVariants.{NoMemory};
ghost use Rattle.prices.specs.Text.{byte_text, error_text};

use std::alloc::AllocFailed;
use std::error::Error;
use std::fmt;

// What is wrong with a list, and on which line, counted from 1.
#[derive(Clone, Copy, PartialEq, Eq, Debug)]
pub enum InputError {
    NoPrices,
    EmptyLine(usize),
    // a line, and its first byte that is no digit
    NotADigit(usize, u8),
    TooLarge(usize),
    TooMany(usize),
    NoMemory,
}

impl fmt::Display for InputError {
    ghost output = { λ e. Some (error_text e) };

    fn fmt<W: fmt::Write>(&self, f: &mut fmt::Formatter<W>) -> fmt::Result {
        match self {
            InputError::NoPrices => write!(f, "line 1: there is no price at all"),
            InputError::EmptyLine(line) => write!(f, "line {line}: the line is empty"),
            InputError::NotADigit(line, byte) => {
                let named = NamedByte(*byte);
                write!(f, "line {line}: {named} is no digit")
            }
            InputError::TooLarge(line) => write!(f, "line {line}: the price is 4294967296 or more"),
            InputError::TooMany(line) => write!(f, "line {line}: there are more than 1024 prices"),
            InputError::NoMemory => write!(f, "there is not enough memory for the list"),
        }
    }
}

impl Error for InputError {}

impl<T: Drop> From<AllocFailed<T>> for InputError {
    ghost from_gives = { λ _ r. r ≡ NoMemory };

    fn from(_error: AllocFailed<T>) -> InputError {
        Self::NoMemory
    }
}

// A byte as a message names it. Many editors do not show a carriage return, so that one goes by its name.
#[derive(Clone, Copy)]
struct NamedByte(u8);

impl fmt::Display for NamedByte {
    ghost output = { λ b. Some (byte_text b.0) };

    fn fmt<W: fmt::Write>(&self, f: &mut fmt::Formatter<W>) -> fmt::Result {
        let byte = self.0;
        if byte == b'\r' {
            return write!(f, "a carriage return (byte 13)");
        }
        if !byte.is_ascii_graphic() {
            return write!(f, "byte {byte}");
        }
        let letter = char::from(byte);
        write!(f, "'{letter}' (byte {byte})")
    }
}
