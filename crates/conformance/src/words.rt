// Numbers and bytes as words.
use anyhow::{Context, bail};
use std::alloc::Global;
use std::fmt;

// Decimal, without leading zeros and signs.
pub(crate) fn number(word: &str) -> anyhow::Result<u64> {
    let digits = word.as_bytes();
    let zero_first = digits.len() > 1 && digits.first() == Some(&b'0');
    if zero_first || !digits.iter().all(|digit| digit.is_ascii_digit()) {
        bail!("'{word}' is no number");
    }
    word.parse::<u64>()
        .context(format_args!("'{word}' is no number below 2^64"))
}

pub(crate) fn index(word: &str) -> anyhow::Result<usize> {
    Ok(number(word)? as usize)
}

// Two digits to a byte, or a dash for no byte at all.
pub(crate) fn bytes(heap: Global, word: &str) -> anyhow::Result<Vec<u8>> {
    let mut bytes = Vec::new(heap);
    if word == "-" {
        return Ok(bytes);
    }
    if word.is_empty() {
        bail!("there are no bytes");
    }
    for pair in word.as_bytes().chunks(2) {
        let [high, low] = pair else {
            bail!("a byte has one digit");
        };
        bytes.push(digit(*high)? << 4 | digit(*low)?)?;
    }
    Ok(bytes)
}

fn digit(letter: u8) -> anyhow::Result<u8> {
    match letter {
        b'0'..=b'9' => Ok(letter - b'0'),
        b'A'..=b'F' => Ok(letter - b'A' + 10),
        _ => bail!("byte {letter} is no hexadecimal digit"),
    }
}

// Bytes as a word.
#[derive(Clone, Copy)]
pub(crate) struct Hexadecimal<'a>(pub(crate) &'a [u8]);

impl fmt::Display for Hexadecimal<'_> {
    fn fmt<W: fmt::Write>(&self, f: &mut fmt::Formatter<W>) -> fmt::Result {
        if self.0.is_empty() {
            return write!(f, "-");
        }
        for byte in self.0 {
            write!(f, "{byte:02X}")?;
        }
        Ok(())
    }
}
