// A dense line: 32 prices of four bytes, side by side.
ghost use Rattle.std.specs.Prelude.{◌≡◌, ◌≤◌, length, sum_by};
ghost use Rattle.std.specs.Simd.{first_chunks};
ghost use Rattle.units.specs.Word.{word_at};
ghost use Rattle.records.specs.Line.{price_at, line_total};

use units::WORD;

// Prices in a dense line.
pub const PRICES: usize = 32;

// The price at this index of the line; nothing past the last.
#[tactic(auto, using(crate::proofs::Words::price_part))]
pub fn price_at(line: &[u8; 128], index: usize) -> Option<u32>
    ensures { result ≡ price_at line.now index }
{
    words(line).get(index).map(number)
}

// The total of all prices of the line.
#[tactic(auto, using(crate::proofs::Words::words_sum), unfolding(crate::specs::Line::line_total))]
pub fn line_total(line: &[u8; 128]) -> u64
    ensures { result ≡ line_total line.now }
{
    sum(words(line))
}

fn sum(words: &[[u8; WORD]]) -> u64
    requires { length words.now ≤ 32 }
    ensures { result ≡ sum_by (λ w. word_at w 0) words.now }
{
    words.iter().map(|word| u64::from(number(word))).sum()
}

// The line, four bytes at a time.
fn words(line: &[u8; 128]) -> &[[u8; WORD]]
    ensures chunks { result.now ≡ first_chunks 4 32 line.now }
    ensures count { length result.now ≡ 32 }
{
    line.as_chunks().0
}

// The number that the four bytes say, most significant first.
fn number(word: &[u8; WORD]) -> u32
    ensures { result ≡ word_at word.now 0 }
{
    u32::from_be_bytes(*word)
}
