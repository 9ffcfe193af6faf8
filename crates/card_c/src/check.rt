// A window is opened, and closed again.
ghost use Rattle.std.specs.Prelude.{◌≡◌, [], cond, is_ok, length, replicate};
ghost use Rattle.card_c.specs.Setup.{meaning_of, layout_by};
ghost use Rattle.card_c.specs.Called.{called, AnsweredUnder, AnsweredOver, AnsweredBy, CardAnswered, board_after};
ghost use Rattle.card_c.specs.Bytes.{KeptAt, BytesKept};

use crate::answer::CardAnswer;
use crate::lent::check_memory;
use crate::registers::armed_by;
use crate::setup::{CachePlace, CardSetup, Choices, Format, MappingType};
use cache::Cache;
use checked::CheckByte;
use colour::Colour;
use direct::Direct;
use mapping::Mapping;
use memory::{ByteMemory, LineFormat};
use plain::CellsAlone;
use stride::Stride;
use transpose::Transpose;

// Says whether a window opens over the bytes. The board is what the opening takes notes on: a byte for each whole page.
#[unsafe(no_mangle)]
pub extern "C" fn card_check(setup: CardSetup, bytes: &mut [u8], board: &mut [u8]) -> CardAnswer
    ensures answer { CardAnswered setup bytes.old (length board.old) [] result }
    ensures bytes { BytesKept setup bytes.old bytes.new }
    ensures board { board.new ≡ board_after setup board.old }
{
    let choices = match setup.choices() {
        Ok(choices) => choices,
        Err(refusal) => return CardAnswer::refused(refusal),
    };
    let registers = &setup.registers;
    match choices.mapping {
        MappingType::Direct => check_by::<Direct>(choices, registers, bytes, board),
        MappingType::Colour => check_by::<Colour>(choices, registers, bytes, board),
        MappingType::Stride => check_by::<Stride>(choices, registers, bytes, board),
        MappingType::Transpose => check_by::<Transpose>(choices, registers, bytes, board),
    }
}

fn check_by<P: Mapping>(
    choices: Choices,
    registers: &[u64; 5],
    bytes: &mut [u8],
    board: &mut [u8],
) -> CardAnswer
    ensures answer { AnsweredBy choices.cache (layout_by P.Registers.rules registers.now) (length board.old) [] (meaning_of choices.format bytes.old) result }
    ensures bytes { KeptAt choices.cache bytes.old bytes.new }
    ensures board { board.new ≡ cond (is_ok (layout_by P.Registers.rules registers.now)) (replicate (length board.old) 0) board.old }
{
    let cache = choices.cache;
    match choices.format {
        Format::Plain => check_bytes::<P, CellsAlone>(cache, registers, bytes, board),
        Format::Checked => check_bytes::<P, CheckByte>(cache, registers, bytes, board),
    }
}

fn check_bytes<P: Mapping, F: LineFormat>(
    cache: CachePlace,
    registers: &[u64; 5],
    bytes: &mut [u8],
    board: &mut [u8],
) -> CardAnswer
    ensures answer { AnsweredBy cache (layout_by P.Registers.rules registers.now) (length board.old) [] (F.meaning bytes.old) result }
    ensures bytes { KeptAt cache bytes.old bytes.new }
    ensures board { board.new ≡ cond (is_ok (layout_by P.Registers.rules registers.now)) (replicate (length board.old) 0) board.old }
{
    let set = match armed_by::<P>(registers) {
        Ok(set) => set,
        Err(refusal) => return CardAnswer::refused(refusal),
    };
    match cache {
        CachePlace::Absent => check_bare::<P, F>(&set.into_mapping(), bytes, board),
        CachePlace::Under => check_under::<P, F>(&set.into_mapping(), bytes, board),
        CachePlace::Over => check_over::<P, F>(&set.into_mapping(), bytes, board),
    }
}

fn check_bare<P: Mapping, F: LineFormat>(
    mapping: &P,
    bytes: &mut [u8],
    board: &mut [u8],
) -> CardAnswer
    requires { P.Mapping.armed mapping.now }
    ensures answer { result ≡ called (P.Mapping.meaning mapping.now) (length board.old) [] (F.meaning bytes.old) }
    ensures bytes { bytes.new ≡ bytes.old }
    ensures board { board.new ≡ replicate (length board.old) 0 }
{
    let mut below = ByteMemory::<F>::new(bytes);
    check_memory(mapping, &mut below, board)
}

// Through a cache below the window.
fn check_under<P: Mapping, F: LineFormat>(
    mapping: &P,
    bytes: &mut [u8],
    board: &mut [u8],
) -> CardAnswer
    requires { P.Mapping.armed mapping.now }
    ensures answer { AnsweredUnder (P.Mapping.meaning mapping.now) (length board.old) [] (F.meaning bytes.old) result }
    ensures board { board.new ≡ replicate (length board.old) 0 }
{
    let mut below = Cache::new(ByteMemory::<F>::new(bytes));
    let answer = check_memory(mapping, &mut below, board);
    answer.with_cache(below.report())
}

// A cache over a window that nothing is asked of has nothing to do.
fn check_over<P: Mapping, F: LineFormat>(
    mapping: &P,
    bytes: &mut [u8],
    board: &mut [u8],
) -> CardAnswer
    requires { P.Mapping.armed mapping.now }
    ensures answer { AnsweredOver (P.Mapping.meaning mapping.now) (length board.old) [] (F.meaning bytes.old) result }
    ensures bytes { bytes.new ≡ bytes.old }
    ensures board { board.new ≡ replicate (length board.old) 0 }
{
    check_bare::<P, F>(mapping, bytes, board)
}
