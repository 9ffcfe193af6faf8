// A window is opened, a span of it is written, and it is closed.
ghost use Rattle.std.specs.Prelude.{◌≡◌, cond, is_ok, length, replicate, take};
ghost use Rattle.memory.specs.Calls.{stored};
ghost use Rattle.page_table.specs.Walk.{windowed};
ghost use Rattle.span.specs.Runs.{writes_of};
ghost use Rattle.card_c.specs.Setup.{meaning_of, updated_of, layout_by};
ghost use Rattle.card_c.specs.Called.{called, after, AnsweredUnder, AnsweredBy, CardAnswered, board_after};
ghost use Rattle.card_c.specs.Bytes.{BytesAfter, BytesBy, BytesLeft, WrittenBy, CardWritten};

use crate::answer::CardAnswer;
use crate::lent::write_memory;
use crate::over::write_over;
use crate::registers::armed_by;
use crate::setup::{CachePlace, CardSetup, Choices, Format, MappingType};
use cache::Cache;
use checked::CheckByte;
use colour::Colour;
use direct::Direct;
use mapping::Mapping;
use memory::{ByteMemory, LineFormat};
use plain::CellsAlone;
use stride::Stride;
use transpose::Transpose;

// Writes the content into the window from the address on, run by run, up to the first run that is refused.
#[unsafe(no_mangle)]
pub extern "C" fn card_write(
    setup: CardSetup,
    bytes: &mut [u8],
    board: &mut [u8],
    address: u64,
    content: &[u8],
) -> CardAnswer
    ensures answer { CardAnswered setup bytes.old (length board.old) (writes_of address content.now) result }
    ensures written { CardWritten setup bytes.old bytes.new address (take result.done content.now) }
    ensures bytes { BytesLeft setup bytes.old (length board.old) (writes_of address content.now) bytes.new }
    ensures board { board.new ≡ board_after setup board.old }
{
    let choices = match setup.choices() {
        Ok(choices) => choices,
        Err(refusal) => return CardAnswer::refused(refusal),
    };
    let registers = &setup.registers;
    match choices.mapping {
        MappingType::Direct => write_by::<Direct>(
            choices, registers, bytes, board, address, content,
        ),
        MappingType::Colour => write_by::<Colour>(
            choices, registers, bytes, board, address, content,
        ),
        MappingType::Stride => write_by::<Stride>(
            choices, registers, bytes, board, address, content,
        ),
        MappingType::Transpose => write_by::<Transpose>(
            choices, registers, bytes, board, address, content,
        ),
    }
}

fn write_by<P: Mapping>(
    choices: Choices,
    registers: &[u64; 5],
    bytes: &mut [u8],
    board: &mut [u8],
    address: u64,
    content: &[u8],
) -> CardAnswer
    ensures answer { AnsweredBy choices.cache (layout_by P.Registers.rules registers.now) (length board.old) (writes_of address content.now) (meaning_of choices.format bytes.old) result }
    ensures written { WrittenBy choices.cache (layout_by P.Registers.rules registers.now) (meaning_of choices.format bytes.old) (meaning_of choices.format bytes.new) address (take result.done content.now) }
    ensures bytes { BytesBy choices.cache (meaning_of choices.format) (updated_of choices.format) (layout_by P.Registers.rules registers.now) (length board.old) (writes_of address content.now) bytes.old bytes.new }
    ensures board { board.new ≡ cond (is_ok (layout_by P.Registers.rules registers.now)) (replicate (length board.old) 0) board.old }
{
    let cache = choices.cache;
    match choices.format {
        Format::Plain => write_bytes::<P, CellsAlone>(
            cache, registers, bytes, board, address, content,
        ),
        Format::Checked => write_bytes::<P, CheckByte>(
            cache, registers, bytes, board, address, content,
        ),
    }
}

fn write_bytes<P: Mapping, F: LineFormat>(
    cache: CachePlace,
    registers: &[u64; 5],
    bytes: &mut [u8],
    board: &mut [u8],
    address: u64,
    content: &[u8],
) -> CardAnswer
    ensures answer { AnsweredBy cache (layout_by P.Registers.rules registers.now) (length board.old) (writes_of address content.now) (F.meaning bytes.old) result }
    ensures written { WrittenBy cache (layout_by P.Registers.rules registers.now) (F.meaning bytes.old) (F.meaning bytes.new) address (take result.done content.now) }
    ensures bytes { BytesBy cache F.meaning F.updated (layout_by P.Registers.rules registers.now) (length board.old) (writes_of address content.now) bytes.old bytes.new }
    ensures board { board.new ≡ cond (is_ok (layout_by P.Registers.rules registers.now)) (replicate (length board.old) 0) board.old }
{
    let set = match armed_by::<P>(registers) {
        Ok(set) => set,
        Err(refusal) => return CardAnswer::refused(refusal),
    };
    match cache {
        CachePlace::Absent => write_bare::<P, F>(
            &set.into_mapping(),
            bytes,
            board,
            address,
            content,
        ),
        CachePlace::Under => write_under::<P, F>(
            &set.into_mapping(),
            bytes,
            board,
            address,
            content,
        ),
        CachePlace::Over => write_over(set, ByteMemory::<F>::new(bytes), board, address, content),
    }
}

fn write_bare<P: Mapping, F: LineFormat>(
    mapping: &P,
    bytes: &mut [u8],
    board: &mut [u8],
    address: u64,
    content: &[u8],
) -> CardAnswer
    requires { P.Mapping.armed mapping.now }
    ensures answer { result ≡ called (P.Mapping.meaning mapping.now) (length board.old) (writes_of address content.now) (F.meaning bytes.old) }
    ensures written { windowed (P.Mapping.meaning mapping.now) (F.meaning bytes.new) ≡ stored (windowed (P.Mapping.meaning mapping.now) (F.meaning bytes.old)) address (take result.done content.now) }
    ensures bytes { BytesAfter F.meaning F.updated (after (P.Mapping.meaning mapping.now) (length board.old) (writes_of address content.now) (F.meaning bytes.old)) bytes.old bytes.new }
    ensures board { board.new ≡ replicate (length board.old) 0 }
{
    let mut below = ByteMemory::<F>::new(bytes);
    write_memory(mapping, &mut below, board, address, content)
}

// Through a cache below the window.
fn write_under<P: Mapping, F: LineFormat>(
    mapping: &P,
    bytes: &mut [u8],
    board: &mut [u8],
    address: u64,
    content: &[u8],
) -> CardAnswer
    requires { P.Mapping.armed mapping.now }
    ensures answer { AnsweredUnder (P.Mapping.meaning mapping.now) (length board.old) (writes_of address content.now) (F.meaning bytes.old) result }
    ensures board { board.new ≡ replicate (length board.old) 0 }
{
    let mut below = Cache::new(ByteMemory::<F>::new(bytes));
    let answer = write_memory(mapping, &mut below, board, address, content);
    answer.with_cache(below.report())
}
