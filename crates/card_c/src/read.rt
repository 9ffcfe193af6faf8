// A window is opened, a span of it is read, and it is closed.
ghost use Rattle.std.specs.Prelude.{◌≡◌, cond, is_ok, length, replicate};
ghost use Rattle.memory.specs.Up.{cells_up};
ghost use Rattle.page_table.specs.Walk.{windowed};
ghost use Rattle.span.specs.Runs.{reads_of};
ghost use Rattle.span.specs.Span.{filled};
ghost use Rattle.card_c.specs.Setup.{meaning_of, updated_of, layout_by};
ghost use Rattle.card_c.specs.Called.{called, after, AnsweredUnder, AnsweredBy, CardAnswered, image_by, card_image, board_after};
ghost use Rattle.card_c.specs.Bytes.{BytesAfter, BytesBy, BytesLeft};

use crate::answer::CardAnswer;
use crate::lent::read_memory;
use crate::over::read_over;
use crate::registers::armed_by;
use crate::setup::{CachePlace, CardSetup, Choices, Format, MappingType};
use cache::Cache;
use checked::CheckByte;
use colour::Colour;
use direct::Direct;
use mapping::Mapping;
use memory::{ByteMemory, LineFormat};
use plain::CellsAlone;
use stride::Stride;
use transpose::Transpose;

// Reads the window from the address on into the buffer, run by run, up to the first run that is refused.
#[unsafe(no_mangle)]
pub extern "C" fn card_read(
    setup: CardSetup,
    bytes: &mut [u8],
    board: &mut [u8],
    address: u64,
    buffer: &mut [u8],
) -> CardAnswer
    ensures answer { CardAnswered setup bytes.old (length board.old) (reads_of address buffer.old) result }
    ensures buffer { buffer.new ≡ filled (card_image setup bytes.old) address result.done buffer.old }
    ensures bytes { BytesLeft setup bytes.old (length board.old) (reads_of address buffer.old) bytes.new }
    ensures board { board.new ≡ board_after setup board.old }
{
    let choices = match setup.choices() {
        Ok(choices) => choices,
        Err(refusal) => return CardAnswer::refused(refusal),
    };
    let registers = &setup.registers;
    match choices.mapping {
        MappingType::Direct => read_by::<Direct>(choices, registers, bytes, board, address, buffer),
        MappingType::Colour => read_by::<Colour>(choices, registers, bytes, board, address, buffer),
        MappingType::Stride => read_by::<Stride>(choices, registers, bytes, board, address, buffer),
        MappingType::Transpose => read_by::<Transpose>(
            choices, registers, bytes, board, address, buffer,
        ),
    }
}

fn read_by<P: Mapping>(
    choices: Choices,
    registers: &[u64; 5],
    bytes: &mut [u8],
    board: &mut [u8],
    address: u64,
    buffer: &mut [u8],
) -> CardAnswer
    ensures answer { AnsweredBy choices.cache (layout_by P.Registers.rules registers.now) (length board.old) (reads_of address buffer.old) (meaning_of choices.format bytes.old) result }
    ensures buffer { buffer.new ≡ filled (image_by choices.cache (layout_by P.Registers.rules registers.now) (meaning_of choices.format bytes.old)) address result.done buffer.old }
    ensures bytes { BytesBy choices.cache (meaning_of choices.format) (updated_of choices.format) (layout_by P.Registers.rules registers.now) (length board.old) (reads_of address buffer.old) bytes.old bytes.new }
    ensures board { board.new ≡ cond (is_ok (layout_by P.Registers.rules registers.now)) (replicate (length board.old) 0) board.old }
{
    let cache = choices.cache;
    match choices.format {
        Format::Plain => read_bytes::<P, CellsAlone>(
            cache, registers, bytes, board, address, buffer,
        ),
        Format::Checked => read_bytes::<P, CheckByte>(
            cache, registers, bytes, board, address, buffer,
        ),
    }
}

fn read_bytes<P: Mapping, F: LineFormat>(
    cache: CachePlace,
    registers: &[u64; 5],
    bytes: &mut [u8],
    board: &mut [u8],
    address: u64,
    buffer: &mut [u8],
) -> CardAnswer
    ensures answer { AnsweredBy cache (layout_by P.Registers.rules registers.now) (length board.old) (reads_of address buffer.old) (F.meaning bytes.old) result }
    ensures buffer { buffer.new ≡ filled (image_by cache (layout_by P.Registers.rules registers.now) (F.meaning bytes.old)) address result.done buffer.old }
    ensures bytes { BytesBy cache F.meaning F.updated (layout_by P.Registers.rules registers.now) (length board.old) (reads_of address buffer.old) bytes.old bytes.new }
    ensures board { board.new ≡ cond (is_ok (layout_by P.Registers.rules registers.now)) (replicate (length board.old) 0) board.old }
{
    let set = match armed_by::<P>(registers) {
        Ok(set) => set,
        Err(refusal) => return CardAnswer::refused(refusal),
    };
    match cache {
        CachePlace::Absent => read_bare::<P, F>(&set.into_mapping(), bytes, board, address, buffer),
        CachePlace::Under => read_under::<P, F>(&set.into_mapping(), bytes, board, address, buffer),
        CachePlace::Over => read_over(set, ByteMemory::<F>::new(bytes), board, address, buffer),
    }
}

fn read_bare<P: Mapping, F: LineFormat>(
    mapping: &P,
    bytes: &mut [u8],
    board: &mut [u8],
    address: u64,
    buffer: &mut [u8],
) -> CardAnswer
    requires { P.Mapping.armed mapping.now }
    ensures answer { result ≡ called (P.Mapping.meaning mapping.now) (length board.old) (reads_of address buffer.old) (F.meaning bytes.old) }
    ensures buffer { buffer.new ≡ filled (windowed (P.Mapping.meaning mapping.now) (F.meaning bytes.old)) address result.done buffer.old }
    ensures bytes { BytesAfter F.meaning F.updated (after (P.Mapping.meaning mapping.now) (length board.old) (reads_of address buffer.old) (F.meaning bytes.old)) bytes.old bytes.new }
    ensures board { board.new ≡ replicate (length board.old) 0 }
{
    let mut below = ByteMemory::<F>::new(bytes);
    read_memory(mapping, &mut below, board, address, buffer)
}

// Through a cache below the window.
fn read_under<P: Mapping, F: LineFormat>(
    mapping: &P,
    bytes: &mut [u8],
    board: &mut [u8],
    address: u64,
    buffer: &mut [u8],
) -> CardAnswer
    requires { P.Mapping.armed mapping.now }
    ensures answer { AnsweredUnder (P.Mapping.meaning mapping.now) (length board.old) (reads_of address buffer.old) (F.meaning bytes.old) result }
    ensures buffer { buffer.new ≡ filled (windowed (P.Mapping.meaning mapping.now) (cells_up (F.meaning bytes.old))) address result.done buffer.old }
    ensures board { board.new ≡ replicate (length board.old) 0 }
{
    let mut below = Cache::new(ByteMemory::<F>::new(bytes));
    let answer = read_memory(mapping, &mut below, board, address, buffer);
    answer.with_cache(below.report())
}
