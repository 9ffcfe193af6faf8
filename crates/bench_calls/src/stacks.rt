// What the benchmark links. Each call makes its stack anew and opens its windows, so a line costs what a call for many lines takes longer
// than a call for none.
ghost use Rattle.std.specs.Prelude.{◌≡◌, length};
ghost use Rattle.std.specs.Option.{option_map};
ghost use Rattle.memory.specs.Up.{cells_up};
ghost use Rattle.plain.specs.Plain.{plain_meaning};
ghost use Rattle.checked.specs.Checked.{checked_meaning};
ghost use Rattle.direct.specs.Direct.{direct_rules};
ghost use Rattle.colour.specs.Colour.{colour_rules};
ghost use Rattle.stride.specs.Stride.{stride_rules};
ghost use Rattle.transpose.specs.Transpose.{transpose_rules};
ghost use Rattle.bench_calls.specs.Image.{image, image_over, board_after};
ghost use Rattle.bench_calls.specs.Lines.{each_read, each_written, last_of};

use crate::lines::{read_each, write_each};
use crate::opened::opened;
use cache::Cache;
use checked::Checked;
use colour::Colour;
use direct::Direct;
use plain::Plain;
use stride::Stride;
use transpose::Transpose;
use window::Window;

// Reads through a stride window over plain memory.
#[unsafe(no_mangle)]
pub extern "C" fn bench_read_stride(
    bytes: &mut [u8],
    board: &mut [u8],
    registers: &[u64; 5],
    lines: u32,
    line: &mut [u8; 128],
) -> bool
    ensures answer { result ≡ each_read (image stride_rules registers.now (plain_meaning bytes.old) (length board.old)) lines }
    ensures line { line.new ≡ last_of (image stride_rules registers.now (plain_meaning bytes.old) (length board.old)) lines line.old }
    ensures board { board.new ≡ board_after (image stride_rules registers.now (plain_meaning bytes.old) (length board.old)) board.old }
{
    let window = opened::<Stride, Plain>(registers, Plain::new(bytes), board);
    read_each(window, lines, line)
}

// Writes through one.
#[unsafe(no_mangle)]
pub extern "C" fn bench_write_stride(
    bytes: &mut [u8],
    board: &mut [u8],
    registers: &[u64; 5],
    lines: u32,
    line: &[u8; 128],
) -> bool
    ensures answer { result ≡ each_written (image stride_rules registers.now (plain_meaning bytes.old) (length board.old)) lines line.now }
    ensures board { board.new ≡ board_after (image stride_rules registers.now (plain_meaning bytes.old) (length board.old)) board.old }
{
    let window = opened::<Stride, Plain>(registers, Plain::new(bytes), board);
    write_each(window, lines, line)
}

// The other mappings, over plain memory.
#[unsafe(no_mangle)]
pub extern "C" fn bench_read_direct(
    bytes: &mut [u8],
    board: &mut [u8],
    registers: &[u64; 5],
    lines: u32,
    line: &mut [u8; 128],
) -> bool
    ensures answer { result ≡ each_read (image direct_rules registers.now (plain_meaning bytes.old) (length board.old)) lines }
    ensures line { line.new ≡ last_of (image direct_rules registers.now (plain_meaning bytes.old) (length board.old)) lines line.old }
    ensures board { board.new ≡ board_after (image direct_rules registers.now (plain_meaning bytes.old) (length board.old)) board.old }
{
    let window = opened::<Direct, Plain>(registers, Plain::new(bytes), board);
    read_each(window, lines, line)
}

#[unsafe(no_mangle)]
pub extern "C" fn bench_read_colour(
    bytes: &mut [u8],
    board: &mut [u8],
    registers: &[u64; 5],
    lines: u32,
    line: &mut [u8; 128],
) -> bool
    ensures answer { result ≡ each_read (image colour_rules registers.now (plain_meaning bytes.old) (length board.old)) lines }
    ensures line { line.new ≡ last_of (image colour_rules registers.now (plain_meaning bytes.old) (length board.old)) lines line.old }
    ensures board { board.new ≡ board_after (image colour_rules registers.now (plain_meaning bytes.old) (length board.old)) board.old }
{
    let window = opened::<Colour, Plain>(registers, Plain::new(bytes), board);
    read_each(window, lines, line)
}

#[unsafe(no_mangle)]
pub extern "C" fn bench_read_transpose(
    bytes: &mut [u8],
    board: &mut [u8],
    registers: &[u64; 5],
    lines: u32,
    line: &mut [u8; 128],
) -> bool
    ensures answer { result ≡ each_read (image transpose_rules registers.now (plain_meaning bytes.old) (length board.old)) lines }
    ensures line { line.new ≡ last_of (image transpose_rules registers.now (plain_meaning bytes.old) (length board.old)) lines line.old }
    ensures board { board.new ≡ board_after (image transpose_rules registers.now (plain_meaning bytes.old) (length board.old)) board.old }
{
    let window = opened::<Transpose, Plain>(registers, Plain::new(bytes), board);
    read_each(window, lines, line)
}

// A stride window over checked memory.
#[unsafe(no_mangle)]
pub extern "C" fn bench_read_checked(
    bytes: &mut [u8],
    board: &mut [u8],
    registers: &[u64; 5],
    lines: u32,
    line: &mut [u8; 128],
) -> bool
    ensures answer { result ≡ each_read (image stride_rules registers.now (checked_meaning bytes.old) (length board.old)) lines }
    ensures line { line.new ≡ last_of (image stride_rules registers.now (checked_meaning bytes.old) (length board.old)) lines line.old }
    ensures board { board.new ≡ board_after (image stride_rules registers.now (checked_meaning bytes.old) (length board.old)) board.old }
{
    let window = opened::<Stride, Checked>(registers, Checked::new(bytes), board);
    read_each(window, lines, line)
}

// A stride window over a cache over plain memory.
#[unsafe(no_mangle)]
pub extern "C" fn bench_read_over_cache(
    bytes: &mut [u8],
    board: &mut [u8],
    registers: &[u64; 5],
    lines: u32,
    line: &mut [u8; 128],
) -> bool
    ensures answer { result ≡ each_read (image stride_rules registers.now (cells_up (plain_meaning bytes.old)) (length board.old)) lines }
    ensures line { line.new ≡ last_of (image stride_rules registers.now (cells_up (plain_meaning bytes.old)) (length board.old)) lines line.old }
    ensures board { board.new ≡ board_after (image stride_rules registers.now (cells_up (plain_meaning bytes.old)) (length board.old)) board.old }
{
    let cache = Cache::new(Plain::new(bytes));
    let window = opened::<Stride, Cache<Plain>>(registers, cache, board);
    read_each(window, lines, line)
}

// A cache over a stride window over plain memory.
#[unsafe(no_mangle)]
pub extern "C" fn bench_read_cached(
    bytes: &mut [u8],
    board: &mut [u8],
    registers: &[u64; 5],
    lines: u32,
    line: &mut [u8; 128],
) -> bool
    ensures answer { result ≡ each_read (option_map cells_up (image stride_rules registers.now (plain_meaning bytes.old) (length board.old))) lines }
    ensures line { line.new ≡ last_of (option_map cells_up (image stride_rules registers.now (plain_meaning bytes.old) (length board.old))) lines line.old }
    ensures board { board.new ≡ board_after (image stride_rules registers.now (plain_meaning bytes.old) (length board.old)) board.old }
{
    let cache = match opened::<Stride, Plain>(registers, Plain::new(bytes), board) {
        Some(window) => Some(Cache::new(window)),
        None => None,
    };
    read_each(cache, lines, line)
}

// A stride window over a direct window over plain memory.
#[unsafe(no_mangle)]
pub extern "C" fn bench_read_over_window(
    bytes: &mut [u8],
    lower_board: &mut [u8],
    lower: &[u64; 5],
    upper_board: &mut [u8],
    upper: &[u64; 5],
    lines: u32,
    line: &mut [u8; 128],
) -> bool
    ensures answer { result ≡ each_read (image_over stride_rules upper.now (image direct_rules lower.now (plain_meaning bytes.old) (length lower_board.old)) (length upper_board.old)) lines }
    ensures line { line.new ≡ last_of (image_over stride_rules upper.now (image direct_rules lower.now (plain_meaning bytes.old) (length lower_board.old)) (length upper_board.old)) lines line.old }
    ensures lower_board { lower_board.new ≡ board_after (image direct_rules lower.now (plain_meaning bytes.old) (length lower_board.old)) lower_board.old }
    ensures upper_board { upper_board.new ≡ board_after (image_over stride_rules upper.now (image direct_rules lower.now (plain_meaning bytes.old) (length lower_board.old)) (length upper_board.old)) upper_board.old }
{
    let window = match opened::<Direct, Plain>(lower, Plain::new(bytes), lower_board) {
        Some(below) => opened::<Stride, Window<Direct, Plain>>(upper, below, upper_board),
        None => None,
    };
    read_each(window, lines, line)
}
