// Goes through a page table before a window opens.
ghost use Rattle.std.specs.Prelude.{◌≡◌, ◌+◌, ◌*◌, ◌/◌, ◌<◌, ◌≤◌, cond, is_ok, length, min, replicate, take, drop, Decides, ◌-◌};
ghost use Rattle.std.specs.Result.{result_map_both};
ghost use Rattle.memory.specs.Reach.{OnlyRead};
ghost use Rattle.page_table.specs.Entry.{entry_of};
ghost use Rattle.page_table.specs.Table.{table_of, table_pages, whole_pages, entry_address, entry_answer, frame_in, frame_of};
ghost use Rattle.opening.specs.Opening.{refused_by, check_sizes, check_entries, check_opening, in_table, Openable};
ghost use Rattle.opening.specs.Board.{check_on_board, noted, Seen, line_at};

use crate::reason::{OpeningRefusal, Reason};
use mapping::{Mapping, MemoryAddress};
use memory::Memory;
use page_table::{Entry, Table, read_entry};
use units::{LINE, PAGE, WORD};

// Entries in a line of the table.
const LINE_ENTRIES: u32 = 32;

// Whether a window by this mapping opens over the memory. The board takes a note of each frame, and is all zero afterwards.
pub fn check_opening<P: Mapping, M: Memory>(
    mapping: &P,
    below: &mut M,
    board: &mut [u8],
) -> Result<(), OpeningRefusal>
    requires armed { P.Mapping.armed mapping.now }
    requires coherent { M.Memory.coherent below.old }
    ensures answer { result ≡ check_opening (table_of (P.Mapping.meaning mapping.now)) (M.Memory.meaning below.old) (length board.old) }
    ensures opens { Decides (is_ok result) (Openable (table_of (P.Mapping.meaning mapping.now)) (M.Memory.meaning below.old) (length board.old)) }
    ensures board { board.new ≡ replicate (length board.old) 0 }
    ensures meaning { M.Memory.meaning below.new ≡ M.Memory.meaning below.old }
    ensures coherent { M.Memory.coherent below.new }
    ensures reads { OnlyRead M.Memory.step below.old below.new }
{
    examine(Table::of(mapping), below, board)
}

// Clears the board before the table is looked at and after, whatever the answer is.
fn examine<M: Memory>(table: Table, below: &mut M, board: &mut [u8]) -> Result<(), OpeningRefusal>
    requires { M.Memory.coherent below.old }
    ensures answer { result ≡ check_opening table (M.Memory.meaning below.old) (length board.old) }
    ensures board { board.new ≡ replicate (length board.old) 0 }
    ensures meaning { M.Memory.meaning below.new ≡ M.Memory.meaning below.old }
    ensures coherent { M.Memory.coherent below.new }
    ensures reads { OnlyRead M.Memory.step below.old below.new }
{
    board.fill(0);
    let answer = check_table(table, below, board);
    board.fill(0);
    answer
}

// Over a board of zeros, in which it leaves its notes: first what is tested before any entry, and then the entries.
#[tactic(auto, using(crate::proofs::Tables::opening_refused, crate::proofs::Tables::opening_by_entries, crate::proofs::Tables::seen_first, memory::proofs::Reaches::only_read_none))]
fn check_table<M: Memory>(
    table: Table,
    below: &mut M,
    board: &mut [u8],
) -> Result<(), OpeningRefusal>
    requires coherent { M.Memory.coherent below.old }
    requires board { board.old ≡ replicate (length board.old) 0 }
    ensures answer { result ≡ check_opening table (M.Memory.meaning below.old) (length board.old) }
    ensures board { length board.new ≡ length board.old }
    ensures meaning { M.Memory.meaning below.new ≡ M.Memory.meaning below.old }
    ensures coherent { M.Memory.coherent below.new }
    ensures reads { OnlyRead M.Memory.step below.old below.new }
{
    let whole = below.size() / PAGE;
    refused_by(0, check_sizes(table, whole, board.len() as u64))?;
    check_entries(table, whole, below, board)
}

// What is tested before any entry is looked at: the board has so many bytes, and the memory so many whole pages.
fn check_sizes(table: Table, whole: u64, bytes: u64) -> Result<(), Reason>
    ensures { result ≡ check_sizes table whole bytes }
{
    if bytes < whole {
        return Err(Reason::ShortBoard);
    }
    if whole.saturating_sub(u64::from(table.page())) < u64::from(table.pages()) {
        return Err(Reason::TableOutside);
    }
    Ok(())
}

// The entries in their order, up to the first that is refused.
fn check_entries<M: Memory>(
    table: Table,
    whole: u64,
    below: &mut M,
    board: &mut [u8],
) -> Result<(), OpeningRefusal>
    requires coherent { M.Memory.coherent below.old }
    requires whole { whole ≡ whole_pages (M.Memory.meaning below.old) }
    requires table { table_pages table ≤ whole - table.page }
    requires seen { Seen table (M.Memory.meaning below.old) 0 board.old }
    ensures answer { result ≡ check_entries table (M.Memory.meaning below.old) 0 table.entries }
    ensures board { length board.new ≡ length board.old }
    ensures meaning { M.Memory.meaning below.new ≡ M.Memory.meaning below.old }
    ensures coherent { M.Memory.coherent below.new }
    ensures reads { OnlyRead M.Memory.step below.old below.new }
{
    let mut answer = Ok(());
    'table: for number in 0..table.entries().div_ceil(LINE_ENTRIES) {
        let first = number * LINE_ENTRIES;
        let line = read_line(below, table.entry_address(first));
        for entry in first..line_end(table, number) {
            let frame = entry_frame(table, below, &line, entry);
            answer = refused_by(entry, check_frame(table, whole, frame, board));
            if answer.is_err() {
                break 'table;
            }
        }
    }
    answer
}

// The number after that of the last entry in this line of the table, whose last line may have fewer than 32.
fn line_end(table: Table, number: u32) -> u32
    ensures { result ≡ min ((number + 1) * 32) table.entries }
{
    let after = number.saturating_add(1).saturating_mul(LINE_ENTRIES);
    after.min(table.entries())
}

// An answer with the number of the entry that decided it.
fn refused_by(entry: u32, answer: Result<(), Reason>) -> Result<(), OpeningRefusal>
    ensures { result ≡ refused_by entry answer }
{
    answer.map_err(|reason| OpeningRefusal { reason, entry })
}

// A line of the table; nothing where it is not read whole.
fn read_line<M: Memory>(below: &mut M, a: MemoryAddress) -> Option<[u8; 128]>
    requires { M.Memory.coherent below.old }
    ensures line { result ≡ line_at (M.Memory.meaning below.old) a.0 }
    ensures meaning { M.Memory.meaning below.new ≡ M.Memory.meaning below.old }
    ensures coherent { M.Memory.coherent below.new }
    ensures reads { OnlyRead M.Memory.step below.old below.new }
{
    let mut line = [0; LINE as usize];
    below.read(a.0, &mut line).ok()?;
    Some(line)
}

// The frame of an entry, if that is live. Where its line was not read whole, other entries of the line may be live, so it is read alone.
#[tactic(auto, using(crate::proofs::Lines::lone_frame, crate::proofs::Lines::lined_frame, memory::proofs::Reaches::only_read_none))]
fn entry_frame<M: Memory>(
    table: Table,
    below: &mut M,
    line: &Option<[u8; 128]>,
    number: u32,
) -> Option<u32>
    requires coherent { M.Memory.coherent below.old }
    requires inside { entry_address table number + 4 ≤ (M.Memory.meaning below.old).size }
    requires line { line.now ≡ line_at (M.Memory.meaning below.old) (entry_address table (number / 32 * 32)) }
    ensures frame { result ≡ frame_of table (M.Memory.meaning below.old) number }
    ensures meaning { M.Memory.meaning below.new ≡ M.Memory.meaning below.old }
    ensures coherent { M.Memory.coherent below.new }
    ensures reads { OnlyRead M.Memory.step below.old below.new }
{
    let Some(bytes) = line else {
        return read_frame(below, table.entry_address(number));
    };
    let entry = line_entry(bytes, (number % LINE_ENTRIES) as usize);
    entry.live_frame().ok()
}

// The frame of the entry at an address, if it can be read and is live.
fn read_frame<M: Memory>(below: &mut M, a: MemoryAddress) -> Option<u32>
    requires { M.Memory.coherent below.old }
    ensures frame { result ≡ frame_in (entry_answer (M.Memory.meaning below.old) a.0) }
    ensures meaning { M.Memory.meaning below.new ≡ M.Memory.meaning below.old }
    ensures coherent { M.Memory.coherent below.new }
    ensures reads { OnlyRead M.Memory.step below.old below.new }
{
    read_entry(below, a).ok()?.live_frame().ok()
}

// The entry in this place of a line.
fn line_entry(line: &[u8; 128], slot: usize) -> Entry
    requires { slot < 32 }
    ensures { result ≡ entry_of (take 4 (drop (slot * 4) line.now)) }
{
    let at = slot * WORD;
    Entry::decode(&[line[at], line[at + 1], line[at + 2], line[at + 3]])
}

// Whether an entry is accepted, by its frame if it is live, which is then noted on the board.
fn check_frame(table: Table, whole: u64, frame: Option<u32>, board: &mut [u8]) -> Result<(), Reason>
    requires { whole ≤ length board.old }
    ensures answer { result ≡ check_on_board table whole board.old frame }
    ensures board { board.new ≡ cond (is_ok result) (noted board.old frame) board.old }
{
    let Some(frame) = frame else {
        return Ok(());
    };
    if u64::from(frame) >= whole {
        return Err(Reason::FrameOutside);
    }
    if in_table(table, frame) {
        return Err(Reason::FrameInTable);
    }
    let place = frame as usize;
    if board[place] != 0 {
        return Err(Reason::FrameTaken);
    }
    board[place] = 1;
    Ok(())
}

fn in_table(table: Table, page: u32) -> bool
    ensures { result ≡ in_table table page }
{
    page >= table.page() && u64::from(page) < u64::from(table.page()) + u64::from(table.pages())
}
