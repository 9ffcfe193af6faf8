// What the tests ask of an opening: which mapping it goes by, over which memory, with which board.
use expect::{armed_set, same};
use mapping::Mapping;
use memory::{ByteMemory, LineFormat, Memory};
use std::alloc::Global;
use std::test::Fail;
use window::{Window, WindowReport};

// An entry of a page table: its number, and its word. The first digit of the word in base 16 has the bits valid (8), referenced (4),
// modified (2) and out (1), and the seven others are the frame.
pub(crate) type Entry = (u64, u32);

// The reason of a refusal, and the entry that decided.
pub(crate) type Answer = (u8, u32);

pub(crate) const OPEN: Answer = (0, 0);

pub(crate) const SHORT_BOARD: Answer = (21, 0);

pub(crate) const TABLE_OUTSIDE: Answer = (22, 0);

#[derive(Clone, Copy)]
pub(crate) struct Setting {
    // of the mapping
    pub(crate) type_number: u8,
    // image size, table page, and registers 2 to 4, which a mapping that lacks them passes over
    pub(crate) registers: [u64; 5],
    // how many bytes the memory borrows
    pub(crate) borrowed: usize,
    // how many bytes the board has
    pub(crate) board: usize,
}

// The image is the data, of two pages, and the table lies in page 1. The memory has four pages, and the board more bytes than that.
pub(crate) const TWO_PAGES: Setting = Setting {
    type_number: 1,
    registers: [8192, 1, 0, 0, 0],
    borrowed: 16384,
    board: 7,
};

// The same for an image of 64 pages, whose table takes two lines.
pub(crate) const TWO_LINES: Setting = Setting {
    type_number: 1,
    registers: [262144, 1, 0, 0, 0],
    borrowed: 16384,
    board: 7,
};

// Bytes that hold a memory of zeros but for these entries of its page table.
pub(crate) fn table_bytes<F: LineFormat>(
    heap: Global,
    setting: Setting,
    entries: &[Entry],
) -> Result<Vec<u8>, Fail> {
    let mut bytes = vec![in heap; 0u8; setting.borrowed]?;
    let start = setting.registers[1].saturating_mul(4096);
    for (number, word) in entries {
        let a = start.saturating_add(number.saturating_mul(4));
        let put = ByteMemory::<F>::new(&mut bytes).write(a, &word.to_be_bytes());
        same(put, Ok(()))?;
    }
    Ok(bytes)
}

// What is due of a window whose opening has this answer.
fn due_report(type_number: u8, answer: Answer) -> WindowReport {
    let (reason, entry) = answer;
    WindowReport {
        type_number,
        reason,
        entry,
        lookups: 0,
        fills: 0,
    }
}

// Opens a window and closes it, and compares what it says meanwhile.
fn check_window<P: Mapping, M: Memory + Drop>(
    setting: Setting,
    below: M,
    board: &mut [u8],
    answer: Answer,
) -> Result<(), Fail>
    requires { M.coherent below }
{
    let set = armed_set::<P>(&setting.registers)?;
    let is_open = answer == OPEN;
    let image = if is_open { setting.registers[0] } else { 0 };
    let size = below.size();
    let window = Window::open(set, below, board);
    same(window.report(), due_report(setting.type_number, answer))?;
    same(window.opening().is_ok(), is_open)?;
    same(window.size(), image)?;
    same(window.close().size(), size)
}

// The answer of one opening over the memory that these bytes hold. Its board is all 255 before, and has to be all zero afterwards; the
// bytes have to be as they were.
pub(crate) fn check_opening<P: Mapping, F: LineFormat>(
    heap: Global,
    setting: Setting,
    bytes: &mut [u8],
    answer: Answer,
) -> Result<(), Fail> {
    let before = bytes.to_vec(heap)?;
    let mut board = vec![in heap; 255u8; setting.board]?;
    let memory = ByteMemory::<F>::new(bytes);
    check_window::<P, ByteMemory<F>>(setting, memory, &mut board, answer)?;
    same(board.iter().all(|note| *note == 0), true)?;
    same(&*bytes == before.as_slice(), true)
}

// The same for several tables, each over a memory of its own.
pub(crate) fn check_tables<P: Mapping, F: LineFormat>(
    heap: Global,
    setting: Setting,
    cases: &[(&[Entry], Answer)],
) -> Result<(), Fail> {
    for (entries, answer) in cases {
        let mut bytes = table_bytes::<F>(heap, setting, entries)?;
        check_opening::<P, F>(heap, setting, &mut bytes, *answer)?;
    }
    Ok(())
}
