// What the tests of calls go by: registers, a page table, and the bytes of a memory of eight pages.
use memory::{ByteMemory, LineFormat, Memory};
use std::alloc::Global;
use std::test::Fail;

// An entry of a page table: its number, and its word. The first digit of the word in base 16 has the bits valid (8), referenced (4),
// modified (2) and out (1), and the seven others are the frame.
pub(crate) type Entry = (u64, u32);

// Lines in eight pages.
const LINES: u64 = 256;

// Bytes that hold so many lines plainly, and with a check byte each.
pub(crate) const PLAIN_BYTES: usize = 32768;

pub(crate) const CHECKED_BYTES: usize = 33024;

// A mapping and its page table.
#[derive(Clone, Copy)]
pub(crate) struct Scene<'a> {
    // image size, table page, and registers 2 to 4, which a mapping that lacks them passes over
    pub(crate) registers: [u64; 5],
    pub(crate) entries: &'a [Entry],
}

// Eight objects of 32 bytes, from 96 on, one every 2176 bytes: two in each of the four pages of the data. The table lies in page 1.
//
// image    0    32    64    96    128    160    192    224
// page     0    0     1     1     2      2      3      3
// in it    96   2272  352   2528  608    2784   864    3040
pub(crate) const OBJECTS: [u64; 5] = [256, 1, 32, 2176, 96];

// All four pages are in memory.
pub(crate) const LIVE: Scene = Scene {
    registers: OBJECTS,
    entries: &[
        (0, 0x8000_0005),
        (1, 0x8000_0000),
        (2, 0x8000_0003),
        (3, 0x8000_0006),
    ],
};

// Bytes, so many of them, that hold eight pages of cells which look like chance, but for the table's page: zeros and these entries.
pub(crate) fn scene_bytes<F: LineFormat>(
    heap: Global,
    borrowed: usize,
    scene: Scene,
) -> Result<Vec<u8>, Fail> {
    let mut bytes = vec![in heap; 0u8; borrowed]?;
    let mut last = 1;
    for number in 0..LINES {
        let mut line = [0; 128];
        if number / 32 != scene.registers[1] {
            last = chance(&mut line, last);
        }
        let _ = ByteMemory::<F>::new(&mut bytes).write(number.saturating_mul(128), &line);
    }
    put_entries::<F>(
        &mut bytes,
        scene.registers[1].saturating_mul(4096),
        scene.entries,
    );
    Ok(bytes)
}

// Puts entries into the table that starts at this address.
pub(crate) fn put_entries<F: LineFormat>(bytes: &mut [u8], start: u64, entries: &[Entry]) {
    for (number, word) in entries {
        let a = start.saturating_add(number.saturating_mul(4));
        let _ = ByteMemory::<F>::new(bytes).write(a, &word.to_be_bytes());
    }
}

// Fills a line from the number of the line before, and answers the number of this one. Numbers come again after 65,536 bytes.
fn chance(line: &mut [u8], last: u16) -> u16 {
    let mut next = last;
    for byte in line {
        next = next.wrapping_mul(25173).wrapping_add(13849);
        let [top, _] = next.to_be_bytes();
        *byte = top;
    }
    next
}
