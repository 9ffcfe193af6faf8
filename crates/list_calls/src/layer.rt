// One window of a stack: what is written for it, and what its cells are.
use crate::copy::{Cell, PlainCopy, passed_up};
use crate::placing::Placing;
use card::RegisterWrite;
use memory::{Cause, Fault};
use std::alloc::{AllocError, Global};
use std::test::Fail;
use units::PAGE;

#[derive(Clone, Copy)]
pub(crate) struct Layer<'a> {
    // from register 0 on: the size of the image, the page where the table starts, and those of the mapping
    pub(crate) registers: &'a [u64],
    // the entries of the table, from 0 on. The first digit of a word in base 16 has the bits valid (8), referenced (4), modified (2)
    // and out (1), and the seven others are the frame.
    pub(crate) words: &'a [u32],
    // how many cells of the image are bytes
    pub(crate) bytes: usize,
}

// 32 of the 40 pages of a bottom, and not page 3, in which the table stands.
pub(crate) const LOWEST: [u32; 32] = [
    0x8000_000c,
    0x8000_0013,
    0x8000_001a,
    0x8000_0021,
    0x8000_0000,
    0x8000_0007,
    0x8000_000e,
    0x8000_0015,
    0x8000_001c,
    0x8000_0023,
    0x8000_0002,
    0x8000_0009,
    0x8000_0010,
    0x8000_0017,
    0x8000_001e,
    0x8000_0025,
    0x8000_0004,
    0x8000_000b,
    0x8000_0012,
    0x8000_0019,
    0x8000_0020,
    0x8000_0027,
    0x8000_0006,
    0x8000_000d,
    0x8000_0014,
    0x8000_001b,
    0x8000_0022,
    0x8000_0001,
    0x8000_0008,
    0x8000_000f,
    0x8000_0016,
    0x8000_001d,
];

// Pages of the lowest image that are bytes by every mapping, but for page 5, in which the table stands.
const MIDDLE: [u32; 7] = [
    0x8000_000e,
    0x8000_0002,
    0x8000_0009,
    0x8000_0001,
    0x8000_000d,
    0x8000_0006,
    0x8000_000a,
];

// Page 0 of the middle image; the table stands in page 2.
const HIGHEST: [u32; 1] = [0x8000_0000];

// The window with so many windows below it, all of whose pages are in memory.
pub(crate) fn live<P: Placing>(level: usize) -> Layer<'static> {
    let (registers, bytes) = P::registers(level);
    let words: &'static [u32] = match level {
        0 => &LOWEST,
        1 => &MIDDLE,
        _ => &HIGHEST,
    };
    Layer {
        registers,
        words,
        bytes,
    }
}

impl Layer<'_> {
    // Where the table begins.
    pub(crate) fn table(self) -> u64 {
        let page = self.registers.get(1).copied().unwrap_or(0);
        page.saturating_mul(PAGE)
    }

    pub(crate) fn writes(self, heap: Global) -> Result<Vec<RegisterWrite>, AllocError> {
        let mut writes = Vec::new(heap);
        for (number, value) in (0..).zip(self.registers) {
            writes.push(RegisterWrite {
                number,
                value: *value,
            })?;
        }
        Ok(writes)
    }

    // The cells of the image over these ones.
    pub(crate) fn over<P: Placing>(
        self,
        heap: Global,
        below: &PlainCopy,
    ) -> Result<PlainCopy, Fail> {
        let image = self.registers.first().copied().unwrap_or(0);
        let mut cells = Vec::new(heap);
        for s in 0..image {
            cells.push(self.cell::<P>(below, s))?;
        }
        Ok(PlainCopy { cells })
    }

    fn cell<P: Placing>(self, below: &PlainCopy, s: u64) -> Cell {
        let v = P::place(self.registers, s).ok_or(Fault::here(Cause::Blank, s))?;
        let entry = self.table().saturating_add((v / PAGE).saturating_mul(4));
        let word = u32::from_be_bytes([
            cell_below(below, entry)?,
            cell_below(below, entry.saturating_add(1))?,
            cell_below(below, entry.saturating_add(2))?,
            cell_below(below, entry.saturating_add(3))?,
        ]);
        if word & 0x8000_0000 == 0 {
            return Err(Fault::here(Cause::NoPage, s));
        }
        if word & 0x1000_0000 != 0 {
            return Err(Fault::here(Cause::PageOut, s));
        }
        let frame = u64::from(word & 0x0fff_ffff);
        cell_below(below, frame.saturating_mul(PAGE).saturating_add(v % PAGE))
    }
}

// A cell of the memory below, as the window passes it up.
fn cell_below(below: &PlainCopy, a: u64) -> Cell {
    let cell = below.cells.get(a as usize).copied();
    passed_up(cell.unwrap_or(Err(Fault::here(Cause::PastEnd, a))))
}
