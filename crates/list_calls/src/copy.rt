// A plain copy of a memory: its cells, and what they make of a call by the rules alone.
use call_list::CallRecord;
use memory::{Access, Cause, Fault};
use std::alloc::{AllocError, Global};
use units::{LINE, PAGE};

// A byte, or the fault that a call on the cell is refused with.
pub(crate) type Cell = Result<u8, Fault>;

// A cell of the memory below, as a layer passes it up: a fault is one deeper.
pub(crate) fn passed_up(cell: Cell) -> Cell {
    cell.map_err(|fault| Fault {
        depth: fault.depth.saturating_add(1),
        ..fault
    })
}

#[derive(Drop)]
pub(crate) struct PlainCopy {
    pub(crate) cells: Vec<Cell>,
}

impl PlainCopy {
    pub(crate) fn size(&self) -> u64 {
        self.cells.len() as u64
    }

    pub(crate) fn pages(&self) -> usize {
        self.cells.len() / PAGE as usize
    }

    // How many cells are bytes.
    pub(crate) fn bytes(&self) -> usize {
        self.cells.iter().filter(|cell| cell.is_ok()).count()
    }

    // The cells of a cache over these.
    pub(crate) fn over_cache(&self, heap: Global) -> Result<PlainCopy, AllocError> {
        let mut cells = Vec::new(heap);
        for cell in &self.cells {
            cells.push(passed_up(*cell))?;
        }
        Ok(PlainCopy { cells })
    }

    // Puts the bytes of a cache over these cells where they stand.
    pub(crate) fn take_bytes(&mut self, above: &PlainCopy) {
        for (cell, byte) in self.cells.iter_mut().zip(&above.cells) {
            if byte.is_ok() {
                *cell = *byte;
            }
        }
    }

    // Whether all cells of the line are bytes.
    pub(crate) fn whole(&self, line: u64) -> bool {
        let first = line.saturating_mul(LINE) as usize;
        let cells = self.cells.get(first..first.saturating_add(LINE as usize));
        cells.is_some_and(|cells| cells.iter().all(|cell| cell.is_ok()))
    }

    // Makes each cell of a line one that fails its check.
    pub(crate) fn spoil(&mut self, line: u64) {
        for (place, cell) in (0..).zip(&mut self.cells) {
            if place / LINE == line {
                *cell = Err(Fault::here(Cause::FailedCheck, place));
            }
        }
    }

    // The records that are due of these calls, made one after another. The cells are then as the calls leave them.
    pub(crate) fn due(
        &mut self,
        heap: Global,
        calls: &[CallRecord],
    ) -> Result<Vec<CallRecord>, AllocError> {
        let mut due = Vec::new(heap);
        for call in calls {
            let mut buffer = call.buffer.clone()?;
            let answer = self.make(call.access, call.address, &mut buffer);
            due.push(CallRecord {
                access: call.access,
                address: call.address,
                buffer,
                answer: Some(answer),
            })?;
        }
        Ok(due)
    }

    fn make(&mut self, access: Access, a: u64, buffer: &mut [u8]) -> Result<(), Fault> {
        let run = self.run(a, buffer.len())?;
        for cell in run.iter() {
            (*cell)?;
        }
        for (cell, byte) in run.iter_mut().zip(buffer) {
            match access {
                Access::Read => *byte = (*cell)?,
                Access::Write => *cell = Ok(*byte),
            }
        }
        Ok(())
    }

    // The cells of a run that fits one line and the size.
    fn run(&mut self, a: u64, n: usize) -> Result<&mut [Cell], Fault> {
        if n == 0 || (a % LINE).saturating_add(n as u64) > LINE {
            return Err(Fault::here(Cause::BadRun, a));
        }
        let first = a as usize;
        self.cells
            .as_mut_slice()
            .get_mut(first..first.saturating_add(n))
            .ok_or(Fault::here(Cause::PastEnd, a))
    }
}
