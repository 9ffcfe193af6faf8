// What a cache holds and counts, worked out call by call from the rules alone.
use crate::copy::PlainCopy;
use cache::CacheReport;
use call_list::CallRecord;
use memory::{Access, Cause};
use std::alloc::{AllocError, Global};
use units::LINE;

// The number of sets, and how many lines of one are held at most.
const SETS: u64 = 8;

const WAYS: usize = 2;

#[derive(Clone, Copy)]
struct HeldLine {
    number: u64,
    prefetched: bool,
}

// The lines stand in the order in which they were kept.
#[derive(Drop)]
pub(crate) struct HeldCopy {
    lines: Vec<HeldLine>,
    reads: u64,
    hits: u64,
    prefetches: u64,
}

impl HeldCopy {
    pub(crate) fn new(heap: Global) -> HeldCopy {
        HeldCopy {
            lines: Vec::new(heap),
            reads: 0,
            hits: 0,
            prefetches: 0,
        }
    }

    // Goes through calls that were made on a cache with these cells: the faults among them stay.
    pub(crate) fn follow(
        &mut self,
        copy: &PlainCopy,
        calls: &[CallRecord],
    ) -> Result<(), AllocError> {
        for call in calls {
            let line = call.address / LINE;
            match call.access {
                Access::Read => if taken(call) {
                    self.read(copy, line)?;
                },
                Access::Write => if call.answer == Some(Ok(())) {
                    self.lines.retain(|held| held.number != line);
                },
            }
        }
        Ok(())
    }

    fn read(&mut self, copy: &PlainCopy, line: u64) -> Result<(), AllocError> {
        self.reads = self.reads.saturating_add(1);
        if self.holds(line) {
            self.hits = self.hits.saturating_add(1);
            if self.clear_prefetched(line) {
                self.prefetch(copy, line.saturating_add(1))?;
            }
        } else if copy.whole(line) {
            self.keep(line, false)?;
            self.prefetch(copy, line.saturating_add(1))?;
        }
        Ok(())
    }

    fn prefetch(&mut self, copy: &PlainCopy, line: u64) -> Result<(), AllocError> {
        if !self.holds(line) && copy.whole(line) {
            self.keep(line, true)?;
            self.prefetches = self.prefetches.saturating_add(1);
        }
        Ok(())
    }

    fn holds(&self, line: u64) -> bool {
        self.lines.iter().any(|held| held.number == line)
    }

    // Whether the line was prefetched. It is so no longer.
    fn clear_prefetched(&mut self, line: u64) -> bool {
        for held in &mut self.lines {
            if held.number == line {
                let prefetched = held.prefetched;
                held.prefetched = false;
                return prefetched;
            }
        }
        false
    }

    // Of a full set the first one leaves.
    fn keep(&mut self, number: u64, prefetched: bool) -> Result<(), AllocError> {
        let set = number % SETS;
        let beside = self
            .lines
            .iter()
            .filter(|held| held.number % SETS == set)
            .count();
        if beside >= WAYS {
            let oldest = self
                .lines
                .iter()
                .find(|held| held.number % SETS == set)
                .map(|held| held.number);
            self.lines.retain(|held| Some(held.number) != oldest);
        }
        self.lines.push(HeldLine { number, prefetched })?;
        Ok(())
    }

    pub(crate) fn report(&self) -> CacheReport {
        CacheReport {
            reads: self.reads,
            hits: self.hits,
            prefetches: self.prefetches,
            share: self
                .hits
                .saturating_mul(1000)
                .checked_div(self.reads)
                .unwrap_or(0),
        }
    }
}

// Whether the run has come past causes 1 and 2, which no layer passes up.
fn taken(call: &CallRecord) -> bool {
    match call.answer {
        Some(Err(fault)) => fault.cause != Cause::BadRun && fault.cause != Cause::PastEnd,
        _ => true,
    }
}
