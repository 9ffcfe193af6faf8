// Lists of calls, and a comparison of two of them.
use crate::copy::PlainCopy;
use call_list::CallRecord;
use expect::same;
use memory::{Access, Cause, Fault};
use std::alloc::{AllocError, Global};
use std::test::Fail;
use units::{LINE, PAGE};

// Numbers that look like chance. The same first number gives the same ones again.
#[derive(Drop)]
pub(crate) struct Chance(pub(crate) u64);

impl Chance {
    // A number from 0 on, up to this one.
    fn up_to(&mut self, last: u32) -> u64 {
        self.0 = self
            .0
            .wrapping_mul(6_364_136_223_846_793_005)
            .wrapping_add(1_442_695_040_888_963_407);
        (self.0 >> 33) % (u64::from(last) + 1)
    }

    pub(crate) fn bytes(&mut self, heap: Global, n: usize) -> Result<Vec<u8>, AllocError> {
        let mut bytes = vec![in heap; 0u8; n]?;
        for byte in &mut bytes {
            *byte = (self.up_to(255) & 0xff) as u8;
        }
        Ok(bytes)
    }

    fn access(&mut self) -> Access {
        if self.up_to(1) == 0 {
            Access::Read
        } else {
            Access::Write
        }
    }

    // An address at which a run of n bytes begins or ends at a multiple of the unit, or one byte beside it.
    fn beside(&mut self, size: u64, unit: u64, n: u64) -> u64 {
        let multiples = size.checked_div(unit).unwrap_or(0).min(1 << 20);
        let border = self.up_to(multiples as u32).saturating_mul(unit);
        let address = border.wrapping_add(self.up_to(2)).wrapping_sub(1);
        if self.up_to(1) == 0 {
            address
        } else {
            address.wrapping_sub(n)
        }
    }
}

pub(crate) fn call(access: Access, address: u64, buffer: Vec<u8>) -> CallRecord {
    CallRecord {
        access,
        address,
        buffer,
        answer: None,
    }
}

// A call, the address and the length of its run, and its answer.
pub(crate) type Step = (Access, u64, usize, Result<(), Fault>);

// The calls of these steps. Each buffer holds EE, which is also what a write puts.
pub(crate) fn steps_list(heap: Global, steps: &[Step]) -> Result<Vec<CallRecord>, AllocError> {
    let mut calls = Vec::new(heap);
    for (access, a, n, _) in steps {
        calls.push(call(*access, *a, vec![in heap; 0xee; *n]?))?;
    }
    Ok(calls)
}

// Each call has to have the answer of its step.
pub(crate) fn check_answers(calls: &[CallRecord], steps: &[Step]) -> Result<(), Fail> {
    for (call, (.., answer)) in calls.iter().zip(steps) {
        same(call.answer, Some(*answer))?;
    }
    Ok(())
}

// Runs of each length from 0 to 130, in no order, at and beside the borders of objects of each size, of lines, of pages and of the memory.
pub(crate) fn mixed_list(
    heap: Global,
    first: u64,
    size: u64,
) -> Result<Vec<CallRecord>, AllocError> {
    let mut chance = Chance(first);
    let mut calls = Vec::new(heap);
    for index in 0..131 {
        let index: u64 = index;
        let n = index.wrapping_mul(37) % 131;
        for unit in [4, 8, 16, 32, 64, LINE, PAGE, size] {
            let address = chance.beside(size, unit, n);
            let access = chance.access();
            calls.push(call(access, address, chance.bytes(heap, n as usize)?))?;
        }
    }
    Ok(calls)
}

// A write of each line, from address 0 on.
pub(crate) fn filling_list(heap: Global, lines: u64) -> Result<Vec<CallRecord>, AllocError> {
    let mut chance = Chance(lines);
    let mut calls = Vec::new(heap);
    for line in 0..lines {
        let address = line.saturating_mul(LINE);
        let bytes = chance.bytes(heap, LINE as usize)?;
        calls.push(call(Access::Write, address, bytes))?;
    }
    Ok(calls)
}

// A write of each word, side by side from this address on.
pub(crate) fn words_list(
    heap: Global,
    start: u64,
    words: &[u32],
) -> Result<Vec<CallRecord>, AllocError> {
    let mut calls = Vec::new(heap);
    for (number, word) in (0..).zip(words) {
        let number: u64 = number;
        let address = start.saturating_add(number.saturating_mul(4));
        let bytes = word.to_be_bytes().to_vec(heap)?;
        calls.push(call(Access::Write, address, bytes))?;
    }
    Ok(calls)
}

// A read of each line, and of each cell of a line that is not read whole.
pub(crate) fn reading_list(heap: Global, copy: &PlainCopy) -> Result<Vec<CallRecord>, AllocError> {
    let mut calls = Vec::new(heap);
    for (number, cells) in (0..).zip(copy.cells.chunks(LINE as usize)) {
        let number: u64 = number;
        let line = number.saturating_mul(LINE);
        calls.push(call(Access::Read, line, vec![in heap; 0u8; LINE as usize]?))?;
        if cells.iter().any(|cell| cell.is_err()) {
            for offset in 0..LINE {
                let address = line.saturating_add(offset);
                calls.push(call(Access::Read, address, vec![in heap; 0u8; 1]?))?;
            }
        }
    }
    Ok(calls)
}

// Each record has to be the one that is due.
pub(crate) fn same_records(found: &[CallRecord], due: &[CallRecord]) -> Result<(), Fail> {
    same(found.len(), due.len())?;
    for (found, due) in found.iter().zip(due) {
        same(found.access, due.access)?;
        same(found.address, due.address)?;
        same(found.answer, due.answer)?;
        same(found.buffer == due.buffer, true)?;
    }
    Ok(())
}

// So many calls of a list come to this answer.
fn count(due: &[CallRecord], access: Access, cause: Option<Cause>) -> usize {
    due.iter()
        .filter(|call| call.access == access)
        .filter(|call| call
            .answer
            .map(|answer| answer.err().map(|fault| fault.cause))
            == Some(cause))
        .count()
}

// A mixed list has at least 20 calls of each sort, whether the memory has one line or many.
#[test]
fn each_sort_of_call(rt: HostRuntime) -> Result<(), Fail> {
    let heap = rt.alloc();
    for size in [128, 2048, 12288, 65536] {
        let mut copy = PlainCopy {
            cells: vec![in heap; Ok(0u8); size as usize]?,
        };
        let due = copy.due(heap, &mixed_list(heap, 1, size)?)?;
        for access in [Access::Read, Access::Write] {
            for cause in [None, Some(Cause::BadRun), Some(Cause::PastEnd)] {
                same(count(&due, access, cause) >= 20, true)?;
            }
        }
    }
    Ok(())
}
