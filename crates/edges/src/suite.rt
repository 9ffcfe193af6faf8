// What every memory answers at the edges of its addresses. Each memory of the library runs it.
use expect::same;
use memory::{Cause, Fault, Memory};
use std::test::Fail;

const LAST: u64 = u64::MAX;

// Reads a byte that a write put there, with its neighbours as they were.
fn keeps_a_byte<M: Memory>(memory: &mut M, a: u64) -> Result<(), Fail>
    requires { M.coherent memory.old }
    ensures { M.coherent memory.new }
{
    let mut before = [7; 3];
    let mut after = [9; 3];
    let first = memory.read(a, &mut before);
    let put = memory.write(a.saturating_add(1), &[0xa5]);
    let second = memory.read(a, &mut after);
    same(first, Ok(()))?;
    same(put, Ok(()))?;
    same(second, Ok(()))?;
    same(after[0], before[0])?;
    same(after[1], 0xa5)?;
    same(after[2], before[2])
}

// Runs that no memory takes, at any size.
fn refuses_bad_runs<M: Memory>(memory: &mut M) -> Result<(), Fail>
    requires { M.coherent memory.old }
    ensures { M.coherent memory.new }
{
    let mut none: [u8; 0] = [];
    let mut long = [1; 129];
    let mut two = [3; 2];
    let empty = memory.read(0, &mut none);
    let past_line = memory.read(0, &mut long);
    let crossing = memory.read(127, &mut two);
    let at_top = memory.write(LAST, &two);
    let far = memory.write(LAST, &[3]);
    same(empty, Err(Fault::here(Cause::BadRun, 0)))?;
    same(past_line, Err(Fault::here(Cause::BadRun, 0)))?;
    same(crossing, Err(Fault::here(Cause::BadRun, 127)))?;
    same(at_top, Err(Fault::here(Cause::BadRun, LAST)))?;
    same(far, Err(Fault::here(Cause::PastEnd, LAST)))?;
    same(two, [3, 3])
}

// The last byte of a memory, and the first past it.
fn ends_at<M: Memory>(memory: &mut M, size: u64) -> Result<(), Fail>
    requires { M.coherent memory.old }
    ensures { M.coherent memory.new }
{
    let mut one = [5];
    let told = memory.size();
    let past = memory.read(size, &mut one);
    same(told, size)?;
    same(past, Err(Fault::here(Cause::PastEnd, size)))?;
    same(one, [5])
}

// All of the above, over a memory of this size that has at least one line and no fault.
pub fn edges<M: Memory>(memory: &mut M, size: u64) -> Result<(), Fail>
    requires { M.coherent memory.old }
    ensures { M.coherent memory.new }
{
    refuses_bad_runs(memory)?;
    ends_at(memory, size)?;
    keeps_a_byte(memory, 0)?;
    keeps_a_byte(memory, size.saturating_sub(3))
}
