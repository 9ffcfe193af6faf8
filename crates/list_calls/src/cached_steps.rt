// Caches call by call: each answer, and what is counted after the call, written out.
use crate::cached::{cache_over, counts};
use crate::copy::PlainCopy;
use crate::faults::spoilt_bottom;
use crate::list::{Step, check_answers, same_records, steps_list};
use crate::stack::{CHECKED_BYTES, Copied, bottom_of};
use cache::Cache;
use cache_list::play_cache;
use checked::CheckByte;
use expect::same;
use memory::{Access, Cause, Fault, Memory};
use plain::CellsAlone;
use std::alloc::Global;
use std::test::Fail;
use units::{CHECKED_LINE, LINE};

// A call, and reads, hits, prefetches and the share after it.
type Counted = (Step, [u64; 4]);

// The steps on a cache over this memory.
fn check_steps<M: Memory + Drop>(
    heap: Global,
    below: Copied<M>,
    steps: &[Counted],
) -> Result<(), Fail>
    requires { M.Memory.coherent below.memory }
{
    let Copied {
        memory: mut cache,
        mut copy,
    } = cache_over(heap, below)?;
    for step in steps {
        check_step(heap, &mut cache, &mut copy, *step)?;
    }
    Ok(())
}

// One step, whose buffer is that of the copy.
fn check_step<M: Memory>(
    heap: Global,
    cache: &mut Cache<M>,
    copy: &mut PlainCopy,
    counted: Counted,
) -> Result<(), Fail>
    requires { ⟦<Cache<M> as Memory>⟧.coherent cache.old }
    ensures { ⟦<Cache<M> as Memory>⟧.coherent cache.new }
{
    let (step, after) = counted;
    let mut calls = steps_list(heap, &[step])?;
    let due = copy.due(heap, &calls)?;
    let report = play_cache(cache, &mut calls);
    same(report, counts(after))?;
    check_answers(&calls, &[step])?;
    same_records(&calls, &due)
}

// On plain and on checked memory of so many lines.
fn check_over(heap: Global, lines: u64, steps: &[Counted]) -> Result<(), Fail> {
    let mut bytes = vec![in heap; 0u8; lines.saturating_mul(LINE) as usize]?;
    check_steps(
        heap,
        bottom_of::<CellsAlone>(heap, &mut bytes, lines)?,
        steps,
    )?;
    let mut bytes = vec![in heap; 0u8; (lines as usize).saturating_mul(CHECKED_LINE)]?;
    check_steps(
        heap,
        bottom_of::<CheckByte>(heap, &mut bytes, lines)?,
        steps,
    )
}

fn read(a: u64, n: usize) -> Step {
    (Access::Read, a, n, Ok(()))
}

fn write(a: u64, n: usize) -> Step {
    (Access::Write, a, n, Ok(()))
}

// A call that is refused with this cause, by a layer at this depth.
fn refused(access: Access, a: u64, n: usize, cause: Cause, depth: u8) -> Step {
    let fault = Fault {
        depth,
        ..Fault::here(cause, a)
    };
    (access, a, n, Err(fault))
}

// Lines 0, 1, 1 and 3 of four. Line 4 lies past the end.
#[test]
fn four_lines(rt: HostRuntime) -> Result<(), Fail> {
    check_over(
        rt.alloc(),
        4,
        &[
            (read(5, 1), [1, 0, 1, 0]),
            (read(128, 1), [2, 1, 2, 500]),
            (read(255, 1), [3, 2, 2, 666]),
            (read(384, 1), [4, 2, 2, 500]),
        ],
    )
}

// Lines 0, 8 and 16 belong to one set, and lines 1, 9 and 17 to the next one.
#[test]
fn sets_and_ages(rt: HostRuntime) -> Result<(), Fail> {
    let heap = rt.alloc();
    let steps = [
        (read(0, 1), [1, 0, 1, 0]),
        (read(1024, 1), [2, 0, 2, 0]),
        (read(1, 1), [3, 1, 2, 333]),
        // line 0 leaves, though it was hit last, and line 1
        (read(2175, 1), [4, 1, 3, 250]),
        // line 8 leaves, and line 9
        (read(0, 1), [5, 1, 4, 200]),
        (write(2048, 1), [5, 1, 4, 200]),
        // line 17 is held
        (read(2048, 1), [6, 1, 4, 166]),
        (read(2176, 1), [7, 2, 5, 285]),
        (read(1152, 1), [8, 2, 6, 250]),
    ];
    check_over(heap, 128, &steps)?;
    check_over(heap, 24, &steps)
}

// Writes to a held line, and to a prefetched one.
#[test]
fn writes(rt: HostRuntime) -> Result<(), Fail> {
    check_over(
        rt.alloc(),
        24,
        &[
            (read(0, 4), [1, 0, 1, 0]),
            (read(4, 4), [2, 1, 1, 500]),
            // line 0 is dropped, and line 1 stays
            (write(2, 4), [2, 1, 1, 500]),
            (read(0, 4), [3, 1, 1, 333]),
            // line 1 is dropped, which was prefetched
            (write(128, 1), [3, 1, 1, 333]),
            (read(128, 2), [4, 1, 2, 250]),
            (read(0, 128), [5, 2, 2, 400]),
        ],
    )
}

// Calls that the cache itself refuses, among which nothing is dropped; and the last line, which has no next one.
#[test]
fn refused_runs(rt: HostRuntime) -> Result<(), Fail> {
    let bad = |access, a, n| refused(access, a, n, Cause::BadRun, 0);
    let past = |access, a, n| refused(access, a, n, Cause::PastEnd, 0);
    check_over(
        rt.alloc(),
        24,
        &[
            (read(0, 128), [1, 0, 1, 0]),
            (bad(Access::Write, 126, 4), [1, 0, 1, 0]),
            (read(128, 128), [2, 1, 2, 500]),
            (past(Access::Write, 3072, 1), [2, 1, 2, 500]),
            (bad(Access::Read, 126, 4), [2, 1, 2, 500]),
            (bad(Access::Read, 0, 0), [2, 1, 2, 500]),
            (past(Access::Read, 3072, 1), [2, 1, 2, 500]),
            (write(2944, 128), [2, 1, 2, 500]),
            // line 24 lies past the end
            (read(2944, 128), [3, 1, 2, 333]),
            (read(3071, 1), [4, 2, 2, 500]),
            // line 2 was prefetched
            (read(256, 1), [5, 3, 3, 600]),
        ],
    )
}

// Line 5 fails its check: it is not kept, by a miss or by a prefetch, and the lines beside it are.
#[test]
fn failed_check(rt: HostRuntime) -> Result<(), Fail> {
    let heap = rt.alloc();
    let mut bytes = vec![in heap; 0u8; CHECKED_BYTES]?;
    let bottom = spoilt_bottom(heap, &mut bytes, 5)?;
    check_steps(
        heap,
        bottom,
        &[
            (read(512, 4), [1, 0, 0, 0]),
            (
                refused(Access::Read, 644, 4, Cause::FailedCheck, 1),
                [2, 0, 0, 0],
            ),
            (
                refused(Access::Read, 640, 128, Cause::FailedCheck, 1),
                [3, 0, 0, 0],
            ),
            (read(768, 1), [4, 0, 1, 0]),
            (read(515, 1), [5, 1, 1, 200]),
            (
                refused(Access::Write, 641, 1, Cause::FailedCheck, 1),
                [5, 1, 1, 200],
            ),
            (read(512, 1), [6, 2, 1, 333]),
            (read(896, 1), [7, 3, 2, 428]),
        ],
    )
}
