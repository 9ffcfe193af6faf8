// Set-ups that are refused, and windows that stay shut, alone, over caches and under them.
ghost use Rattle.std.specs.Prelude.{IfOk};

use crate::cached::counts;
use crate::copy::PlainCopy;
use crate::layer::Layer;
use crate::list::{mixed_list, same_records, words_list};
use crate::stack::{Copied, PLAIN_BYTES, bottom, check_list};
use call_list::CallRecord;
use card::{
    CacheRun, CachedRun, RegisterWrite, SetUpRefusal, WindowRun, run_cache_over_window, run_window,
    run_window_over_cache,
};
use direct::Direct;
use expect::{armed_set, same};
use mapping::{ArmingRefusal, Mapping, RegisterRefusal};
use memory::Memory;
use plain::{CellsAlone, Plain};
use std::alloc::Global;
use std::test::Fail;
use stride::Stride;
use window::{Window, WindowReport};
use window_list::play_window;

// Values for registers, by number. The memory comes back, and neither it nor the list nor the board was touched.
fn check_refused<P: Mapping>(
    heap: Global,
    values: &[(u64, u64)],
    due: SetUpRefusal,
) -> Result<(), Fail> {
    let mut writes = Vec::new(heap);
    for (number, value) in values {
        writes.push(write(*number, *value))?;
    }
    let mut bytes = vec![in heap; 0u8; PLAIN_BYTES]?;
    let Copied { memory, copy } = bottom::<CellsAlone>(heap, &mut bytes)?;
    let mut board = [7; 40];
    let mut calls = mixed_list(heap, 4, 256)?;
    let memory = refused_runs::<P, Plain>(&writes, memory, &mut board, &mut calls, due)?;
    same(memory.size(), PLAIN_BYTES as u64)?;
    same_records(&calls, &mixed_list(heap, 4, 256)?)?;
    same(board, [7; 40])?;
    same_bytes(&bytes, &copy)
}

// A window alone, one over a cache, and one under a cache.
fn refused_runs<P: Mapping, M: Memory + Drop>(
    writes: &[RegisterWrite],
    memory: M,
    board: &mut [u8],
    calls: &mut [CallRecord],
    due: SetUpRefusal,
) -> Result<M, Fail>
    requires { M.Memory.coherent memory }
    ensures { IfOk result M.Memory.coherent }
{
    let WindowRun { memory, outcome } = run_window::<P, M>(writes, memory, board, calls);
    same(outcome, Err(due))?;
    let CachedRun {
        memory,
        outcome,
        cache,
    } = run_window_over_cache::<P, M>(writes, memory, board, calls);
    same(outcome, Err(due))?;
    same(cache, counts([0; 4]))?;
    let CacheRun { memory, outcome } = run_cache_over_window::<P, M>(writes, memory, board, calls);
    same(outcome, Err(due))?;
    Ok(memory)
}

// The bytes of a plain memory are the cells of its copy.
fn same_bytes(bytes: &[u8], copy: &PlainCopy) -> Result<(), Fail> {
    let mut cells = bytes.iter().zip(&copy.cells);
    same(cells.all(|(byte, cell)| Ok(*byte) == *cell), true)
}

fn write(number: u64, value: u64) -> RegisterWrite {
    RegisterWrite { number, value }
}

fn no_register(number: u64, value: u64) -> SetUpRefusal {
    SetUpRefusal::Register(write(number, value), RegisterRefusal::NoRegister)
}

fn too_wide(number: u64, value: u64) -> SetUpRefusal {
    SetUpRefusal::Register(write(number, value), RegisterRefusal::TooWide)
}

const LAST: u64 = u64::MAX;

#[test]
fn registers(rt: HostRuntime) -> Result<(), Fail> {
    let heap = rt.alloc();
    check_refused::<Direct>(heap, &[(0, 128), (2, 0)], no_register(2, 0))?;
    check_refused::<Stride>(heap, &[(4, 8), (5, 0)], no_register(5, 0))?;
    check_refused::<Stride>(heap, &[(LAST, LAST)], no_register(LAST, LAST))?;
    check_refused::<Stride>(heap, &[(1, 268_435_456)], too_wide(1, 268_435_456))?;
    check_refused::<Stride>(heap, &[(0, 128), (2, 4096)], too_wide(2, 4096))?;
    // the first of two
    check_refused::<Stride>(heap, &[(3, 65536), (9, 0)], too_wide(3, 65536))?;
    check_refused::<Stride>(heap, &[(9, 0), (3, 65536)], no_register(9, 0))
}

#[test]
fn arming(rt: HostRuntime) -> Result<(), Fail> {
    let heap = rt.alloc();
    let bad_image = SetUpRefusal::Arming(ArmingRefusal::BadImage);
    let bad_condition = SetUpRefusal::Arming(ArmingRefusal::BadCondition);
    let too_far = SetUpRefusal::Arming(ArmingRefusal::TooFar);
    check_refused::<Direct>(heap, &[], bad_image)?;
    check_refused::<Direct>(heap, &[(0, 256), (1, 268_435_455), (0, 100)], bad_image)?;
    check_refused::<Stride>(heap, &[(0, 128), (2, 4095)], bad_condition)?;
    let objects = [(0, 256), (2, 32), (3, 2176), (4, 97)];
    check_refused::<Stride>(heap, &objects, bad_condition)?;
    let far = [(0, 536_871_040), (2, 128), (3, 4096), (4, 3968)];
    check_refused::<Stride>(heap, &far, too_far)
}

// Calls on a memory that has no cell, and the records that are due of them.
fn refused_list(heap: Global) -> Result<(Vec<CallRecord>, Vec<CallRecord>), Fail> {
    let mut none = PlainCopy {
        cells: Vec::new(heap),
    };
    let calls = mixed_list(heap, 5, 256)?;
    let due = none.due(heap, &calls)?;
    Ok((calls, due))
}

// The list on windows that stay shut, over a cache and under one. An opening that is refused with 21 or 22 reads nothing, and any other the
// line of the table.
fn check_cached_calls<M: Memory + Drop>(
    heap: Global,
    memory: M,
    layer: Layer,
    board: &mut [u8],
    due: WindowReport,
) -> Result<M, Fail>
    requires { M.Memory.coherent memory }
    ensures { IfOk result M.Memory.coherent }
{
    let writes = layer.writes(heap)?;
    let (mut calls, refused) = refused_list(heap)?;
    let CachedRun {
        memory,
        outcome,
        cache,
    } = run_window_over_cache::<Stride, M>(&writes, memory, board, &mut calls);
    same(outcome, Ok(due))?;
    let read = u64::from(due.reason > 22);
    same(cache, counts([read, 0, read, 0]))?;
    same_records(&calls, &refused)?;
    let (mut calls, refused) = refused_list(heap)?;
    let CacheRun { memory, outcome } = run_cache_over_window::<Stride, M>(
        &writes, memory, board, &mut calls,
    );
    same(outcome, Ok((due, counts([0; 4]))))?;
    same_records(&calls, &refused)?;
    Ok(memory)
}

// The list by `run_window`, and by `play_window`, on windows that stay shut.
fn check_calls<M: Memory + Drop>(
    heap: Global,
    memory: M,
    layer: Layer,
    board: &mut [u8],
    due: WindowReport,
) -> Result<(), Fail>
    requires { M.Memory.coherent memory }
{
    let (mut calls, refused) = refused_list(heap)?;
    let writes = layer.writes(heap)?;
    let WindowRun { memory, outcome } = run_window::<Stride, M>(&writes, memory, board, &mut calls);
    same(outcome, Ok(due))?;
    same_records(&calls, &refused)?;
    let set = armed_set::<Stride>(layer.registers)?;
    let mut window = Window::open(set, memory, board);
    let (mut calls, refused) = refused_list(heap)?;
    same(play_window(&mut window, &mut calls), due)?;
    same_records(&calls, &refused)?;
    same(window.size(), 0)
}

// Objects in two pages, by a table of these entries in this page, and a board of so many bytes. Nothing is counted, the board is all zero,
// and the memory is as it was.
fn check_shut(
    heap: Global,
    page: u64,
    words: &[u32],
    board: usize,
    (reason, entry): (u8, u32),
) -> Result<(), Fail> {
    let layer = Layer {
        registers: &[128, page, 32, 2176, 96],
        words,
        bytes: 0,
    };
    let mut bytes = vec![in heap; 0u8; PLAIN_BYTES]?;
    let Copied {
        mut memory,
        mut copy,
    } = bottom::<CellsAlone>(heap, &mut bytes)?;
    let table = words_list(heap, layer.table(), words)?;
    check_list(heap, &mut memory, &mut copy, table)?;
    let mut board = vec![in heap; 7u8; board]?;
    let due = WindowReport {
        type_number: 3,
        reason,
        entry,
        lookups: 0,
        fills: 0,
    };
    let memory = check_cached_calls(heap, memory, layer, &mut board, due)?;
    check_calls(heap, memory, layer, &mut board, due)?;
    same(board.iter().all(|byte| *byte == 0), true)?;
    same_bytes(&bytes, &copy)
}

// The memory has 40 pages.
#[test]
fn shut(rt: HostRuntime) -> Result<(), Fail> {
    let heap = rt.alloc();
    let good = [0x8000_0005, 0x8000_0004];
    check_shut(heap, 3, &good, 39, (21, 0))?;
    check_shut(heap, 3, &good, 0, (21, 0))?;
    check_shut(heap, 40, &good, 40, (22, 0))?;
    check_shut(heap, 3, &[0x8000_0005, 0x8000_0028], 40, (23, 1))?;
    check_shut(heap, 3, &[0x8000_0003, 0x8000_0028], 40, (24, 0))?;
    check_shut(heap, 3, &[0x8000_0005, 0xe000_0005], 41, (25, 1))
}
