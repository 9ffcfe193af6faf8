// What a list leaves in the table and of the TLB, written out call by call.
ghost use Rattle.std.specs.Prelude.{IfOk};

use crate::layer::Layer;
use crate::list::{Step, check_answers, reading_list, steps_list, words_list};
use crate::placing::Placing;
use crate::stack::{CHECKED_BYTES, Copied, PLAIN_BYTES, bottom, check_list};
use card::{WindowRun, run_window};
use checked::CheckByte;
use direct::Direct;
use expect::{armed_set, same};
use mapping::Mapping;
use memory::{Access, ByteMemory, Cause, Fault, LineFormat, Memory};
use plain::CellsAlone;
use std::alloc::Global;
use std::test::Fail;
use stride::Stride;
use window::{Window, WindowReport};
use window_list::play_window;

// Cells of the memory that a list leaves: an address, a number of cells, and the byte that each of them holds.
type Change = (u64, usize, u8);

// A list on a window, and all that it leaves.
#[derive(Clone, Copy)]
struct Case<'a> {
    layer: Layer<'a>,
    steps: &'a [Step],
    report: WindowReport,
    changes: &'a [Change],
}

// The list by `play_window`, on a window that is then closed.
fn played<P: Mapping, M: Memory + Drop>(
    heap: Global,
    memory: M,
    board: &mut [u8],
    case: Case,
) -> Result<M, Fail>
    requires { M.Memory.coherent memory }
    ensures { IfOk result M.Memory.coherent }
{
    let set = armed_set::<P>(case.layer.registers)?;
    let mut window = Window::open(set, memory, board);
    let mut calls = steps_list(heap, case.steps)?;
    same(play_window(&mut window, &mut calls), case.report)?;
    check_answers(&calls, case.steps)?;
    Ok(window.close())
}

// The list by `run_window`, over a memory in which it was played before: it leaves the same again, and no more.
fn ran<P: Mapping, M: Memory + Drop>(
    heap: Global,
    memory: M,
    board: &mut [u8],
    case: Case,
) -> Result<M, Fail>
    requires { M.Memory.coherent memory }
    ensures { IfOk result M.Memory.coherent }
{
    let mut calls = steps_list(heap, case.steps)?;
    let writes = case.layer.writes(heap)?;
    let WindowRun { memory, outcome } = run_window::<P, M>(&writes, memory, board, &mut calls);
    same(outcome, Ok(case.report))?;
    check_answers(&calls, case.steps)?;
    Ok(memory)
}

fn check_over<P: Mapping + Placing, F: LineFormat>(
    heap: Global,
    borrowed: usize,
    case: Case,
) -> Result<(), Fail> {
    let mut bytes = vec![in heap; 0u8; borrowed]?;
    let Copied {
        mut memory,
        mut copy,
    } = bottom::<F>(heap, &mut bytes)?;
    let table = words_list(heap, case.layer.table(), case.layer.words)?;
    check_list(heap, &mut memory, &mut copy, table)?;
    same(case.layer.over::<P>(heap, &copy)?.bytes(), case.layer.bytes)?;
    let mut board = [0; 40];
    let memory = played::<P, ByteMemory<F>>(heap, memory, &mut board, case)?;
    let mut memory = ran::<P, ByteMemory<F>>(heap, memory, &mut board, case)?;
    for (a, n, byte) in case.changes {
        for cell in copy.cells.iter_mut().skip(*a as usize).take(*n) {
            *cell = Ok(*byte);
        }
    }
    let reads = reading_list(heap, &copy)?;
    check_list(heap, &mut memory, &mut copy, reads)
}

fn check<P: Mapping + Placing>(heap: Global, case: Case) -> Result<(), Fail> {
    check_over::<P, CellsAlone>(heap, PLAIN_BYTES, case)?;
    check_over::<P, CheckByte>(heap, CHECKED_BYTES, case)
}

// Eight objects of 32 bytes, two in each of four pages: one without marks, one modified, one referenced, and one that is out. The entries
// stand at 12288, 12292, 12296 and 12300, and byte 8 of the second object at 5 × 4096 + 2280 = 22760.
#[test]
fn objects(rt: HostRuntime) -> Result<(), Fail> {
    let out = |place| Err(Fault::here(Cause::PageOut, place));
    check::<Stride>(
        rt.alloc(),
        Case {
            layer: Layer {
                registers: &[256, 3, 32, 2176, 96],
                words: &[0x8000_0005, 0xa000_0000, 0xc000_0004, 0x9000_0006],
                bytes: 192,
            },
            steps: &[
                // one lookup, which fills
                (Access::Read, 0, 32, Ok(())),
                // one lookup
                (Access::Write, 40, 20, Ok(())),
                // three lookups: of page 0, and twice of page 1, which fills
                (Access::Read, 60, 40, Ok(())),
                // three lookups: twice of page 2, which fills, and of page 3
                (Access::Write, 128, 128, out(192)),
                (Access::Read, 0, 129, Err(Fault::here(Cause::BadRun, 0))),
                (Access::Read, 256, 1, Err(Fault::here(Cause::PastEnd, 256))),
                // one lookup
                (Access::Read, 130, 20, Ok(())),
                // one lookup
                (Access::Write, 255, 1, out(255)),
            ],
            report: WindowReport {
                type_number: 3,
                reason: 0,
                entry: 0,
                lookups: 10,
                fills: 3,
            },
            changes: &[(12288, 1, 0xe0), (12292, 1, 0xe0), (22760, 20, 0xee)],
        },
    )
}

// Pages 0 and 32 have one place of the TLB. The entries stand at 12288 and 12416.
#[test]
fn competing_pages(rt: HostRuntime) -> Result<(), Fail> {
    let mut words = [0; 33];
    words[0] = 0x8000_0005;
    words[32] = 0x8000_0004;
    check::<Direct>(
        rt.alloc(),
        Case {
            layer: Layer {
                registers: &[135168, 3],
                words: &words,
                bytes: 8192,
            },
            steps: &[
                (Access::Read, 0, 1, Ok(())),
                (Access::Read, 131072, 1, Ok(())),
                (Access::Write, 4095, 1, Ok(())),
                (Access::Read, 0, 128, Ok(())),
                (Access::Read, 131072, 128, Ok(())),
                (Access::Read, 4096, 1, Err(Fault::here(Cause::NoPage, 4096))),
            ],
            report: WindowReport {
                type_number: 1,
                reason: 0,
                entry: 0,
                lookups: 6,
                fills: 4,
            },
            changes: &[(12288, 1, 0xe0), (12416, 1, 0xc0), (24575, 1, 0xee)],
        },
    )
}
