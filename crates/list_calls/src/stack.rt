// Windows and caches over a bottom, each with the plain copy of its cells.
ghost use Rattle.std.specs.Prelude.{IfOk};

use crate::copy::PlainCopy;
use crate::layer::Layer;
use crate::list::{filling_list, mixed_list, reading_list, same_records, words_list};
use crate::placing::Placing;
use call_list::{CallRecord, play};
use card::{WindowRun, run_window};
use expect::{armed_set, same};
use mapping::Mapping;
use memory::{ByteMemory, LineFormat, Memory};
use std::alloc::Global;
use std::test::Fail;
use units::LINE;
use window::Window;
use window_list::play_window;

// Lines of a bottom: 40 pages.
const LINES: u64 = 1280;

// Bytes that hold so many lines plainly, and with a check byte each.
pub(crate) const PLAIN_BYTES: usize = 163_840;

pub(crate) const CHECKED_BYTES: usize = 165_120;

// A memory, and the plain copy of its cells.
#[derive(Drop)]
pub(crate) struct Copied<M> {
    pub(crate) memory: M,
    pub(crate) copy: PlainCopy,
}

// Plays the list on the memory. What comes of it has to be what the copy makes of it.
pub(crate) fn check_list<M: Memory>(
    heap: Global,
    memory: &mut M,
    copy: &mut PlainCopy,
    mut calls: Vec<CallRecord>,
) -> Result<(), Fail>
    requires { M.Memory.coherent memory.old }
    ensures { M.Memory.coherent memory.new }
{
    let due = copy.due(heap, &calls)?;
    play(memory, &mut calls);
    same_records(&calls, &due)
}

// A mixed list, and then all cells.
pub(crate) fn check_memory<M: Memory>(
    heap: Global,
    memory: &mut M,
    copy: &mut PlainCopy,
    first: u64,
) -> Result<(), Fail>
    requires { M.Memory.coherent memory.old }
    ensures { M.Memory.coherent memory.new }
{
    same(memory.size(), copy.size())?;
    check_list(heap, memory, copy, mixed_list(heap, first, copy.size())?)?;
    check_list(heap, memory, copy, reading_list(heap, copy)?)
}

// A bottom over these bytes, with each cell written.
pub(crate) fn bottom<'a, F: LineFormat>(
    heap: Global,
    bytes: &'a mut [u8],
) -> Result<Copied<ByteMemory<'a, F>>, Fail>
    ensures { IfOk result (λ c. ⟦<ByteMemory<'a, F> as Memory>⟧.coherent c.memory) }
{
    bottom_of::<F>(heap, bytes, LINES)
}

// One of so many lines.
pub(crate) fn bottom_of<'a, F: LineFormat>(
    heap: Global,
    bytes: &'a mut [u8],
    lines: u64,
) -> Result<Copied<ByteMemory<'a, F>>, Fail>
    ensures { IfOk result (λ c. ⟦<ByteMemory<'a, F> as Memory>⟧.coherent c.memory) }
{
    let mut memory = ByteMemory::<F>::new(bytes);
    let mut copy = PlainCopy {
        cells: vec![in heap; Ok(0u8); lines.saturating_mul(LINE) as usize]?,
    };
    check_list(heap, &mut memory, &mut copy, filling_list(heap, lines)?)?;
    Ok(Copied { memory, copy })
}

// The window over this memory, after its table was written.
pub(crate) fn window_over<P: Mapping + Placing, M: Memory + Drop>(
    heap: Global,
    below: Copied<M>,
    layer: Layer,
) -> Result<Copied<Window<P, M>>, Fail>
    requires { M.Memory.coherent below.memory }
    ensures { IfOk result (λ c. ⟦<Window<P, M> as Memory>⟧.coherent c.memory) }
{
    let Copied {
        mut memory,
        mut copy,
    } = below;
    check_list(
        heap,
        &mut memory,
        &mut copy,
        words_list(heap, layer.table(), layer.words)?,
    )?;
    let set = armed_set::<P>(layer.registers)?;
    let window = Window::open(set, memory, &mut vec![in heap; 0u8; copy.pages()]?);
    same(window.opening(), Ok(()))?;
    let copy = layer.over::<P>(heap, &copy)?;
    same(copy.bytes(), layer.bytes)?;
    Ok(Copied {
        memory: window,
        copy,
    })
}

// Three mixed lists on the uppermost window: by `run_window`, by `play_window`, and by `play`.
pub(crate) fn check_top<P: Mapping + Placing, M: Memory + Drop>(
    heap: Global,
    below: Copied<M>,
    layer: Layer,
) -> Result<(), Fail>
    requires { M.Memory.coherent below.memory }
{
    let pages = below.copy.pages();
    let Copied {
        memory: window,
        mut copy,
    } = window_over::<P, M>(heap, below, layer)?;
    let mut board = vec![in heap; 1u8; pages]?;
    let mut calls = mixed_list(heap, 1, copy.size())?;
    let due = copy.due(heap, &calls)?;
    let writes = layer.writes(heap)?;
    let memory = window.close();
    let WindowRun { memory, outcome } = run_window::<P, M>(&writes, memory, &mut board, &mut calls);
    same_records(&calls, &due)?;
    same(outcome.is_ok_and(|report| report.reason == 0), true)?;
    let mut window = Window::open(armed_set::<P>(layer.registers)?, memory, &mut board);
    let mut calls = mixed_list(heap, 2, copy.size())?;
    let due = copy.due(heap, &calls)?;
    let report = play_window(&mut window, &mut calls);
    same_records(&calls, &due)?;
    same(report.reason, 0)?;
    check_memory(heap, &mut window, &mut copy, 3)
}
