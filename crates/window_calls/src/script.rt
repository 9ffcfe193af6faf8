// Calls on one window, one after the other, and what is due of each.
use crate::scenes::{Scene, scene_bytes};
use expect::{armed_set, same};
use mapping::Mapping;
use memory::{Access, ByteMemory, Cause, Fault, LineFormat, Memory};
use std::alloc::Global;
use std::test::Fail;
use window::Window;

pub(crate) type Answer = Result<(), Fault>;

// The refusal of a call by a fault that arose so many layers below the window.
pub(crate) fn refused(cause: Cause, depth: u8, place: u64) -> Answer {
    Err(Fault {
        cause,
        depth,
        place,
    })
}

// One by a fault of the window itself.
pub(crate) fn here(cause: Cause, place: u64) -> Answer {
    refused(cause, 0, place)
}

// One by a failed check of the memory below.
pub(crate) fn below(place: u64) -> Answer {
    refused(Cause::FailedCheck, 1, place)
}

// What a call does to its run, the address and the length of that, its answer, and the counts of lookups and of fills after it.
pub(crate) type Step = (Access, u64, usize, Answer, u64, u64);

// Cells of the memory that a script leaves: an address, a number of cells, and the byte that each of them holds.
pub(crate) type Change = (u64, usize, u8);

// What every byte of a buffer is before a call of a script; so it is also what a script writes.
const FILL: u8 = 0xee;

// One call with this buffer. If it is refused, the buffer has to be as it was.
pub(crate) fn check_call<W: Memory>(
    heap: Global,
    memory: &mut W,
    access: Access,
    a: u64,
    buffer: &mut [u8],
    answer: Answer,
) -> Result<(), Fail>
    requires { W.coherent memory.old }
    ensures { W.coherent memory.new }
{
    let before = buffer.to_vec(heap)?;
    let found = match access {
        Access::Read => memory.read(a, buffer),
        Access::Write => memory.write(a, buffer),
    };
    same(found, answer)?;
    same(found.is_ok() || &*buffer == before.as_slice(), true)
}

// A script on a window that opens with a board of a byte for each page.
pub(crate) fn check_window<P: Mapping, M: Memory + Drop>(
    heap: Global,
    registers: [u64; 5],
    below: M,
    steps: &[Step],
) -> Result<(), Fail>
    requires { M.coherent below }
{
    check_opened::<P, M>(heap, registers, below, &mut [0; 8], 0, steps)
}

// A script on a window whose opening has this reason: 0 where it opens.
pub(crate) fn check_opened<P: Mapping, M: Memory + Drop>(
    heap: Global,
    registers: [u64; 5],
    below: M,
    board: &mut [u8],
    reason: u8,
    steps: &[Step],
) -> Result<(), Fail>
    requires { M.coherent below }
{
    let set = armed_set::<P>(&registers)?;
    let mut window = Window::open(set, below, board);
    let size = if reason == 0 { registers[0] } else { 0 };
    same(window.report().reason, reason)?;
    for (access, a, n, answer, lookups, fills) in steps {
        let mut buffer = vec![in heap; FILL; *n]?;
        check_call(heap, &mut window, *access, *a, &mut buffer, *answer)?;
        let report = window.report();
        same(report.lookups, *lookups)?;
        same(report.fills, *fills)?;
    }
    same(window.size(), size)
}

// A script over the memory that these bytes hold. Afterwards they have to be as they were but for the changes.
pub(crate) fn check_bytes<P: Mapping, F: LineFormat>(
    heap: Global,
    scene: Scene,
    bytes: &mut [u8],
    steps: &[Step],
    changes: &[Change],
) -> Result<(), Fail> {
    let mut due = bytes.to_vec(heap)?;
    change::<F>(heap, &mut due, changes)?;
    check_window::<P, ByteMemory<F>>(heap, scene.registers, ByteMemory::<F>::new(bytes), steps)?;
    same(&*bytes == due.as_slice(), true)
}

// Makes the changes in a memory.
pub(crate) fn change<F: LineFormat>(
    heap: Global,
    bytes: &mut [u8],
    changes: &[Change],
) -> Result<(), Fail> {
    for (a, n, byte) in changes {
        let cells = vec![in heap; *byte; *n]?;
        same(ByteMemory::<F>::new(bytes).write(*a, &cells), Ok(()))?;
    }
    Ok(())
}

// The same over a memory of its own.
pub(crate) fn check_script<P: Mapping, F: LineFormat>(
    heap: Global,
    borrowed: usize,
    scene: Scene,
    steps: &[Step],
    changes: &[Change],
) -> Result<(), Fail> {
    let mut bytes = scene_bytes::<F>(heap, borrowed, scene)?;
    check_bytes::<P, F>(heap, scene, &mut bytes, steps, changes)
}

// A run as a read and as a write, each the first call of its window. The counts are those after it.
pub(crate) type Run = (u64, usize, Answer, u64, u64);

// Runs over the memory that these bytes hold. A refusal changes nothing; an accepted run is not looked at further.
pub(crate) fn check_runs<P: Mapping, F: LineFormat>(
    heap: Global,
    scene: Scene,
    bytes: &[u8],
    runs: &[Run],
) -> Result<(), Fail> {
    for (a, n, answer, lookups, fills) in runs {
        for access in [Access::Read, Access::Write] {
            let mut own = bytes.to_vec(heap)?;
            check_window::<P, ByteMemory<F>>(
                heap,
                scene.registers,
                ByteMemory::<F>::new(&mut own),
                &[(access, *a, *n, *answer, *lookups, *fills)],
            )?;
            same(answer.is_ok() || own.as_slice() == bytes, true)?;
        }
    }
    Ok(())
}
