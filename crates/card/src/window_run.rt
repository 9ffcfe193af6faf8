// A window over any memory, from its registers to its closing.
ghost use Rattle.std.specs.Prelude.{◌≡◌, cond, is_ok, length, map, replicate};
ghost use Rattle.call_list.specs.Record.{recorded};
ghost use Rattle.card.specs.SetUp.{values_armed};
ghost use Rattle.card.specs.Promise.{Ran};

use crate::refusal::{RegisterWrite, SetUpRefusal};
use crate::set_up::armed_set;
use call_list::CallRecord;
use mapping::Mapping;
use memory::Memory;
use window::{Window, WindowReport};
use window_list::play_window;

// The memory that was lent, and what the window reported at the end, or why none was made.
#[derive(Drop)]
pub struct WindowRun<M: Memory> {
    pub memory: M,
    pub outcome: Result<WindowReport, SetUpRefusal>,
}

// Writes the registers, arms them, opens a window over the memory, makes the calls, reports, and closes the window. A window that is shut
// refuses every call; its report says why. The board is what the opening takes notes on: a byte for each whole page of the memory.
pub fn run_window<P: Mapping, M: Memory>(
    writes: &[RegisterWrite],
    memory: M,
    board: &mut [u8],
    calls: &mut [CallRecord],
) -> WindowRun<M>
    requires { M.Memory.coherent memory }
    ensures ran { Ran M.Memory.meaning M.Memory.step P.Registers.rules (length board.old) memory result.memory result.outcome (map recorded calls.old) (map recorded calls.new) (values_armed P.Registers.rules writes.now) }
    ensures board { board.new ≡ cond (is_ok (values_armed P.Registers.rules writes.now)) (replicate (length board.old) 0) board.old }
    ensures coherent { M.Memory.coherent result.memory }
{
    let set = match armed_set::<P>(writes) {
        Ok(set) => set,
        Err(refusal) => {
            return WindowRun {
                memory,
                outcome: Err(refusal),
            };
        }
    };
    let mut window = Window::open(set, memory, board);
    let report = play_window(&mut window, calls);
    WindowRun {
        memory: window.close(),
        outcome: Ok(report),
    }
}
