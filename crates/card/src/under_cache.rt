// A cache over a window, from their making to their closing.
ghost use Rattle.std.specs.Prelude.{◌≡◌, cond, is_ok, length, map, replicate};
ghost use Rattle.call_list.specs.Record.{recorded};
ghost use Rattle.card.specs.SetUp.{values_armed};
ghost use Rattle.card.specs.UnderCache.{RanUnderCache};

use crate::refusal::{RegisterWrite, SetUpRefusal};
use crate::set_up::armed_set;
use cache::{Cache, CacheReport};
use cache_list::play_cache;
use call_list::CallRecord;
use mapping::Mapping;
use memory::Memory;
use window::{Window, WindowReport};

// The memory that was lent, and what the window and the cache reported at the end, or why none was made.
#[derive(Drop)]
pub struct CacheRun<M: Memory> {
    pub memory: M,
    pub outcome: Result<(WindowReport, CacheReport), SetUpRefusal>,
}

// Writes the registers, arms them, opens a window over the memory, makes a cache over the window, makes the calls on the cache, reports on
// both, and closes both. Over a window that is shut every call is refused.
pub fn run_cache_over_window<P: Mapping, M: Memory>(
    writes: &[RegisterWrite],
    memory: M,
    board: &mut [u8],
    calls: &mut [CallRecord],
) -> CacheRun<M>
    requires { M.Memory.coherent memory }
    ensures ran { RanUnderCache M.Memory.meaning M.Memory.step P.Registers.rules (length board.old) memory result.memory result.outcome (map recorded calls.old) (map recorded calls.new) (values_armed P.Registers.rules writes.now) }
    ensures board { board.new ≡ cond (is_ok (values_armed P.Registers.rules writes.now)) (replicate (length board.old) 0) board.old }
    ensures coherent { M.Memory.coherent result.memory }
{
    let set = match armed_set::<P>(writes) {
        Ok(set) => set,
        Err(refusal) => {
            return CacheRun {
                memory,
                outcome: Err(refusal),
            };
        }
    };
    let mut cache = Cache::new(Window::open(set, memory, board));
    let cached = play_cache(&mut cache, calls);
    let window = cache.close();
    let report = window.report();
    CacheRun {
        memory: window.close(),
        outcome: Ok((report, cached)),
    }
}
