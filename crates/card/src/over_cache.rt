// A window over a cache, from their making to their closing.
ghost use Rattle.std.specs.Prelude.{◌≡◌, cond, is_ok, length, map, replicate};
ghost use Rattle.call_list.specs.Record.{recorded};
ghost use Rattle.card.specs.SetUp.{values_armed};
ghost use Rattle.card.specs.OverCache.{OverCache};

use crate::refusal::{RegisterWrite, SetUpRefusal};
use crate::window_run::{WindowRun, run_window};
use cache::{Cache, CacheReport};
use call_list::CallRecord;
use mapping::Mapping;
use memory::Memory;
use window::WindowReport;

// The memory that was lent, what the window reported at the end, or why none was made, and what the cache reported.
#[derive(Drop)]
pub struct CachedRun<M: Memory> {
    pub memory: M,
    pub outcome: Result<WindowReport, SetUpRefusal>,
    pub cache: CacheReport,
}

// Makes a cache over the memory, runs a window over the cache as `run_window` does, and closes the cache.
pub fn run_window_over_cache<P: Mapping, M: Memory>(
    writes: &[RegisterWrite],
    memory: M,
    board: &mut [u8],
    calls: &mut [CallRecord],
) -> CachedRun<M>
    requires { M.Memory.coherent memory }
    ensures ran { OverCache M.Memory.meaning M.Memory.coherent M.Memory.step P.Registers.rules (length board.old) memory result.memory result.outcome result.cache (map recorded calls.old) (map recorded calls.new) (values_armed P.Registers.rules writes.now) }
    ensures board { board.new ≡ cond (is_ok (values_armed P.Registers.rules writes.now)) (replicate (length board.old) 0) board.old }
    ensures coherent { M.Memory.coherent result.memory }
{
    let run = run_window::<P, Cache<M>>(writes, Cache::new(memory), board, calls);
    let WindowRun {
        memory: cache,
        outcome,
    } = run;
    let report = cache.report();
    CachedRun {
        memory: cache.close(),
        outcome,
        cache: report,
    }
}
