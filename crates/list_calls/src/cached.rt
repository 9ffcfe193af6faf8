// Caches over memories, each with the plain copy of its cells, and windows over and under caches.
ghost use Rattle.std.specs.Prelude.{IfOk};

use crate::copy::PlainCopy;
use crate::held::HeldCopy;
use crate::layer::Layer;
use crate::list::{mixed_list, reading_list, same_records, words_list};
use crate::placing::Placing;
use crate::stack::{Copied, check_list, check_memory};
use cache::{Cache, CacheReport};
use cache_list::play_cache;
use call_list::CallRecord;
use card::{CacheRun, CachedRun, run_cache_over_window, run_window_over_cache};
use expect::same;
use mapping::Mapping;
use memory::Memory;
use std::alloc::Global;
use std::test::Fail;

// Reads, hits, prefetches, and the share.
pub(crate) fn counts([reads, hits, prefetches, share]: [u64; 4]) -> CacheReport {
    CacheReport {
        reads,
        hits,
        prefetches,
        share,
    }
}

// A cache that was just made.
pub(crate) fn cache_over<M: Memory + Drop>(
    heap: Global,
    below: Copied<M>,
) -> Result<Copied<Cache<M>>, Fail>
    requires { M.Memory.coherent below.memory }
    ensures { IfOk result (λ c. ⟦<Cache<M> as Memory>⟧.coherent c.memory) }
{
    let Copied { memory, copy } = below;
    let copy = copy.over_cache(heap)?;
    Ok(Copied {
        memory: Cache::new(memory),
        copy,
    })
}

// Plays the list on the cache. What comes of it, and what is held and counted, has to be what the copies make of it.
pub(crate) fn check_cached<M: Memory>(
    heap: Global,
    cache: &mut Cache<M>,
    copy: &mut PlainCopy,
    held: &mut HeldCopy,
    mut calls: Vec<CallRecord>,
) -> Result<(), Fail>
    requires { ⟦<Cache<M> as Memory>⟧.coherent cache.old }
    ensures { ⟦<Cache<M> as Memory>⟧.coherent cache.new }
{
    let due = copy.due(heap, &calls)?;
    let report = play_cache(cache, &mut calls);
    same_records(&calls, &due)?;
    held.follow(copy, &due)?;
    same(report, held.report())
}

// A mixed list on a cache over this memory, and then all cells, through the cache and, once that is closed, below it.
pub(crate) fn check_cache<M: Memory + Drop>(heap: Global, below: Copied<M>) -> Result<(), Fail>
    requires { M.Memory.coherent below.memory }
{
    let Copied { memory, copy } = below;
    let mut below_copy = copy;
    let mut copy = below_copy.over_cache(heap)?;
    let mut held = HeldCopy::new(heap);
    let mut cache = Cache::new(memory);
    let calls = mixed_list(heap, 1, copy.size())?;
    check_cached(heap, &mut cache, &mut copy, &mut held, calls)?;
    let calls = reading_list(heap, &copy)?;
    check_cached(heap, &mut cache, &mut copy, &mut held, calls)?;
    below_copy.take_bytes(&copy);
    let mut memory = cache.close();
    let calls = reading_list(heap, &below_copy)?;
    check_list(heap, &mut memory, &mut below_copy, calls)
}

// A mixed list on a window over a cache over this memory, in which the window's table stands, and one on a cache over such a window. Only
// the faults that are passed up tell the two from each other.
pub(crate) fn check_runs<P: Mapping + Placing, M: Memory + Drop>(
    heap: Global,
    below: Copied<M>,
    layer: Layer,
) -> Result<(), Fail>
    requires { M.Memory.coherent below.memory }
{
    let Copied {
        mut memory,
        mut copy,
    } = below;
    let table = words_list(heap, layer.table(), layer.words)?;
    check_list(heap, &mut memory, &mut copy, table)?;
    let writes = layer.writes(heap)?;
    let mut board = vec![in heap; 1u8; copy.pages()]?;
    let mut image = layer.over::<P>(heap, &copy.over_cache(heap)?)?;
    let mut calls = mixed_list(heap, 1, image.size())?;
    let due = image.due(heap, &calls)?;
    let run = run_window_over_cache::<P, M>(&writes, memory, &mut board, &mut calls);
    let CachedRun {
        memory,
        outcome,
        ..
    } = run;
    same_records(&calls, &due)?;
    same(outcome.is_ok_and(|report| report.reason == 0), true)?;
    let mut cached = layer.over::<P>(heap, &copy)?.over_cache(heap)?;
    cached.take_bytes(&image);
    let mut calls = mixed_list(heap, 2, cached.size())?;
    let due = cached.due(heap, &calls)?;
    let CacheRun { outcome, .. } = run_cache_over_window::<P, M>(
        &writes, memory, &mut board, &mut calls,
    );
    same_records(&calls, &due)?;
    let mut held = HeldCopy::new(heap);
    held.follow(&cached, &due)?;
    same(
        outcome.is_ok_and(|(report, cache)| report.reason == 0 && cache == held.report()),
        true,
    )
}
