// A list of calls, made one after another on a cache.
ghost use Rattle.std.specs.Prelude.{◌≡◌, map};
ghost use Rattle.cache_lines.specs.Lines.{sets_of};
ghost use Rattle.call_list.specs.Record.{recorded};
ghost use Rattle.cache.specs.State.{Standing};
ghost use Rattle.cache.specs.Counts.{reported};
ghost use Rattle.cache_list.specs.Played.{CachePlayed};

use cache::{Cache, CacheReport};
use call_list::{CallRecord, play};
use memory::Memory;

// Makes the calls in their order, leaves in each its answer and its buffer, and reports what was counted until then.
pub fn play_cache<M: Memory>(cache: &mut Cache<M>, calls: &mut [CallRecord]) -> CacheReport
    requires { Standing (M.Memory.coherent cache.old.below) (M.Memory.meaning cache.old.below) (sets_of cache.old.lines) cache.old.counts }
    ensures played { CachePlayed M.Memory.meaning M.Memory.coherent M.Memory.step cache.old cache.new (map recorded calls.old) (map recorded calls.new) }
    ensures report { result ≡ reported cache.new.counts }
{
    play(cache, calls);
    cache.report()
}
