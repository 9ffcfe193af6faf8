// A span of a cache: one call for each run, in order, up to the first that is refused.
ghost use Rattle.std.specs.Prelude.{◌≡◌, take};
ghost use Rattle.memory.specs.Calls.{stored};
ghost use Rattle.memory.specs.Reach.{Reached, Step};
ghost use Rattle.memory.specs.Up.{cells_up};
ghost use Rattle.cache_lines.specs.Lines.{sets_of};
ghost use Rattle.cache.specs.State.{Standing};
ghost use Rattle.span.specs.Runs.{reads_of, writes_of};
ghost use Rattle.span.specs.Span.{cache_behind, cache_ended, come_to, filled};

use crate::runs::{run_count, run_size};
use crate::span::Spanned;
use cache::Cache;
use memory::Memory;

pub fn read_cached<M: Memory>(cache: &mut Cache<M>, a: u64, buffer: &mut [u8]) -> Spanned
    requires { Standing (M.Memory.coherent cache.old.below) (M.Memory.meaning cache.old.below) (sets_of cache.old.lines) cache.old.counts }
    ensures ended { come_to result.answer result.done (cache_behind (M.Memory.meaning cache.new.below) (sets_of cache.new.lines) cache.new.counts) ≡ cache_ended (reads_of a buffer.old) (cache_behind (M.Memory.meaning cache.old.below) (sets_of cache.old.lines) cache.old.counts) }
    ensures buffer { buffer.new ≡ filled (cells_up (M.Memory.meaning cache.old.below)) a result.done buffer.old }
    ensures meaning { M.Memory.meaning cache.new.below ≡ M.Memory.meaning cache.old.below }
    ensures standing { Standing (M.Memory.coherent cache.new.below) (M.Memory.meaning cache.new.below) (sets_of cache.new.lines) cache.new.counts }
    ensures reached { Reached (Step M.Memory.meaning M.Memory.coherent M.Memory.step) cache.old.below cache.new.below }
{
    let mut done = 0;
    for run in 0..run_count(a, buffer.len()) {
        let from = a + done as u64;
        let n = run_size(from, buffer.len() - done);
        let part = &mut buffer[done..done + n];
        if let Err(fault) = cache.read(from, part) {
            return Spanned {
                answer: Err(fault),
                done,
            };
        }
        done += n;
    }
    Spanned {
        answer: Ok(()),
        done,
    }
}

pub fn write_cached<M: Memory>(cache: &mut Cache<M>, a: u64, bytes: &[u8]) -> Spanned
    requires { Standing (M.Memory.coherent cache.old.below) (M.Memory.meaning cache.old.below) (sets_of cache.old.lines) cache.old.counts }
    ensures ended { come_to result.answer result.done (cache_behind (M.Memory.meaning cache.new.below) (sets_of cache.new.lines) cache.new.counts) ≡ cache_ended (writes_of a bytes.now) (cache_behind (M.Memory.meaning cache.old.below) (sets_of cache.old.lines) cache.old.counts) }
    ensures cells { cells_up (M.Memory.meaning cache.new.below) ≡ stored (cells_up (M.Memory.meaning cache.old.below)) a (take result.done bytes.now) }
    ensures standing { Standing (M.Memory.coherent cache.new.below) (M.Memory.meaning cache.new.below) (sets_of cache.new.lines) cache.new.counts }
    ensures reached { Reached (Step M.Memory.meaning M.Memory.coherent M.Memory.step) cache.old.below cache.new.below }
{
    let mut done = 0;
    for run in 0..run_count(a, bytes.len()) {
        let from = a + done as u64;
        let n = run_size(from, bytes.len() - done);
        let part = &bytes[done..done + n];
        if let Err(fault) = cache.write(from, part) {
            return Spanned {
                answer: Err(fault),
                done,
            };
        }
        done += n;
    }
    Spanned {
        answer: Ok(()),
        done,
    }
}
