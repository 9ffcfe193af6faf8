// Lines from the memory below.
ghost use Rattle.std.specs.Prelude.{◌≡◌, ◌+◌, ◌/◌, ◌%◌, ◌^◌, ◌<◌, false, cond, ◌&&◌, length, Ok};
ghost use Rattle.memory.specs.Run.{check_run};
ghost use Rattle.memory.specs.Calls.{read_answer, delivered};
ghost use Rattle.memory.specs.Reach.{OnlyRead, Step};
ghost use Rattle.memory.specs.Fault.{from_below};
ghost use Rattle.memory.specs.Up.{cells_up};
ghost use Rattle.cache_lines.specs.Lines.{sets_of};
ghost use Rattle.cache.specs.Rules.{fetched, prefetch_keeps, after_prefetch, miss_keeps, after_miss};

use cache_lines::{CacheLine, CacheSets};
use memory::{Fault, Memory, from_below};
use units::LINE;

// A read of a line that is not held: the answer, and whether the next line was kept. Where the line as a whole refuses, the run alone is
// read, so that a good run in it gives its bytes, and a bad one its own first fault.
#[tactic(auto, using(memory::proofs::Reaches::only_read_more))]
pub(crate) fn miss<M: Memory>(
    below: &mut M,
    lines: &mut CacheSets,
    a: u64,
    buffer: &mut [u8],
) -> (Result<(), Fault>, bool)
    requires coherent { M.Memory.coherent below.old }
    requires taken { check_run (M.Memory.meaning below.old).size a (length buffer.old) ≡ Ok tt }
    ensures answer { result.0 ≡ read_answer (cells_up (M.Memory.meaning below.old)) a (length buffer.old) }
    ensures buffer { buffer.new ≡ delivered (cells_up (M.Memory.meaning below.old)) a buffer.old }
    ensures kept { result.1 ≡ miss_keeps (M.Memory.meaning below.old) (a / 128) (sets_of lines.old) }
    ensures lines { sets_of lines.new ≡ after_miss (M.Memory.meaning below.old) (a / 128) (sets_of lines.old) }
    ensures meaning { M.Memory.meaning below.new ≡ M.Memory.meaning below.old }
    ensures coherent { M.Memory.coherent below.new }
    ensures reads { OnlyRead (Step M.Memory.meaning M.Memory.coherent M.Memory.step) below.old below.new }
{
    let number = a / LINE;
    match fetch(below, number, false) {
        Some(line) => {
            let at = (a % LINE) as usize;
            let n = buffer.len();
            buffer.copy_from_slice(&line.bytes[at..at + n]);
            lines.keep(line);
            (Ok(()), prefetch(below, lines, number + 1))
        }
        None => (read_alone(below, a, buffer), false),
    }
}

// The run alone, with its own first fault.
fn read_alone<M: Memory>(below: &mut M, a: u64, buffer: &mut [u8]) -> Result<(), Fault>
    requires { M.Memory.coherent below.old }
    ensures answer { result ≡ from_below (read_answer (M.Memory.meaning below.old) a (length buffer.old)) }
    ensures buffer { buffer.new ≡ delivered (M.Memory.meaning below.old) a buffer.old }
    ensures meaning { M.Memory.meaning below.new ≡ M.Memory.meaning below.old }
    ensures coherent { M.Memory.coherent below.new }
    ensures reads { OnlyRead (Step M.Memory.meaning M.Memory.coherent M.Memory.step) below.old below.new }
{
    from_below(below.read(a, buffer))
}

// What follows a hit: the first one of a prefetched line prefetches the next line. Whether that was kept.
#[tactic(auto, using(memory::proofs::Reaches::only_read_none))]
pub(crate) fn follow_hit<M: Memory>(
    below: &mut M,
    lines: &mut CacheSets,
    next: u64,
    first: bool,
) -> bool
    requires coherent { M.Memory.coherent below.old }
    requires small { next < 2 ^ 57 }
    ensures kept { result ≡ (first && prefetch_keeps (M.Memory.meaning below.old) next (sets_of lines.old)) }
    ensures lines { sets_of lines.new ≡ cond first (after_prefetch (M.Memory.meaning below.old) next (sets_of lines.old)) (sets_of lines.old) }
    ensures meaning { M.Memory.meaning below.new ≡ M.Memory.meaning below.old }
    ensures coherent { M.Memory.coherent below.new }
    ensures reads { OnlyRead (Step M.Memory.meaning M.Memory.coherent M.Memory.step) below.old below.new }
    ensures quiet { first ≡ false → below.new ≡ below.old }
{
    first && prefetch(below, lines, next)
}

// Keeps the line, unless it is held, or refuses as one past the end does. Whether it was kept.
#[tactic(auto, using(memory::proofs::Reaches::only_read_none))]
fn prefetch<M: Memory>(below: &mut M, lines: &mut CacheSets, number: u64) -> bool
    requires coherent { M.Memory.coherent below.old }
    requires small { number < 2 ^ 57 }
    ensures kept { result ≡ prefetch_keeps (M.Memory.meaning below.old) number (sets_of lines.old) }
    ensures lines { sets_of lines.new ≡ after_prefetch (M.Memory.meaning below.old) number (sets_of lines.old) }
    ensures meaning { M.Memory.meaning below.new ≡ M.Memory.meaning below.old }
    ensures coherent { M.Memory.coherent below.new }
    ensures reads { OnlyRead (Step M.Memory.meaning M.Memory.coherent M.Memory.step) below.old below.new }
{
    if lines.holds(number) {
        return false;
    }
    match fetch(below, number, true) {
        Some(line) => {
            lines.keep(line);
            true
        }
        None => false,
    }
}

// The whole line, unless the memory below refuses it.
fn fetch<M: Memory>(below: &mut M, number: u64, prefetched: bool) -> Option<CacheLine>
    requires coherent { M.Memory.coherent below.old }
    requires small { number < 2 ^ 57 }
    ensures line { result ≡ fetched (M.Memory.meaning below.old) number prefetched }
    ensures meaning { M.Memory.meaning below.new ≡ M.Memory.meaning below.old }
    ensures coherent { M.Memory.coherent below.new }
    ensures reads { OnlyRead (Step M.Memory.meaning M.Memory.coherent M.Memory.step) below.old below.new }
{
    let mut bytes = [0; LINE as usize];
    match below.read(number * LINE, &mut bytes) {
        Ok(()) => Some(CacheLine {
            number,
            prefetched,
            bytes,
        }),
        Err(_) => None,
    }
}
