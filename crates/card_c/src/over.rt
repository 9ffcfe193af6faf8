// A window is opened, a span of a cache over it is read or written, and both are closed.
ghost use Rattle.std.specs.Prelude.{◌≡◌, length, replicate};
ghost use Rattle.memory.specs.Up.{cells_up};
ghost use Rattle.page_table.specs.Walk.{windowed};
ghost use Rattle.span.specs.Runs.{reads_of, writes_of};
ghost use Rattle.span.specs.Span.{filled};
ghost use Rattle.card_c.specs.Called.{AnsweredOver};

use crate::answer::{CardAnswer, CardRefusal};
use cache::Cache;
use mapping::{ArmedSet, Mapping};
use memory::Memory;
use span::{read_cached, write_cached};
use window::Window;

pub(crate) fn read_over<P: Mapping, M: Memory + Drop>(
    set: ArmedSet<P>,
    memory: M,
    board: &mut [u8],
    address: u64,
    buffer: &mut [u8],
) -> CardAnswer
    requires armed { P.Mapping.armed set.mapping }
    requires coherent { M.Memory.coherent memory }
    ensures answer { AnsweredOver (P.Mapping.meaning set.mapping) (length board.old) (reads_of address buffer.old) (M.Memory.meaning memory) result }
    ensures buffer { buffer.new ≡ filled (cells_up (windowed (P.Mapping.meaning set.mapping) (M.Memory.meaning memory))) address result.done buffer.old }
    ensures board { board.new ≡ replicate (length board.old) 0 }
{
    let window = Window::open(set, memory, board);
    if let Err(refusal) = window.opening() {
        return CardAnswer::refused(CardRefusal::of_opening(refusal));
    }
    let mut cache = Cache::new(window);
    let spanned = read_cached(&mut cache, address, buffer);
    let cached = cache.report();
    let report = cache.close().report();
    CardAnswer::of_cached(spanned, cached, report)
}

pub(crate) fn write_over<P: Mapping, M: Memory + Drop>(
    set: ArmedSet<P>,
    memory: M,
    board: &mut [u8],
    address: u64,
    content: &[u8],
) -> CardAnswer
    requires armed { P.Mapping.armed set.mapping }
    requires coherent { M.Memory.coherent memory }
    ensures answer { AnsweredOver (P.Mapping.meaning set.mapping) (length board.old) (writes_of address content.now) (M.Memory.meaning memory) result }
    ensures board { board.new ≡ replicate (length board.old) 0 }
{
    let window = Window::open(set, memory, board);
    if let Err(refusal) = window.opening() {
        return CardAnswer::refused(CardRefusal::of_opening(refusal));
    }
    let mut cache = Cache::new(window);
    let spanned = write_cached(&mut cache, address, content);
    let cached = cache.report();
    let report = cache.close().report();
    CardAnswer::of_cached(spanned, cached, report)
}
