// A window is opened over a memory that is lent, a span of it is read or written, and it is closed.
ghost use Rattle.std.specs.Prelude.{◌≡◌, [], length, replicate, take};
ghost use Rattle.memory.specs.Calls.{stored};
ghost use Rattle.memory.specs.Reach.{OnlyRead, Reached};
ghost use Rattle.page_table.specs.Walk.{windowed};
ghost use Rattle.span.specs.Runs.{reads_of, writes_of};
ghost use Rattle.span.specs.Span.{filled};
ghost use Rattle.card_c.specs.Called.{called, after};

use crate::answer::{CardAnswer, CardRefusal};
use mapping::{Mapping, WindowAddress};
use memory::Memory;
use opening::check_opening;
use page_table::Tlb;
use span::{read_span, write_span};

#[tactic(auto, unfolding(span::specs::Span::ended))]
pub(crate) fn check_memory<P: Mapping, M: Memory>(
    mapping: &P,
    below: &mut M,
    board: &mut [u8],
) -> CardAnswer
    requires armed { P.Mapping.armed mapping.now }
    requires coherent { M.Memory.coherent below.old }
    ensures answer { result ≡ called (P.Mapping.meaning mapping.now) (length board.old) [] (M.Memory.meaning below.old) }
    ensures board { board.new ≡ replicate (length board.old) 0 }
    ensures coherent { M.Memory.coherent below.new }
    ensures reads { OnlyRead M.Memory.step below.old below.new }
{
    match check_opening(mapping, below, board) {
        Ok(()) => CardAnswer::refused(CardRefusal::none()),
        Err(refusal) => CardAnswer::refused(CardRefusal::of_opening(refusal)),
    }
}

pub(crate) fn read_memory<P: Mapping, M: Memory>(
    mapping: &P,
    below: &mut M,
    board: &mut [u8],
    address: u64,
    buffer: &mut [u8],
) -> CardAnswer
    requires armed { P.Mapping.armed mapping.now }
    requires coherent { M.Memory.coherent below.old }
    ensures answer { result ≡ called (P.Mapping.meaning mapping.now) (length board.old) (reads_of address buffer.old) (M.Memory.meaning below.old) }
    ensures buffer { buffer.new ≡ filled (windowed (P.Mapping.meaning mapping.now) (M.Memory.meaning below.old)) address result.done buffer.old }
    ensures meaning { M.Memory.meaning below.new ≡ after (P.Mapping.meaning mapping.now) (length board.old) (reads_of address buffer.old) (M.Memory.meaning below.old) }
    ensures board { board.new ≡ replicate (length board.old) 0 }
    ensures coherent { M.Memory.coherent below.new }
    ensures reached { Reached M.Memory.step below.old below.new }
{
    if let Err(refusal) = check_opening(mapping, below, board) {
        return CardAnswer::refused(CardRefusal::of_opening(refusal));
    }
    let mut tlb = Tlb::new();
    let spanned = read_span(mapping, below, &mut tlb, WindowAddress(address), buffer);
    CardAnswer::of_span(spanned, &tlb)
}

pub(crate) fn write_memory<P: Mapping, M: Memory>(
    mapping: &P,
    below: &mut M,
    board: &mut [u8],
    address: u64,
    content: &[u8],
) -> CardAnswer
    requires armed { P.Mapping.armed mapping.now }
    requires coherent { M.Memory.coherent below.old }
    ensures answer { result ≡ called (P.Mapping.meaning mapping.now) (length board.old) (writes_of address content.now) (M.Memory.meaning below.old) }
    ensures window { windowed (P.Mapping.meaning mapping.now) (M.Memory.meaning below.new) ≡ stored (windowed (P.Mapping.meaning mapping.now) (M.Memory.meaning below.old)) address (take result.done content.now) }
    ensures meaning { M.Memory.meaning below.new ≡ after (P.Mapping.meaning mapping.now) (length board.old) (writes_of address content.now) (M.Memory.meaning below.old) }
    ensures board { board.new ≡ replicate (length board.old) 0 }
    ensures coherent { M.Memory.coherent below.new }
    ensures reached { Reached M.Memory.step below.old below.new }
{
    if let Err(refusal) = check_opening(mapping, below, board) {
        return CardAnswer::refused(CardRefusal::of_opening(refusal));
    }
    let mut tlb = Tlb::new();
    let spanned = write_span(mapping, below, &mut tlb, WindowAddress(address), content);
    CardAnswer::of_span(spanned, &tlb)
}
