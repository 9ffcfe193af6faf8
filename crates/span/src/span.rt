// A span of an open window, which is lent with the memory below it: one call for each run, in order, up to the first that is refused.
ghost use Rattle.std.specs.Prelude.{◌≡◌, take};
ghost use Rattle.memory.specs.Calls.{stored};
ghost use Rattle.memory.specs.Reach.{Reached};
ghost use Rattle.page_table.specs.Walk.{windowed};
ghost use Rattle.page_table.specs.Ready.{Ready};
ghost use Rattle.span.specs.Runs.{reads_of, writes_of};
ghost use Rattle.span.specs.Span.{behind, come_to, filled, window_ended};

use crate::one::{read_one, write_one};
use crate::runs::{run_count, run_size};
use mapping::{Mapping, WindowAddress};
use memory::{Fault, Memory};
use page_table::Tlb;

// The answer of the last call that was made, and how many bytes were read or written before it was refused, or in all.
#[derive(Clone, Copy)]
pub struct Spanned {
    pub answer: Result<(), Fault>,
    pub done: usize,
}

pub fn read_span<P: Mapping, M: Memory>(
    mapping: &P,
    below: &mut M,
    tlb: &mut Tlb,
    a: WindowAddress,
    buffer: &mut [u8],
) -> Spanned
    requires armed { P.Mapping.armed mapping.now }
    requires coherent { M.Memory.coherent below.old }
    requires ready { Ready (P.Mapping.meaning mapping.now) (M.Memory.meaning below.old) tlb.old }
    ensures ended { come_to result.answer result.done (behind (M.Memory.meaning below.new) tlb.new) ≡ window_ended (P.Mapping.meaning mapping.now) (reads_of a.0 buffer.old) (behind (M.Memory.meaning below.old) tlb.old) }
    ensures buffer { buffer.new ≡ filled (windowed (P.Mapping.meaning mapping.now) (M.Memory.meaning below.old)) a.0 result.done buffer.old }
    ensures window { windowed (P.Mapping.meaning mapping.now) (M.Memory.meaning below.new) ≡ windowed (P.Mapping.meaning mapping.now) (M.Memory.meaning below.old) }
    ensures coherent { M.Memory.coherent below.new }
    ensures reached { Reached M.Memory.step below.old below.new }
    ensures ready { Ready (P.Mapping.meaning mapping.now) (M.Memory.meaning below.new) tlb.new }
{
    let mut done = 0;
    for run in 0..run_count(a.0, buffer.len()) {
        let from = a.0 + done as u64;
        let n = run_size(from, buffer.len() - done);
        let part = &mut buffer[done..done + n];
        if let Err(fault) = read_one(mapping, below, tlb, WindowAddress(from), part) {
            return Spanned {
                answer: Err(fault),
                done,
            };
        }
        done += n;
    }
    Spanned {
        answer: Ok(()),
        done,
    }
}

pub fn write_span<P: Mapping, M: Memory>(
    mapping: &P,
    below: &mut M,
    tlb: &mut Tlb,
    a: WindowAddress,
    bytes: &[u8],
) -> Spanned
    requires armed { P.Mapping.armed mapping.now }
    requires coherent { M.Memory.coherent below.old }
    requires ready { Ready (P.Mapping.meaning mapping.now) (M.Memory.meaning below.old) tlb.old }
    ensures ended { come_to result.answer result.done (behind (M.Memory.meaning below.new) tlb.new) ≡ window_ended (P.Mapping.meaning mapping.now) (writes_of a.0 bytes.now) (behind (M.Memory.meaning below.old) tlb.old) }
    ensures window { windowed (P.Mapping.meaning mapping.now) (M.Memory.meaning below.new) ≡ stored (windowed (P.Mapping.meaning mapping.now) (M.Memory.meaning below.old)) a.0 (take result.done bytes.now) }
    ensures coherent { M.Memory.coherent below.new }
    ensures reached { Reached M.Memory.step below.old below.new }
    ensures ready { Ready (P.Mapping.meaning mapping.now) (M.Memory.meaning below.new) tlb.new }
{
    let mut done = 0;
    for run in 0..run_count(a.0, bytes.len()) {
        let from = a.0 + done as u64;
        let n = run_size(from, bytes.len() - done);
        let part = &bytes[done..done + n];
        if let Err(fault) = write_one(mapping, below, tlb, WindowAddress(from), part) {
            return Spanned {
                answer: Err(fault),
                done,
            };
        }
        done += n;
    }
    Spanned {
        answer: Ok(()),
        done,
    }
}
