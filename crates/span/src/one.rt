// One call of an open window, which is lent with the memory below it.
ghost use Rattle.std.specs.Prelude.{◌≡◌, true, length};
ghost use Rattle.memory.specs.Calls.{read_answer, write_answer, delivered, written};
ghost use Rattle.memory.specs.Reach.{reading, writing, Reached};
ghost use Rattle.page_table.specs.Walk.{windowed};
ghost use Rattle.page_table.specs.Ready.{Ready};
ghost use Rattle.window_list.specs.Played.{call_behind};
ghost use Rattle.span.specs.Span.{behind};

use mapping::{Mapping, WindowAddress};
use memory::{Fault, Memory};
use page_table::Tlb;
use transfer::{read_run, write_run};

pub(crate) fn read_one<P: Mapping, M: Memory>(
    mapping: &P,
    below: &mut M,
    tlb: &mut Tlb,
    a: WindowAddress,
    buffer: &mut [u8],
) -> Result<(), Fault>
    requires armed { P.Mapping.armed mapping.now }
    requires coherent { M.Memory.coherent below.old }
    requires ready { Ready (P.Mapping.meaning mapping.now) (M.Memory.meaning below.old) tlb.old }
    ensures answer { result ≡ read_answer (windowed (P.Mapping.meaning mapping.now) (M.Memory.meaning below.old)) a.0 (length buffer.old) }
    ensures buffer { buffer.new ≡ delivered (windowed (P.Mapping.meaning mapping.now) (M.Memory.meaning below.old)) a.0 buffer.old }
    ensures window { windowed (P.Mapping.meaning mapping.now) (M.Memory.meaning below.new) ≡ windowed (P.Mapping.meaning mapping.now) (M.Memory.meaning below.old) }
    ensures behind { behind (M.Memory.meaning below.new) tlb.new ≡ call_behind true (P.Mapping.meaning mapping.now) (behind (M.Memory.meaning below.old) tlb.old) (reading a.0 buffer.old) }
    ensures coherent { M.Memory.coherent below.new }
    ensures reached { Reached M.Memory.step below.old below.new }
    ensures ready { Ready (P.Mapping.meaning mapping.now) (M.Memory.meaning below.new) tlb.new }
{
    read_run(mapping, below, tlb, a, buffer)
}

pub(crate) fn write_one<P: Mapping, M: Memory>(
    mapping: &P,
    below: &mut M,
    tlb: &mut Tlb,
    a: WindowAddress,
    bytes: &[u8],
) -> Result<(), Fault>
    requires armed { P.Mapping.armed mapping.now }
    requires coherent { M.Memory.coherent below.old }
    requires ready { Ready (P.Mapping.meaning mapping.now) (M.Memory.meaning below.old) tlb.old }
    ensures answer { result ≡ write_answer (windowed (P.Mapping.meaning mapping.now) (M.Memory.meaning below.old)) a.0 (length bytes.now) }
    ensures window { windowed (P.Mapping.meaning mapping.now) (M.Memory.meaning below.new) ≡ written (windowed (P.Mapping.meaning mapping.now) (M.Memory.meaning below.old)) a.0 bytes.now }
    ensures behind { behind (M.Memory.meaning below.new) tlb.new ≡ call_behind true (P.Mapping.meaning mapping.now) (behind (M.Memory.meaning below.old) tlb.old) (writing a.0 bytes.now) }
    ensures coherent { M.Memory.coherent below.new }
    ensures reached { Reached M.Memory.step below.old below.new }
    ensures ready { Ready (P.Mapping.meaning mapping.now) (M.Memory.meaning below.new) tlb.new }
{
    write_run(mapping, below, tlb, a, bytes)
}
