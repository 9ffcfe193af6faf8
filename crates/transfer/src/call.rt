// The calls of an open window on a run of its image.
ghost use Rattle.std.specs.Prelude.{◌≡◌, length, Ok};
ghost use Rattle.memory.specs.Run.{check_run};
ghost use Rattle.memory.specs.Calls.{read_answer, write_answer, delivered, written};
ghost use Rattle.memory.specs.Reach.{Reached};
ghost use Rattle.page_table.specs.Walk.{windowed};
ghost use Rattle.page_table.specs.Ready.{Ready};
ghost use Rattle.memory.specs.declared.access.Access.TheVariants.{Read, Write};
ghost use Rattle.transfer.specs.Call.{below_after_read, below_after_write, tlb_after};

use crate::gather::{PARTS, gather};
use crate::scatter::{mark_pages, scatter};
use mapping::{Mapping, MemoryAddress, WindowAddress};
use memory::{Access, Fault, Memory, check_run};
use page_table::{Table, Tlb};
use units::LINE;
use walk::Spot;

// A read of a run of the image, which is refused where it does not fit one line or passes the image size.
pub fn read_run<P: Mapping, M: Memory>(
    mapping: &P,
    below: &mut M,
    tlb: &mut Tlb,
    a: WindowAddress,
    buffer: &mut [u8],
) -> Result<(), Fault>
    requires armed { P.Mapping.armed mapping.now }
    requires coherent { M.Memory.coherent below.old }
    requires ready { Ready (P.Mapping.meaning mapping.now) (M.Memory.meaning below.old) tlb.old }
    ensures answer { result ≡ read_answer (windowed (P.Mapping.meaning mapping.now) (M.Memory.meaning below.old)) a.0 (length buffer.old) }
    ensures buffer { buffer.new ≡ delivered (windowed (P.Mapping.meaning mapping.now) (M.Memory.meaning below.old)) a.0 buffer.old }
    ensures window { windowed (P.Mapping.meaning mapping.now) (M.Memory.meaning below.new) ≡ windowed (P.Mapping.meaning mapping.now) (M.Memory.meaning below.old) }
    ensures below { M.Memory.meaning below.new ≡ below_after_read (P.Mapping.meaning mapping.now) (M.Memory.meaning below.old) a.0 (length buffer.old) }
    ensures tlb { tlb.new ≡ tlb_after (P.Mapping.meaning mapping.now) (M.Memory.meaning below.old) Read a.0 (length buffer.old) tlb.old }
    ensures coherent { M.Memory.coherent below.new }
    ensures reached { Reached M.Memory.step below.old below.new }
    ensures ready { Ready (P.Mapping.meaning mapping.now) (M.Memory.meaning below.new) tlb.new }
{
    check_run(mapping.image_size(), a.0, buffer.len())?;
    read_taken(mapping, below, tlb, a, buffer)
}

// Gathers the run into the buffer, or refuses and leaves it: a run that is refused at a later grain has some of it gathered too. The marks
// are set once the whole run is accepted.
fn read_taken<P: Mapping, M: Memory>(
    mapping: &P,
    below: &mut M,
    tlb: &mut Tlb,
    a: WindowAddress,
    buffer: &mut [u8],
) -> Result<(), Fault>
    requires armed { P.Mapping.armed mapping.now }
    requires coherent { M.Memory.coherent below.old }
    requires ready { Ready (P.Mapping.meaning mapping.now) (M.Memory.meaning below.old) tlb.old }
    requires taken { check_run (P.Mapping.meaning mapping.now).image_size a.0 (length buffer.old) ≡ Ok tt }
    ensures answer { result ≡ read_answer (windowed (P.Mapping.meaning mapping.now) (M.Memory.meaning below.old)) a.0 (length buffer.old) }
    ensures buffer { buffer.new ≡ delivered (windowed (P.Mapping.meaning mapping.now) (M.Memory.meaning below.old)) a.0 buffer.old }
    ensures window { windowed (P.Mapping.meaning mapping.now) (M.Memory.meaning below.new) ≡ windowed (P.Mapping.meaning mapping.now) (M.Memory.meaning below.old) }
    ensures below { M.Memory.meaning below.new ≡ below_after_read (P.Mapping.meaning mapping.now) (M.Memory.meaning below.old) a.0 (length buffer.old) }
    ensures tlb { tlb.new ≡ tlb_after (P.Mapping.meaning mapping.now) (M.Memory.meaning below.old) Read a.0 (length buffer.old) tlb.old }
    ensures coherent { M.Memory.coherent below.new }
    ensures reached { Reached M.Memory.step below.old below.new }
    ensures ready { Ready (P.Mapping.meaning mapping.now) (M.Memory.meaning below.new) tlb.new }
{
    let mut line = blank_line();
    let mut spots = blank_spots();
    let part = &mut line[0..buffer.len()];
    let count = gather(mapping, below, tlb, a, part, &mut spots)?;
    mark_pages(mapping, below, tlb, &spots[0..count], Access::Read);
    // Last, so that the parts are stored by the time that the line is copied as a whole.
    buffer.copy_from_slice(part);
    Ok(())
}

// A write of a run of the image, which is refused as a read is.
pub fn write_run<P: Mapping, M: Memory>(
    mapping: &P,
    below: &mut M,
    tlb: &mut Tlb,
    a: WindowAddress,
    bytes: &[u8],
) -> Result<(), Fault>
    requires armed { P.Mapping.armed mapping.now }
    requires coherent { M.Memory.coherent below.old }
    requires ready { Ready (P.Mapping.meaning mapping.now) (M.Memory.meaning below.old) tlb.old }
    ensures answer { result ≡ write_answer (windowed (P.Mapping.meaning mapping.now) (M.Memory.meaning below.old)) a.0 (length bytes.now) }
    ensures window { windowed (P.Mapping.meaning mapping.now) (M.Memory.meaning below.new) ≡ written (windowed (P.Mapping.meaning mapping.now) (M.Memory.meaning below.old)) a.0 bytes.now }
    ensures below { M.Memory.meaning below.new ≡ below_after_write (P.Mapping.meaning mapping.now) (M.Memory.meaning below.old) a.0 bytes.now }
    ensures tlb { tlb.new ≡ tlb_after (P.Mapping.meaning mapping.now) (M.Memory.meaning below.old) Write a.0 (length bytes.now) tlb.old }
    ensures coherent { M.Memory.coherent below.new }
    ensures reached { Reached M.Memory.step below.old below.new }
    ensures ready { Ready (P.Mapping.meaning mapping.now) (M.Memory.meaning below.new) tlb.new }
{
    check_run(mapping.image_size(), a.0, bytes.len())?;
    write_taken(mapping, below, tlb, a, bytes)
}

// Scatters the bytes to where the run stands, or refuses and writes none. What the cells hold now is gathered first, which settles
// whether every one of them takes a byte.
fn write_taken<P: Mapping, M: Memory>(
    mapping: &P,
    below: &mut M,
    tlb: &mut Tlb,
    a: WindowAddress,
    bytes: &[u8],
) -> Result<(), Fault>
    requires armed { P.Mapping.armed mapping.now }
    requires coherent { M.Memory.coherent below.old }
    requires ready { Ready (P.Mapping.meaning mapping.now) (M.Memory.meaning below.old) tlb.old }
    requires taken { check_run (P.Mapping.meaning mapping.now).image_size a.0 (length bytes.now) ≡ Ok tt }
    ensures answer { result ≡ write_answer (windowed (P.Mapping.meaning mapping.now) (M.Memory.meaning below.old)) a.0 (length bytes.now) }
    ensures window { windowed (P.Mapping.meaning mapping.now) (M.Memory.meaning below.new) ≡ written (windowed (P.Mapping.meaning mapping.now) (M.Memory.meaning below.old)) a.0 bytes.now }
    ensures below { M.Memory.meaning below.new ≡ below_after_write (P.Mapping.meaning mapping.now) (M.Memory.meaning below.old) a.0 bytes.now }
    ensures tlb { tlb.new ≡ tlb_after (P.Mapping.meaning mapping.now) (M.Memory.meaning below.old) Write a.0 (length bytes.now) tlb.old }
    ensures coherent { M.Memory.coherent below.new }
    ensures reached { Reached M.Memory.step below.old below.new }
    ensures ready { Ready (P.Mapping.meaning mapping.now) (M.Memory.meaning below.new) tlb.new }
{
    let mut line = blank_line();
    let mut spots = blank_spots();
    let part = &mut line[0..bytes.len()];
    let count = gather(mapping, below, tlb, a, part, &mut spots)?;
    let parts = &spots[0..count];
    mark_pages(mapping, below, tlb, parts, Access::Write);
    scatter(mapping, below, a, bytes, parts);
    Ok(())
}

// Room for the bytes of a run. Of its value nothing is promised, so that proofs do not carry 128 numbers about.
fn blank_line() -> [u8; 128]
    ensures { length result ≡ 128 }
{
    [0; LINE as usize]
}

// Room for where its parts stand.
fn blank_spots() -> [Spot; 32]
    ensures { length result ≡ 32 }
{
    let nowhere = Spot {
        page: 0,
        address: MemoryAddress(0),
    };
    [nowhere; PARTS]
}
