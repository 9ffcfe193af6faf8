// Plain memory: it borrows bytes, and they are its cells.
ghost use Rattle.std.specs.Prelude.{◌≡◌, length, Ok};
ghost use Rattle.memory.specs.Bytes.{AllBytes};
ghost use Rattle.memory.specs.Calls.{read_answer, write_answer, written};
ghost use Rattle.plain.specs.Plain.{plain_meaning, updated, well_formed};

use memory::{ByteMemory, Fault, LineFormat, capacity, check_run};
use units::LINE;

// A line is borrowed as its 128 cells. Bytes after the last whole line, or past 2^40, are no cells.
pub struct CellsAlone;

pub type Plain<'a> = ByteMemory<'a, CellsAlone>;

impl LineFormat for CellsAlone {
    ghost meaning = { plain_meaning };

    ghost updated = { updated };

    ghost formed = { well_formed };

    fn size(borrowed: &[u8]) -> u64 {
        capacity(borrowed.len() as u64 / LINE)
    }

    fn find(borrowed: &[u8], a: u64, n: usize) -> Result<usize, Fault> {
        answer(borrowed, a, n)?;
        Ok(cell_index(a))
    }

    // As in every format, and no more than the order of its own two calls.
    fn write(borrowed: &mut [u8], a: u64, bytes: &[u8]) -> Result<(), Fault> {
        answer(borrowed, a, bytes.len())?;
        copy_in(borrowed, a, bytes);
        Ok(())
    }
}

// The answer to a run. No cell of a plain memory is a fault, so the test of the run is all of it.
fn answer(borrowed: &[u8], a: u64, n: usize) -> Result<(), Fault>
    ensures read { result ≡ read_answer (plain_meaning borrowed.now) a n }
    ensures write { result ≡ write_answer (plain_meaning borrowed.now) a n }
{
    check_run(CellsAlone::size(borrowed), a, n)
}

// Where the cell of this address stands in the borrowed bytes.
fn cell_index(a: u64) -> usize
    ensures { result ≡ a }
{
    a as usize
}

// Puts the bytes into a run that is accepted.
fn copy_in(borrowed: &mut [u8], a: u64, bytes: &[u8])
    requires { write_answer (plain_meaning borrowed.old) a (length bytes.now) ≡ Ok tt }
    ensures borrowed { borrowed.new ≡ updated borrowed.old a bytes.now }
    ensures meaning { plain_meaning borrowed.new ≡ written (plain_meaning borrowed.old) a bytes.now }
    ensures bytes { AllBytes borrowed.new }
{
    let at = cell_index(a);
    borrowed[at..at + bytes.len()].copy_from_slice(bytes);
}
