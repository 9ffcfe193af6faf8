// Spoilt memory: plain but for one cell. It is for tests, which want a fault beside cells that answer.
ghost use Rattle.std.specs.Prelude.{◌≡◌, ◌+◌, ◌^◌, ◌<◌, length, Ok};
ghost use Rattle.memory.specs.Bytes.{AllBytes};
ghost use Rattle.memory.specs.Calls.{read_answer, write_answer, written};
ghost use Rattle.spoilt.specs.Spoilt.{cells_answer, spoilt_meaning, updated, well_formed};

use memory::{ByteMemory, Cause, Fault, LineFormat, capacity, check_run};
use units::LINE;

// The address of the cell that is a fault, whatever byte is borrowed there: in the second line of page 1.
const SPOILT_CELL: u64 = 4230;

// A line is borrowed as its 128 cells. Bytes after the last whole line, or past 2^40, are no cells.
pub struct OneFault;

pub type Spoilt<'a> = ByteMemory<'a, OneFault>;

impl LineFormat for OneFault {
    ghost meaning = { spoilt_meaning };

    ghost updated = { updated };

    ghost formed = { well_formed };

    fn size(borrowed: &[u8]) -> u64 {
        capacity(borrowed.len() as u64 / LINE)
    }

    fn find(borrowed: &[u8], a: u64, n: usize) -> Result<usize, Fault> {
        answer(borrowed, a, n)?;
        Ok(cell_index(a))
    }

    // As in every format, and no more than the order of its own two calls.
    fn write(borrowed: &mut [u8], a: u64, bytes: &[u8]) -> Result<(), Fault> {
        answer(borrowed, a, bytes.len())?;
        copy_in(borrowed, a, bytes);
        Ok(())
    }
}

// The answer to a run: the spoilt cell alone can refuse one that the size allows.
fn answer(borrowed: &[u8], a: u64, n: usize) -> Result<(), Fault>
    ensures read { result ≡ read_answer (spoilt_meaning borrowed.now) a n }
    ensures write { result ≡ write_answer (spoilt_meaning borrowed.now) a n }
{
    check_run(OneFault::size(borrowed), a, n)?;
    cells_answer(a, n as u64)
}

// Acceptance of a run's cells, or the fault of the spoilt cell if it is one of them.
fn cells_answer(a: u64, n: u64) -> Result<(), Fault>
    requires { a + n < 2 ^ 64 }
    ensures { result ≡ cells_answer a n }
{
    if a <= SPOILT_CELL && SPOILT_CELL < a + n {
        return Err(Fault::here(Cause::FailedCheck, SPOILT_CELL));
    }
    Ok(())
}

// Where the cell of this address stands in the borrowed bytes.
fn cell_index(a: u64) -> usize
    ensures { result ≡ a }
{
    a as usize
}

// Puts the bytes into a run that is accepted.
fn copy_in(borrowed: &mut [u8], a: u64, bytes: &[u8])
    requires { write_answer (spoilt_meaning borrowed.old) a (length bytes.now) ≡ Ok tt }
    ensures borrowed { borrowed.new ≡ updated borrowed.old a bytes.now }
    ensures meaning { spoilt_meaning borrowed.new ≡ written (spoilt_meaning borrowed.old) a bytes.now }
    ensures bytes { AllBytes borrowed.new }
{
    let at = cell_index(a);
    borrowed[at..at + bytes.len()].copy_from_slice(bytes);
}
