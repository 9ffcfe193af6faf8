// Checked memory: it borrows 129 bytes for each line, 128 cells and then their exclusive or, the check byte.
ghost use Rattle.std.specs.Prelude.{◌≡◌, ◌+◌, ◌^◌, ◌<◌, ◌≤◌, length, take, Ok};
ghost use Rattle.memory.specs.Bytes.{AllBytes, overlaid};
ghost use Rattle.memory.specs.Calls.{read_answer, write_answer, written};
ghost use Rattle.checked.specs.Line.{exclusive_or, sealed, line_start, cell_index, line_answer};
ghost use Rattle.checked.specs.Checked.{checked_meaning, updated, well_formed};

use memory::{ByteMemory, Cause, Fault, LineFormat, capacity, check_run};
use units::{CHECKED_LINE, LINE};

// A line is borrowed as its 128 cells and a check byte. Bytes after the last whole line, or past 2^40 cells, are no cells.
pub struct CheckByte;

pub type Checked<'a> = ByteMemory<'a, CheckByte>;

impl LineFormat for CheckByte {
    ghost meaning = { checked_meaning };

    ghost updated = { updated };

    ghost formed = { well_formed };

    fn size(borrowed: &[u8]) -> u64 {
        capacity((borrowed.len() / CHECKED_LINE) as u64)
    }

    fn find(borrowed: &[u8], a: u64, n: usize) -> Result<usize, Fault> {
        answer(borrowed, a, n)?;
        Ok(cell_index(a))
    }

    // As in every format, and no more than the order of its own two calls.
    fn write(borrowed: &mut [u8], a: u64, bytes: &[u8]) -> Result<(), Fault> {
        answer(borrowed, a, bytes.len())?;
        copy_in(borrowed, a, bytes);
        Ok(())
    }
}

// The answer to a run: its cells are bytes if its line passes the check.
fn answer(borrowed: &[u8], a: u64, n: usize) -> Result<(), Fault>
    ensures read { result ≡ read_answer (checked_meaning borrowed.now) a n }
    ensures write { result ≡ write_answer (checked_meaning borrowed.now) a n }
{
    check_run(CheckByte::size(borrowed), a, n)?;
    line_answer(borrowed, a)
}

// The line of this address passes its check, or the fault of the cell there.
fn line_answer(borrowed: &[u8], a: u64) -> Result<(), Fault>
    requires { line_start a + 129 ≤ length borrowed.now }
    ensures { result ≡ line_answer borrowed.now a }
{
    let from = line_start(a);
    if line_parity(&borrowed[from..from + CHECKED_LINE]) != 0 {
        return Err(Fault::here(Cause::FailedCheck, a));
    }
    Ok(())
}

// Puts the bytes into a run that is accepted.
fn copy_in(borrowed: &mut [u8], a: u64, bytes: &[u8])
    requires { write_answer (checked_meaning borrowed.old) a (length bytes.now) ≡ Ok tt }
    ensures borrowed { borrowed.new ≡ updated borrowed.old a bytes.now }
    ensures meaning { checked_meaning borrowed.new ≡ written (checked_meaning borrowed.old) a bytes.now }
    ensures bytes { AllBytes borrowed.new }
{
    let from = line_start(a);
    let offset = (a % LINE) as usize;
    store(&mut borrowed[from..from + CHECKED_LINE], offset, bytes);
}

// Where the line of this address begins in the borrowed bytes.
fn line_start(a: u64) -> usize
    requires { line_start a < 2 ^ 64 }
    ensures { result ≡ line_start a }
{
    (a / LINE) as usize * CHECKED_LINE
}

// Where the cell of this address stands in the borrowed bytes.
fn cell_index(a: u64) -> usize
    requires { cell_index a < 2 ^ 64 }
    ensures { result ≡ cell_index a }
{
    line_start(a) + (a % LINE) as usize
}

// The exclusive or of a whole line. The check byte comes apart, since the compiler works out that of 128 bytes many at a time, and that of
// 129 one by one.
#[tactic(auto, using(crate::proofs::Xors::xor_line))]
fn line_parity(line: &[u8]) -> u8
    requires { length line.now ≡ 129 }
    ensures { result ≡ exclusive_or line.now }
{
    exclusive_or(&line[0..128]) ^ line[128]
}

fn exclusive_or(bytes: &[u8]) -> u8
    ensures { result ≡ exclusive_or bytes.now }
{
    bytes.iter().fold(0, |all, byte| all ^ byte)
}

// Puts the bytes into the line at the offset, and brings the check byte up to date. The line comes whole, since its check byte is of all
// its cells.
fn store(line: &mut [u8], offset: usize, bytes: &[u8])
    requires { (length line.old ≡ 129) × (offset + length bytes.now ≤ 128) }
    ensures { line.new ≡ sealed (overlaid (take 128 line.old) offset bytes.now) }
{
    let end = offset + bytes.len();
    line[offset..end].copy_from_slice(bytes);
    seal(line);
}

// Makes the last byte of a line the check byte of the others.
#[tactic(auto, using(crate::proofs::Lines::set_check))]
fn seal(line: &mut [u8])
    requires { length line.old ≡ 129 }
    ensures { line.new ≡ sealed (take 128 line.old) }
{
    line[128] = exclusive_or(&line[0..128]);
}
