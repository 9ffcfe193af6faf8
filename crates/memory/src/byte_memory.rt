// Memories over borrowed bytes. How the bytes hold the lines is a format; all else of such a memory stands here once.
ghost use Rattle.std.specs.Prelude.{◌≡◌, ℕ, List, length, IfOk};
ghost use Rattle.std.specs.Result.{result_map_both};
ghost use Rattle.memory.specs.Bytes.{AllBytes, Over};
ghost use Rattle.memory.specs.Calls.{read_answer, write_answer, delivered, written, StandsAt};
ghost use Rattle.memory.specs.Meaning.{Meaning, WellFormed};
ghost use Rattle.memory.specs.Reach.{bytes_after};

use crate::contract::Memory;
use crate::fault::Fault;
use std::marker::PhantomData;

// How bytes hold the lines of a memory. Any bytes mean one, so its calls ask nothing.
pub trait LineFormat {
    // The memory that the bytes mean.
    ghost meaning: { List ℕ → Meaning };

    // What the bytes are after a write at an address.
    ghost updated: { List ℕ → ℕ → List ℕ → List ℕ };

    fn size(borrowed: &[u8]) -> u64
        ensures { result ≡ (meaning borrowed.now).size };

    // Where the cells of a run stand in the bytes, one after the other, or the refusal of the run.
    fn find(borrowed: &[u8], a: u64, n: usize) -> Result<usize, Fault>
        ensures answer { result_map_both (λ _. tt) (λ f. f) result ≡ read_answer (meaning borrowed.now) a n }
        ensures cells { IfOk result (StandsAt (meaning borrowed.now) borrowed.now a n) };

    fn write(borrowed: &mut [u8], a: u64, bytes: &[u8]) -> Result<(), Fault>
        ensures answer { result ≡ write_answer (meaning borrowed.old) a (length bytes.now) }
        ensures borrowed { borrowed.new ≡ updated borrowed.old a bytes.now }
        ensures meaning { meaning borrowed.new ≡ written (meaning borrowed.old) a bytes.now }
        ensures bytes { AllBytes borrowed.new };

    ghost formed: { (xs : List ℕ) → AllBytes xs → WellFormed (meaning xs) };
}

// The bytes are borrowed, and a write changes of them just what the format's `updated` says.
#[derive(Drop)]
pub struct ByteMemory<'a, F: LineFormat> {
    bytes: &'a mut [u8],
    format: PhantomData<F>,
}

impl<'a, F: LineFormat> ByteMemory<'a, F> {
    pub fn new(bytes: &'a mut [u8]) -> ByteMemory<'a, F>
        ensures bytes { Over result.bytes bytes.old bytes.entry }
        ensures coherent { AllBytes result.bytes.now }
    {
        ByteMemory {
            bytes,
            format: PhantomData,
        }
    }

    // A read of the bytes, which it leaves as they are. Apart from `read`, since what is borrowed from behind a `&mut self` comes back unknown.
    fn fetch(&self, a: u64, buffer: &mut [u8]) -> Result<(), Fault>
        ensures answer { result ≡ read_answer (F.meaning self.now.bytes.now) a (length buffer.old) }
        ensures buffer { buffer.new ≡ delivered (F.meaning self.now.bytes.now) a buffer.old }
    {
        let n = buffer.len();
        let at = F::find(self.bytes, a, n)?;
        buffer.copy_from_slice(&self.bytes[at..at + n]);
        Ok(())
    }
}

impl<F: LineFormat> Memory for ByteMemory<'_, F> {
    ghost meaning = { λ m. F.meaning m.bytes.now };

    ghost coherent = { λ m. AllBytes m.bytes.now };

    ghost formed = { λ m c. F.formed m.bytes.now c };

    ghost step = { λ before call after. Over after.bytes (bytes_after F.updated before.bytes.now call) before.bytes };

    fn size(&self) -> u64 {
        F::size(self.bytes)
    }

    fn read(&mut self, a: u64, buffer: &mut [u8]) -> Result<(), Fault> {
        self.fetch(a, buffer)
    }

    fn write(&mut self, a: u64, bytes: &[u8]) -> Result<(), Fault> {
        F::write(self.bytes, a, bytes)
    }
}
