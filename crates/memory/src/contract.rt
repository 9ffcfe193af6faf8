// The contract of a memory: three calls, which every memory answers alike.
ghost use Rattle.std.specs.Prelude.{◌≡◌, length};
ghost use Rattle.memory.specs.Meaning.{Meaning, WellFormed};
ghost use Rattle.memory.specs.Calls.{read_answer, write_answer, delivered, written};
ghost use Rattle.memory.specs.Reach.{Call, reading, writing};

use crate::fault::Fault;

// Bytes behind addresses, read and written a run at a time. A memory holds its bytes itself, or stands over another memory.
pub trait Memory {
    // The size, and at each address a byte or a fault.
    ghost meaning: { Self → Meaning };

    // Holds of every state that is reached from the memory's making. Each call asks it and promises it by this name, since what holds
    // is another fact for each memory.
    ghost coherent: { Self → Type 0 };

    // What a call does to the state itself, beyond the meaning: the state before, the call, the state after.
    ghost step: { Self → Call → Self → Type 0 };

    fn size(&self) -> u64
        requires { coherent self.now }
        ensures { result ≡ (meaning self.now).size };

    // Fills the buffer from the cells at `a`, or refuses and leaves the buffer.
    fn read(&mut self, a: u64, buffer: &mut [u8]) -> Result<(), Fault>
        requires { coherent self.old }
        ensures answer { result ≡ read_answer (meaning self.old) a (length buffer.old) }
        ensures buffer { buffer.new ≡ delivered (meaning self.old) a buffer.old }
        ensures meaning { meaning self.new ≡ meaning self.old }
        ensures coherent { coherent self.new }
        ensures step { step self.old (reading a buffer.old) self.new };

    // Puts the bytes into the cells at `a`, or refuses and changes none.
    fn write(&mut self, a: u64, bytes: &[u8]) -> Result<(), Fault>
        requires { coherent self.old }
        ensures answer { result ≡ write_answer (meaning self.old) a (length bytes.now) }
        ensures meaning { meaning self.new ≡ written (meaning self.old) a bytes.now }
        ensures coherent { coherent self.new }
        ensures step { step self.old (writing a bytes.now) self.new };

    // The law that every memory proves: a coherent memory has a well-formed meaning.
    ghost formed: { (m : Self) → coherent m → WellFormed (meaning m) };
}
