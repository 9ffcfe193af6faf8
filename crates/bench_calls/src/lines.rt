// The first lines of any memory, one call for each.
ghost use Rattle.std.specs.Prelude.{◌≡◌, IfSome};
ghost use Rattle.std.specs.Option.{option_map};
ghost use Rattle.bench_calls.specs.Lines.{all_read, last_read, after_writes, all_written, each_read, each_written, last_of};

use memory::Memory;
use units::LINE;

// Reads the first lines of a memory, if there is one. Whether there is, and every read was accepted.
pub(crate) fn read_each<M: Memory + Drop>(
    memory: Option<M>,
    lines: u32,
    line: &mut [u8; 128],
) -> bool
    requires { IfSome memory M.Memory.coherent }
    ensures answer { result ≡ each_read (option_map M.Memory.meaning memory) lines }
    ensures line { line.new ≡ last_of (option_map M.Memory.meaning memory) lines line.old }
{
    match memory {
        Some(mut memory) => read_lines(&mut memory, lines, line),
        None => false,
    }
}

// Writes them.
pub(crate) fn write_each<M: Memory + Drop>(memory: Option<M>, lines: u32, line: &[u8; 128]) -> bool
    requires { IfSome memory M.Memory.coherent }
    ensures { result ≡ each_written (option_map M.Memory.meaning memory) lines line.now }
{
    match memory {
        Some(mut memory) => write_lines(&mut memory, lines, line),
        None => false,
    }
}

// Reads the first lines in their order, each into the same buffer. Whether every read was accepted.
#[tactic(auto, unfolding(crate::specs::Lines::all_read, crate::specs::Lines::last_read))]
fn read_lines<M: Memory>(memory: &mut M, lines: u32, line: &mut [u8; 128]) -> bool
    requires { M.Memory.coherent memory.old }
    ensures answer { result ≡ all_read (M.Memory.meaning memory.old) lines }
    ensures line { line.new ≡ last_read (M.Memory.meaning memory.old) lines line.old }
    ensures meaning { M.Memory.meaning memory.new ≡ M.Memory.meaning memory.old }
    ensures coherent { M.Memory.coherent memory.new }
{
    let mut all = true;
    for number in 0..lines {
        let answer = memory.read(u64::from(number) * LINE, line);
        all = all && answer.is_ok();
    }
    all
}

// Writes the same bytes into each of the first lines. Whether every write was accepted.
#[tactic(auto, unfolding(crate::specs::Lines::after_writes, crate::specs::Lines::all_written))]
fn write_lines<M: Memory>(memory: &mut M, lines: u32, line: &[u8; 128]) -> bool
    requires { M.Memory.coherent memory.old }
    ensures answer { result ≡ all_written (M.Memory.meaning memory.old) lines line.now }
    ensures meaning { M.Memory.meaning memory.new ≡ after_writes (M.Memory.meaning memory.old) lines line.now }
    ensures coherent { M.Memory.coherent memory.new }
{
    let mut all = true;
    for number in 0..lines {
        let answer = memory.write(u64::from(number) * LINE, line);
        all = all && answer.is_ok();
    }
    all
}
