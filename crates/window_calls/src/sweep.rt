// Runs of many starts and lengths, each compared byte by byte with a model of the memory at the bottom.
use crate::scenes::{PLAIN_BYTES, Scene, scene_bytes};
use crate::script::{Answer, check_call, here};
use expect::{armed_set, same};
use mapping::Mapping;
use memory::{Access, Cause, Fault, Memory};
use plain::{CellsAlone, Plain};
use std::alloc::Global;
use std::test::Fail;
use window::Window;

// A mark: the address of the first byte of an entry, and the bits that are set in it by a read and by a write of its page.
pub(crate) type Mark = (u64, u8, u8);

// Cells of the image that stand side by side in the memory at the bottom.
#[derive(Clone, Copy)]
pub(crate) struct Piece<'a> {
    // the first window address, and how many cells there are
    pub(crate) first: u64,
    pub(crate) cells: u64,
    // where the first stands, or why none of them stands anywhere
    pub(crate) at: Result<u64, Cause>,
    pub(crate) marks: &'a [Mark],
}

// Cells that stand from this address on.
pub(crate) fn standing(first: u64, cells: u64, at: u64, marks: &[Mark]) -> Piece<'_> {
    Piece {
        first,
        cells,
        at: Ok(at),
        marks,
    }
}

// What is due of a window, and of the memory at the bottom.
#[derive(Drop)]
pub(crate) struct Model<'a> {
    // the size of the image
    pub(crate) image: u64,
    pub(crate) pieces: &'a [Piece<'a>],
    // the bytes of the memory, as the calls until now leave them
    pub(crate) bytes: Vec<u8>,
}

// The lengths of the runs that begin at each start.
const LENGTHS: [usize; 9] = [0, 1, 3, 4, 5, 33, 64, 128, 129];

// What every byte of a buffer is before a read.
const FILL: u8 = 0xee;

fn piece_of<'a>(pieces: &[Piece<'a>], s: u64) -> Option<Piece<'a>> {
    pieces
        .iter()
        .find(|piece| piece.first <= s && s.saturating_sub(piece.first) < piece.cells)
        .copied()
}

// Where a cell of the image stands, or its fault. A cell of no piece is blank.
fn place_of(pieces: &[Piece], s: u64) -> Result<u64, Fault> {
    let piece = piece_of(pieces, s).ok_or(Fault::here(Cause::Blank, s))?;
    let at = piece.at.map_err(|cause| Fault::here(cause, s))?;
    Ok(at.saturating_add(s.saturating_sub(piece.first)))
}

// The answer that is due of a run.
fn answer_of(model: &Model, a: u64, n: usize) -> Answer {
    let n = n as u64;
    if n == 0 || n > 128 - a % 128 {
        return here(Cause::BadRun, a);
    }
    if a >= model.image {
        return here(Cause::PastEnd, a);
    }
    for i in 0..n {
        place_of(model.pieces, a.saturating_add(i))?;
    }
    Ok(())
}

// The bytes of a buffer before its call. Those that a write puts differ from one to the next.
fn buffer_of(heap: Global, access: Access, a: u64, n: usize) -> Result<Vec<u8>, Fail> {
    let mut buffer = vec![in heap; FILL; n]?;
    if let Access::Write = access {
        let [.., mut next] = a.wrapping_mul(37).wrapping_add(n as u64).to_be_bytes();
        for byte in &mut buffer {
            next = next.wrapping_add(5);
            *byte = next;
        }
    }
    Ok(buffer)
}

// One call. An accepted read brings the bytes of the model, an accepted write changes them alike, and each sets marks in them.
fn check_run<W: Memory>(
    heap: Global,
    window: &mut W,
    model: &mut Model,
    access: Access,
    a: u64,
    n: usize,
) -> Result<(), Fail>
    requires { W.coherent window.old }
    ensures { W.coherent window.new }
{
    let mut buffer = buffer_of(heap, access, a, n)?;
    let answer = answer_of(model, a, n);
    check_call(heap, window, access, a, &mut buffer, answer)?;
    if answer.is_err() {
        return Ok(());
    }
    for (i, byte) in (0..).zip(&buffer) {
        check_cell(model, access, a.saturating_add(i), *byte)?;
    }
    Ok(())
}

// A cell of an accepted run, and the byte that was read or written there.
fn check_cell(model: &mut Model, access: Access, s: u64, byte: u8) -> Result<(), Fail> {
    let at = place_of(model.pieces, s).unwrap_or(u64::MAX);
    let Some(cell) = model.bytes.get_mut(at as usize) else {
        return Err(Fail::new("a cell stands outside the memory"));
    };
    match access {
        Access::Read => same(*cell, byte)?,
        Access::Write => *cell = byte,
    }
    if let Some(piece) = piece_of(model.pieces, s) {
        for (entry, referenced, modified) in piece.marks {
            let bits = match access {
                Access::Read => *referenced,
                Access::Write => *modified,
            };
            set_bits(&mut model.bytes, *entry, bits);
        }
    }
    Ok(())
}

fn set_bits(bytes: &mut [u8], a: u64, bits: u8) {
    if let Some(byte) = bytes.get_mut(a as usize) {
        *byte |= bits;
    }
}

// The runs from every start in a line, on one window.
pub(crate) fn sweep_line<P: Mapping, M: Memory + Drop>(
    heap: Global,
    registers: [u64; 5],
    below: M,
    model: &mut Model,
    line: u64,
) -> Result<(), Fail>
    requires { M.coherent below }
{
    let set = armed_set::<P>(&registers)?;
    let mut window = Window::open(set, below, &mut [0; 8]);
    same(window.size(), model.image)?;
    check_line(heap, &mut window, model, line)
}

fn check_line<W: Memory>(
    heap: Global,
    window: &mut W,
    model: &mut Model,
    line: u64,
) -> Result<(), Fail>
    requires { W.coherent window.old }
    ensures { W.coherent window.new }
{
    for offset in 0..128 {
        let a = line.saturating_add(offset);
        for n in LENGTHS {
            check_run(heap, window, model, Access::Read, a, n)?;
            check_run(heap, window, model, Access::Write, a, n)?;
        }
    }
    Ok(())
}

// The same in the lines that begin at these addresses, over plain memory. After each its bytes have to be those of the model.
pub(crate) fn sweep<P: Mapping>(
    heap: Global,
    scene: Scene,
    pieces: &[Piece],
    lines: &[u64],
) -> Result<(), Fail> {
    let mut bytes = scene_bytes::<CellsAlone>(heap, PLAIN_BYTES, scene)?;
    let mut model = Model {
        image: scene.registers[0],
        pieces,
        bytes: bytes.to_vec(heap)?,
    };
    for line in lines {
        let memory = Plain::new(&mut bytes);
        sweep_line::<P, Plain>(heap, scene.registers, memory, &mut model, *line)?;
        same(bytes == model.bytes, true)?;
    }
    Ok(())
}
