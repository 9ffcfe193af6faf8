// Stacks with pages that are not in memory, with entries that are not valid, and over a line that fails its check.
ghost use Rattle.std.specs.Prelude.{IfOk};

use crate::layer::{LOWEST, Layer, live};
use crate::placing::Placing;
use crate::stack::{
    CHECKED_BYTES, Copied, PLAIN_BYTES, bottom, check_memory, check_top, window_over,
};
use checked::{CheckByte, Checked, flip};
use colour::Colour;
use direct::Direct;
use mapping::Mapping;
use memory::{ByteMemory, LineFormat, Memory};
use plain::CellsAlone;
use std::alloc::Global;
use std::test::Fail;
use stride::Stride;
use transpose::Transpose;
use units::CHECKED_LINE;
use window::Window;

// One window over a bottom whose lines are all sound.
fn check_sound<P: Mapping + Placing, F: LineFormat>(
    heap: Global,
    borrowed: usize,
    layer: Layer,
) -> Result<(), Fail> {
    let mut bytes = vec![in heap; 0u8; borrowed]?;
    let bottom = bottom::<F>(heap, &mut bytes)?;
    check_top::<P, ByteMemory<F>>(heap, bottom, layer)
}

// Of eight pages three are in memory, of which one has its marks.
#[test]
fn dead_pages(rt: HostRuntime) -> Result<(), Fail> {
    let layer = Layer {
        registers: &[32768, 3],
        words: &[
            0x8000_0007,
            0x1000_0002,
            0x9000_0007,
            0x8000_0000,
            0x0000_0005,
            0xf000_0001,
            0xe000_0009,
            0x7000_0001,
        ],
        bytes: 12288,
    };
    check_sound::<Direct, CellsAlone>(rt.alloc(), PLAIN_BYTES, layer)?;
    check_sound::<Direct, CheckByte>(rt.alloc(), CHECKED_BYTES, layer)
}

// Eight objects of 32 bytes, two in each page, so that a line of the image has objects of two pages: one in memory, and one not.
#[test]
fn dead_objects(rt: HostRuntime) -> Result<(), Fail> {
    let layer = Layer {
        registers: &[256, 3, 32, 2176, 96],
        words: &[0x8000_0005, 0x1000_0002, 0x8000_0004, 0x9000_0006],
        bytes: 128,
    };
    check_sound::<Stride, CellsAlone>(rt.alloc(), PLAIN_BYTES, layer)?;
    check_sound::<Stride, CheckByte>(rt.alloc(), CHECKED_BYTES, layer)
}

// Pages 2 and 6 of the image are not blank, and page 6 is out.
#[test]
fn dead_colour(rt: HostRuntime) -> Result<(), Fail> {
    let layer = Layer {
        registers: &[32768, 3, 16384, 4096, 8192],
        words: &[0x8000_0005, 0x9000_0000],
        bytes: 4096,
    };
    check_sound::<Colour, CellsAlone>(rt.alloc(), PLAIN_BYTES, layer)
}

// A window of objects over a direct one with these entries, of whose image so many cells are bytes, and so many of the upper one.
fn check_two<M: Memory + Drop>(
    heap: Global,
    bottom: Copied<M>,
    words: &[u32],
    lower_bytes: usize,
    upper_bytes: usize,
) -> Result<(), Fail>
    requires { M.Memory.coherent bottom.memory }
{
    let lower = Layer {
        words,
        bytes: lower_bytes,
        ..live::<Direct>(0)
    };
    let upper = Layer {
        bytes: upper_bytes,
        ..live::<Stride>(1)
    };
    let window = window_over::<Direct, M>(heap, bottom, lower)?;
    check_top::<Stride, Window<Direct, M>>(heap, window, upper)
}

// Pages 14 and 9 of the lower image, the upper data's pages 0 and 2, with 32 objects each.
#[test]
fn dead_lower_pages(rt: HostRuntime) -> Result<(), Fail> {
    let heap = rt.alloc();
    let mut words = LOWEST;
    words[14] = 0x9000_001e;
    words[9] = 0x0000_0023;
    let mut bytes = vec![in heap; 0u8; PLAIN_BYTES]?;
    let bottom = bottom::<CellsAlone>(heap, &mut bytes)?;
    check_two(heap, bottom, &words, 57344, 8192)
}

// Page 5 of the lower image, in which the upper table lies.
#[test]
fn dead_upper_table(rt: HostRuntime) -> Result<(), Fail> {
    let heap = rt.alloc();
    let mut words = LOWEST;
    words[5] = 0x9000_0007;
    let mut bytes = vec![in heap; 0u8; PLAIN_BYTES]?;
    let bottom = bottom::<CellsAlone>(heap, &mut bytes)?;
    check_two(heap, bottom, &words, 61440, 0)
}

// A checked bottom, in one line of which a bit turns over once all is written.
pub(crate) fn spoilt_bottom<'a>(
    heap: Global,
    bytes: &'a mut [u8],
    line: u32,
) -> Result<Copied<Checked<'a>>, Fail>
    ensures { IfOk result (λ c. ⟦<Checked<'a> as Memory>⟧.coherent c.memory) }
{
    let Copied {
        memory: _,
        mut copy,
    } = bottom::<CheckByte>(heap, bytes)?;
    flip(bytes, line as usize * CHECKED_LINE + 77, 6);
    copy.spoil(u64::from(line));
    Ok(Copied {
        memory: Checked::new(bytes),
        copy,
    })
}

#[test]
fn failed_check(rt: HostRuntime) -> Result<(), Fail> {
    let heap = rt.alloc();
    let mut bytes = vec![in heap; 0u8; CHECKED_BYTES]?;
    let Copied {
        mut memory,
        mut copy,
    } = spoilt_bottom(heap, &mut bytes, 5)?;
    check_memory(heap, &mut memory, &mut copy, 1)
}

// One window over such a bottom.
fn check_spoilt<P: Mapping + Placing>(heap: Global, line: u32, layer: Layer) -> Result<(), Fail> {
    let mut bytes = vec![in heap; 0u8; CHECKED_BYTES]?;
    let bottom = spoilt_bottom(heap, &mut bytes, line)?;
    check_top::<P, Checked>(heap, bottom, layer)
}

// The first line of page 12, in which the first object of 64 bytes stands.
#[test]
fn failed_check_of_an_object(rt: HostRuntime) -> Result<(), Fail> {
    let layer = Layer {
        bytes: 65472,
        ..live::<Stride>(0)
    };
    check_spoilt::<Stride>(rt.alloc(), 384, layer)
}

// The first line of page 3: no entry can be written or read.
#[test]
fn failed_check_of_the_table(rt: HostRuntime) -> Result<(), Fail> {
    let layer = Layer {
        bytes: 0,
        ..live::<Colour>(0)
    };
    check_spoilt::<Colour>(rt.alloc(), 96, layer)
}

// The second line of the table. Of two elements the second one has its entry there.
#[test]
fn failed_check_of_a_later_entry(rt: HostRuntime) -> Result<(), Fail> {
    let mut words = [0; 33];
    words[0] = 0x8000_0005;
    words[32] = 0x8000_0004;
    let layer = Layer {
        registers: &[128, 3, 64, 131072, 2],
        words: &words,
        bytes: 64,
    };
    check_spoilt::<Transpose>(rt.alloc(), 97, layer)
}

// The first line of page 30, which is page 14 of the lower image and page 0 of the upper data; and that of page 7, which is page 5 of the
// lower image, with the upper table.
#[test]
fn failed_check_below_two(rt: HostRuntime) -> Result<(), Fail> {
    let heap = rt.alloc();
    for (line, upper_bytes) in [(960, 12224), (224, 0)] {
        let mut bytes = vec![in heap; 0u8; CHECKED_BYTES]?;
        let bottom = spoilt_bottom(heap, &mut bytes, line)?;
        check_two(heap, bottom, &LOWEST, 65408, upper_bytes)?;
    }
    Ok(())
}

// The sixth line of page 30: page 14 of the lowest image, page 0 of the middle one, and the sixth object of four bytes of the upper one.
#[test]
fn failed_check_below_three(rt: HostRuntime) -> Result<(), Fail> {
    let heap = rt.alloc();
    let mut bytes = vec![in heap; 0u8; CHECKED_BYTES]?;
    let bottom = spoilt_bottom(heap, &mut bytes, 965)?;
    let lower = Layer {
        bytes: 65408,
        ..live::<Direct>(0)
    };
    let middle = Layer {
        bytes: 12160,
        ..live::<Direct>(1)
    };
    let upper = Layer {
        bytes: 124,
        ..live::<Stride>(2)
    };
    let below = window_over::<Direct, Checked>(heap, bottom, lower)?;
    let below = window_over::<Direct, Window<Direct, Checked>>(heap, below, middle)?;
    check_top::<Stride, Window<Direct, Window<Direct, Checked>>>(heap, below, upper)
}
