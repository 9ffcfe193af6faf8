// Caches over windows with pages that are not in memory, and over a line that fails its check.
use crate::cached::{cache_over, check_cache};
use crate::faults::spoilt_bottom;
use crate::layer::{Layer, live};
use crate::stack::{CHECKED_BYTES, PLAIN_BYTES, bottom, check_top, window_over};
use cache::Cache;
use checked::{CheckByte, Checked};
use direct::Direct;
use memory::{ByteMemory, LineFormat};
use plain::CellsAlone;
use std::alloc::Global;
use std::test::Fail;
use stride::Stride;
use window::Window;

// Of each line of the image one half is in memory, and of the other one the entry is not valid, or says that the page is out.
const HALVES: Layer = Layer {
    registers: &[256, 3, 32, 2176, 96],
    words: &[0x8000_0005, 0x1000_0002, 0x8000_0004, 0x9000_0006],
    bytes: 128,
};

// One cache over such a window, and two, over a cache.
fn check_halves<F: LineFormat>(heap: Global, borrowed: usize) -> Result<(), Fail> {
    let mut bytes = vec![in heap; 0u8; borrowed]?;
    let memory = bottom::<F>(heap, &mut bytes)?;
    let window = window_over::<Stride, ByteMemory<F>>(heap, memory, HALVES)?;
    check_cache(heap, window)?;
    let mut bytes = vec![in heap; 0u8; borrowed]?;
    let cache = cache_over(heap, bottom::<F>(heap, &mut bytes)?)?;
    let window = window_over::<Stride, Cache<ByteMemory<F>>>(heap, cache, HALVES)?;
    check_cache(heap, cache_over(heap, window)?)
}

#[test]
fn half_lines(rt: HostRuntime) -> Result<(), Fail> {
    let heap = rt.alloc();
    check_halves::<CellsAlone>(heap, PLAIN_BYTES)?;
    check_halves::<CheckByte>(heap, CHECKED_BYTES)
}

#[test]
fn failed_check_below_caches(rt: HostRuntime) -> Result<(), Fail> {
    let heap = rt.alloc();
    let mut bytes = vec![in heap; 0u8; CHECKED_BYTES]?;
    let cache = cache_over(heap, spoilt_bottom(heap, &mut bytes, 5)?)?;
    check_cache(heap, cache_over(heap, cache)?)
}

// A cache, a direct window, a cache, and a window of objects over a line that fails its check: line 960, of which the lower image has page 14,
// which is page 0 of the upper data; and line 224, which is page 5 of the lower image, with the upper table.
#[test]
fn failed_check_below_four(rt: HostRuntime) -> Result<(), Fail> {
    let heap = rt.alloc();
    for (line, upper_bytes) in [(960, 12224), (224, 0)] {
        let mut bytes = vec![in heap; 0u8; CHECKED_BYTES]?;
        let cache = cache_over(heap, spoilt_bottom(heap, &mut bytes, line)?)?;
        let lower = Layer {
            bytes: 65408,
            ..live::<Direct>(0)
        };
        let upper = Layer {
            bytes: upper_bytes,
            ..live::<Stride>(1)
        };
        let window = window_over::<Direct, Cache<Checked>>(heap, cache, lower)?;
        let cache = cache_over(heap, window)?;
        check_top::<Stride, Cache<Window<Direct, Cache<Checked>>>>(heap, cache, upper)?;
    }
    Ok(())
}
