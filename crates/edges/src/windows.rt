// Windows, and windows over windows: they are memories as any other.
use crate::suite::edges;
use expect::{armed_set, same};
use memory::Memory;
use plain::Plain;
use std::test::Fail;
use stride::Stride;
use transpose::Transpose;
use window::Window;

// Makes entries 0 to 3 of the table that starts at this address name these pages.
fn put_frames<M: Memory>(memory: &mut M, start: u64, frames: [u8; 4]) -> Result<(), Fail>
    requires { M.coherent memory.old }
    ensures { M.coherent memory.new }
{
    let [first, second, third, fourth] = frames;
    let entries = [
        0x80, 0, 0, first, 0x80, 0, 0, second, 0x80, 0, 0, third, 0x80, 0, 0, fourth,
    ];
    same(memory.write(start, &entries), Ok(()))
}

// A window of two lines over four pages from page 0 on, and one of 12,288 bytes, that is three pages and no part, under one of a line.
fn window_edges<M: Memory + Drop>(below: M) -> Result<(), Fail>
    requires { M.coherent below }
{
    let mut below = below;
    put_frames(&mut below, 16384, [3, 0, 2, 1])?;
    // objects of 32 bytes from 96 on, one every 2176 bytes
    let two_lines = armed_set::<Stride>(&[256, 4, 32, 2176, 96])?;
    let mut board = [0; 5];
    let mut window = Window::open(two_lines, below, &mut board);
    edges(&mut window, 256)?;
    // two rows of 48 lines, one every 8320 bytes: an extent of 14464 bytes, which reaches the same four pages
    let three_pages = armed_set::<Transpose>(&[12288, 4, 128, 8320, 2])?;
    let mut lower = Window::open(three_pages, window.close(), &mut board);
    edges(&mut lower, 12288)?;
    put_frames(&mut lower, 8192, [1, 0, 0, 0])?;
    let one_line = armed_set::<Stride>(&[128, 2, 32, 512, 64])?;
    let mut upper = Window::open(one_line, lower, &mut board);
    edges(&mut upper, 128)
}

#[test]
fn edges_of_windows() -> Result<(), Fail> {
    let mut bytes = [0; 20480];
    window_edges(Plain::new(&mut bytes))
}
