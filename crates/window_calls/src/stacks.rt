// A window over a window.
use crate::scenes::{CHECKED_BYTES, Entry, PLAIN_BYTES, Scene, put_entries, scene_bytes};
use crate::script::{Answer, Change, Step, change, check_window, refused};
use crate::sweep::{Model, standing, sweep_line};
use checked::{CheckByte, Checked, flip};
use expect::{armed_set, same};
use memory::{Access, Cause, LineFormat};
use plain::{CellsAlone, Plain};
use std::alloc::Global;
use std::test::Fail;
use stride::Stride;
use transpose::Transpose;
use window::Window;

// The lower window: two rows of 64 elements of a line, one row every 8,320 bytes, so its image is four pages. Its table lies in page 0 of
// the bottom, and has five entries.
const LOWER: Scene = Scene {
    registers: [16384, 0, 128, 8320, 2],
    entries: &[
        (0, 0x8000_0005),
        (1, 0x8000_0003),
        (2, 0x8000_0001),
        (3, 0x8000_0006),
        (4, 0x8000_0002),
    ],
};

// The upper window: four objects of 32 bytes, from 96 on, one every 2,176 bytes. Its table lies in page 1 of the lower window's image: its
// two entries are at 4096 and 4100 there, at 2048 and 2052 in the lower data, and so at 22528 and 22532 of the bottom.
const UPPER: [u64; 5] = [128, 1, 32, 2176, 96];

const UPPER_TABLE: u64 = 22528;

// Page 0 of the upper data is page 2 of the lower image, and page 1 is page 0.
const UPPER_ENTRIES: &[Entry] = &[(0, 0x8000_0002), (1, 0x8000_0000)];

fn bottom_bytes<F: LineFormat>(heap: Global, borrowed: usize) -> Result<Vec<u8>, Fail> {
    let mut bytes = scene_bytes::<F>(heap, borrowed, LOWER)?;
    put_entries::<F>(&mut bytes, UPPER_TABLE, UPPER_ENTRIES);
    Ok(bytes)
}

// Image      0      32     64     96
// upper data 96     2272   4448   6624
// lower      8288   10464  352    2528
// lower data 4192   13536  224    9568
// bottom     12384  25824  20704  5472
//
// A call that marks an entry of the upper table writes to the lower page 0, in which that lies.
#[test]
fn places(rt: HostRuntime) -> Result<(), Fail> {
    let heap = rt.alloc();
    let pieces = [
        standing(
            0,
            32,
            12384,
            &[(UPPER_TABLE, 0x40, 0x60), (0, 0x60, 0x60), (4, 0x40, 0x60)],
        ),
        standing(
            32,
            32,
            25824,
            &[(UPPER_TABLE, 0x40, 0x60), (0, 0x60, 0x60), (12, 0x40, 0x60)],
        ),
        standing(64, 32, 20704, &[(22532, 0x40, 0x60), (0, 0x60, 0x60)]),
        standing(
            96,
            32,
            5472,
            &[(22532, 0x40, 0x60), (0, 0x60, 0x60), (8, 0x40, 0x60)],
        ),
    ];
    let mut bytes = bottom_bytes::<CellsAlone>(heap, PLAIN_BYTES)?;
    let mut model = Model {
        image: UPPER[0],
        pieces: &pieces,
        bytes: bytes.to_vec(heap)?,
    };
    // the upper opening reads the upper table
    change::<CellsAlone>(heap, &mut model.bytes, &[(0, 1, 0xc0)])?;
    for line in [0, 128] {
        let set = armed_set::<Transpose>(&LOWER.registers)?;
        let lower = Window::open(set, Plain::new(&mut bytes), &mut [0; 8]);
        sweep_line::<Stride, Window<Transpose, Plain>>(heap, UPPER, lower, &mut model, line)?;
        same(bytes == model.bytes, true)?;
    }
    Ok(())
}

// Calls on the upper window over checked memory. Its bytes have to be as they were but for the changes.
fn check_two(
    heap: Global,
    bytes: &mut [u8],
    steps: &[Step],
    changes: &[Change],
) -> Result<(), Fail> {
    let mut due = bytes.to_vec(heap)?;
    change::<CheckByte>(heap, &mut due, changes)?;
    let set = armed_set::<Transpose>(&LOWER.registers)?;
    let lower = Window::open(set, Checked::new(bytes), &mut [0; 8]);
    check_window::<Stride, Window<Transpose, Checked>>(heap, UPPER, lower, steps)?;
    same(&*bytes == due.as_slice(), true)
}

// The same after a bit of this borrowed byte was turned over.
fn check_flipped(heap: Global, at: usize, steps: &[Step], changes: &[Change]) -> Result<(), Fail> {
    let mut bytes = bottom_bytes::<CheckByte>(heap, CHECKED_BYTES)?;
    flip(&mut bytes, at, 2);
    check_two(heap, &mut bytes, steps, changes)
}

// A failed check of the memory below the lower window.
fn failed_check(place: u64) -> Answer {
    refused(Cause::FailedCheck, 2, place)
}

// The line of the object at 32, which is line 201 of the bottom: of a refused call only the lower window keeps marks, of what the upper
// one read in it.
#[test]
fn failed_check_of_an_object(rt: HostRuntime) -> Result<(), Fail> {
    check_flipped(
        rt.alloc(),
        201 * 129,
        &[
            (Access::Read, 0, 128, failed_check(25824), 2, 1),
            (Access::Write, 40, 20, failed_check(25832), 3, 1),
        ],
        &[(0, 1, 0xc0), (4, 1, 0xc0)],
    )
}

// Its line is line 176.
#[test]
fn failed_check_of_the_upper_table(rt: HostRuntime) -> Result<(), Fail> {
    check_flipped(
        rt.alloc(),
        176 * 129,
        &[
            (Access::Read, 0, 128, failed_check(22528), 1, 0),
            (Access::Write, 100, 1, failed_check(22532), 2, 0),
        ],
        &[],
    )
}

// Its line is line 0: nothing of the upper table can be read.
#[test]
fn failed_check_of_the_lower_table(rt: HostRuntime) -> Result<(), Fail> {
    check_flipped(
        rt.alloc(),
        5,
        &[
            (Access::Read, 0, 128, failed_check(0), 1, 0),
            (Access::Write, 100, 1, failed_check(0), 2, 0),
        ],
        &[],
    )
}

// Lower pages that are not in memory: that of the object at 32, and that of the upper table.
#[test]
fn dead_lower_entries(rt: HostRuntime) -> Result<(), Fail> {
    let heap = rt.alloc();
    for (entry, steps, changes) in [
        (
            (3, 0x9000_0006),
            &[
                (
                    Access::Read,
                    0,
                    128,
                    refused(Cause::PageOut, 1, 10464),
                    2,
                    1,
                ),
                (
                    Access::Write,
                    50,
                    50,
                    refused(Cause::PageOut, 1, 10482),
                    3,
                    1,
                ),
            ],
            &[(0, 1, 0xc0), (4, 1, 0xc0)],
        ),
        (
            (0, 0x1000_0005),
            &[
                (Access::Read, 0, 128, refused(Cause::NoPage, 1, 4096), 1, 0),
                (Access::Write, 100, 1, refused(Cause::NoPage, 1, 4100), 2, 0),
            ],
            &[(4, 1, 0x80), (8, 1, 0x80)],
        ),
    ] {
        let mut bytes = bottom_bytes::<CheckByte>(heap, CHECKED_BYTES)?;
        put_entries::<CheckByte>(&mut bytes, 0, &[entry]);
        check_two(heap, &mut bytes, steps, changes)?;
    }
    Ok(())
}
