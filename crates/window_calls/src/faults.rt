// Runs that are refused: which fault is answered, and that it is the only thing that comes of them.
use crate::scenes::{CHECKED_BYTES, LIVE, OBJECTS, PLAIN_BYTES, Scene, scene_bytes};
use crate::script::{Run, below, check_opened, check_runs, here};
use checked::{CheckByte, flip};
use colour::Colour;
use direct::Direct;
use expect::same;
use mapping::Mapping;
use memory::{Access, Cause, LineFormat};
use plain::{CellsAlone, Plain};
use spoilt::OneFault;
use std::alloc::Global;
use std::test::Fail;
use stride::Stride;
use transpose::Transpose;

const LAST: u64 = u64::MAX;

// Runs over bytes that are written as plain memory, whichever memory then holds them.
fn check_scene<P: Mapping, F: LineFormat>(
    heap: Global,
    scene: Scene,
    runs: &[Run],
) -> Result<(), Fail> {
    let bytes = scene_bytes::<CellsAlone>(heap, PLAIN_BYTES, scene)?;
    check_runs::<P, F>(heap, scene, &bytes, runs)
}

// Pages 1 and 3 of the objects are not in memory: the entry of page 1 is not valid, and out as well.
const DEAD: Scene = Scene {
    registers: OBJECTS,
    entries: &[
        (0, 0x8000_0005),
        (1, 0x1000_0002),
        (2, 0x8000_0003),
        (3, 0x9000_0006),
    ],
};

#[test]
fn dead_entries(rt: HostRuntime) -> Result<(), Fail> {
    check_scene::<Stride, CellsAlone>(
        rt.alloc(),
        DEAD,
        &[
            (0, 0, here(Cause::BadRun, 0), 0, 0),
            (0, 129, here(Cause::BadRun, 0), 0, 0),
            (127, 2, here(Cause::BadRun, 127), 0, 0),
            (256, 1, here(Cause::PastEnd, 256), 0, 0),
            (LAST, 1, here(Cause::PastEnd, LAST), 0, 0),
            (LAST, 2, here(Cause::BadRun, LAST), 0, 0),
            (0, 64, Ok(()), 2, 1),
            (0, 128, here(Cause::NoPage, 64), 3, 1),
            (63, 1, Ok(()), 1, 1),
            (63, 2, here(Cause::NoPage, 64), 2, 1),
            (64, 1, here(Cause::NoPage, 64), 1, 0),
            (100, 28, here(Cause::NoPage, 100), 1, 0),
            (128, 64, Ok(()), 2, 1),
            (128, 128, here(Cause::PageOut, 192), 3, 1),
            (190, 3, here(Cause::PageOut, 192), 2, 1),
            (191, 1, Ok(()), 1, 1),
            (192, 1, here(Cause::PageOut, 192), 1, 0),
            (255, 1, here(Cause::PageOut, 255), 1, 0),
        ],
    )
}

// Pages 2 and 6 of the image are drawn from pages 0 and 1 of the data, and nothing stands behind the others.
#[test]
fn blanks(rt: HostRuntime) -> Result<(), Fail> {
    let scene = Scene {
        registers: [32768, 1, 16384, 4096, 8192],
        entries: &[(0, 0x8000_0005), (1, 0x9000_0000)],
    };
    check_scene::<Colour, CellsAlone>(
        rt.alloc(),
        scene,
        &[
            (0, 1, here(Cause::Blank, 0), 0, 0),
            (0, 128, here(Cause::Blank, 0), 0, 0),
            (8191, 1, here(Cause::Blank, 8191), 0, 0),
            (8191, 2, here(Cause::BadRun, 8191), 0, 0),
            (8192, 128, Ok(()), 1, 1),
            (12287, 1, Ok(()), 1, 1),
            (12288, 1, here(Cause::Blank, 12288), 0, 0),
            (24575, 1, here(Cause::Blank, 24575), 0, 0),
            (24576, 1, here(Cause::PageOut, 24576), 1, 0),
            (28671, 1, here(Cause::PageOut, 28671), 1, 0),
            (32767, 1, here(Cause::Blank, 32767), 0, 0),
            (32768, 1, here(Cause::PastEnd, 32768), 0, 0),
        ],
    )
}

// Runs over a checked memory in which a bit of this borrowed byte turns over once all is written.
fn check_flipped<P: Mapping>(
    heap: Global,
    scene: Scene,
    at: usize,
    bit: u8,
    runs: &[Run],
) -> Result<(), Fail> {
    let mut bytes = scene_bytes::<CheckByte>(heap, CHECKED_BYTES, scene)?;
    flip(&mut bytes, at, bit);
    check_runs::<P, CheckByte>(heap, scene, &bytes, runs)
}

// The line of the object at 32 is line 177 of the memory, so it is borrowed from 177 × 129 = 22833 on: a cell of the object, a cell
// before it, and the check byte.
#[test]
fn failed_check_of_an_object(rt: HostRuntime) -> Result<(), Fail> {
    for at in [22940, 22833, 22961] {
        check_flipped::<Stride>(
            rt.alloc(),
            LIVE,
            at,
            5,
            &[
                (0, 32, Ok(()), 1, 1),
                (0, 33, below(22752), 2, 1),
                (0, 128, below(22752), 2, 1),
                (40, 1, below(22760), 1, 1),
                (63, 2, below(22783), 1, 1),
                (64, 64, Ok(()), 2, 1),
                (128, 128, Ok(()), 4, 2),
            ],
        )?;
    }
    Ok(())
}

// The first fault of a run decides, and not the page table before the data.
#[test]
fn first_fault(rt: HostRuntime) -> Result<(), Fail> {
    check_flipped::<Stride>(
        rt.alloc(),
        DEAD,
        22940,
        5,
        &[
            (0, 128, below(22752), 2, 1),
            (63, 2, below(22783), 1, 1),
            (64, 64, here(Cause::NoPage, 64), 1, 0),
        ],
    )
}

// The table is in line 32, from 32 × 129 = 4128 on: a cell of entry 0, a cell past the last entry, and the check byte.
#[test]
fn failed_check_of_the_table(rt: HostRuntime) -> Result<(), Fail> {
    for at in [4128, 4200, 4256] {
        check_flipped::<Stride>(
            rt.alloc(),
            LIVE,
            at,
            5,
            &[
                (0, 128, below(4096), 1, 0),
                (40, 1, below(4096), 1, 0),
                (64, 1, below(4100), 1, 0),
                (130, 1, below(4104), 1, 0),
                (224, 32, below(4108), 1, 0),
                (256, 1, here(Cause::PastEnd, 256), 0, 0),
            ],
        )?;
    }
    Ok(())
}

// The second element of the line stands 32 pages after the first, and its entry in the second line of the table.
#[test]
fn failed_check_of_a_later_entry(rt: HostRuntime) -> Result<(), Fail> {
    let scene = Scene {
        registers: [128, 1, 64, 131072, 2],
        entries: &[(0, 0x8000_0005), (32, 0x8000_0003)],
    };
    check_flipped::<Transpose>(
        rt.alloc(),
        scene,
        4300,
        0,
        &[
            (0, 64, Ok(()), 1, 1),
            (0, 128, below(4224), 2, 1),
            (63, 2, below(4224), 2, 1),
            (64, 1, below(4224), 1, 0),
            (100, 28, below(4224), 1, 0),
        ],
    )
}

// The spoilt cell is 4230: here the third of entry 33.
#[test]
fn spoilt_entry(rt: HostRuntime) -> Result<(), Fail> {
    let scene = Scene {
        registers: [128, 1, 64, 135168, 2],
        entries: &[(0, 0x8000_0005), (33, 0x8000_0003)],
    };
    check_scene::<Transpose, OneFault>(
        rt.alloc(),
        scene,
        &[
            (0, 64, Ok(()), 1, 1),
            (0, 128, below(4230), 2, 1),
            (64, 1, below(4230), 1, 0),
        ],
    )
}

// Here it is a cell of the data.
#[test]
fn spoilt_cell(rt: HostRuntime) -> Result<(), Fail> {
    let scene = Scene {
        registers: [8192, 0, 0, 0, 0],
        entries: &[(0, 0x8000_0001), (1, 0x8000_0002)],
    };
    check_scene::<Direct, OneFault>(
        rt.alloc(),
        scene,
        &[
            (0, 128, Ok(()), 1, 1),
            (128, 128, below(4230), 1, 1),
            (128, 6, Ok(()), 1, 1),
            (128, 7, below(4230), 1, 1),
            (135, 121, Ok(()), 1, 1),
        ],
    )
}

// Objects of 4 bytes from 4 on, one in each line: 4230 is the third byte of the second.
#[test]
fn spoilt_object(rt: HostRuntime) -> Result<(), Fail> {
    let scene = Scene {
        registers: [128, 0, 4, 128, 4],
        entries: &[(0, 0x8000_0001)],
    };
    check_scene::<Stride, OneFault>(
        rt.alloc(),
        scene,
        &[
            (0, 6, Ok(()), 2, 1),
            (0, 7, below(4230), 2, 1),
            (0, 128, below(4230), 2, 1),
            (4, 4, below(4230), 1, 1),
            (7, 5, Ok(()), 2, 1),
            (8, 120, Ok(()), 30, 1),
        ],
    )
}

// A window with a board that is too short.
#[test]
fn shut(rt: HostRuntime) -> Result<(), Fail> {
    let heap = rt.alloc();
    let mut bytes = scene_bytes::<CellsAlone>(heap, PLAIN_BYTES, LIVE)?;
    let before = bytes.to_vec(heap)?;
    for access in [Access::Read, Access::Write] {
        check_opened::<Stride, Plain>(
            heap,
            LIVE.registers,
            Plain::new(&mut bytes),
            &mut [0; 7],
            21,
            &[
                (access, 0, 0, here(Cause::BadRun, 0), 0, 0),
                (access, 0, 1, here(Cause::PastEnd, 0), 0, 0),
                (access, 0, 128, here(Cause::PastEnd, 0), 0, 0),
                (access, 0, 129, here(Cause::BadRun, 0), 0, 0),
                (access, 127, 2, here(Cause::BadRun, 127), 0, 0),
                (access, 4096, 4, here(Cause::PastEnd, 4096), 0, 0),
                (access, LAST, 1, here(Cause::PastEnd, LAST), 0, 0),
                (access, LAST, 2, here(Cause::BadRun, LAST), 0, 0),
            ],
        )?;
    }
    same(bytes == before, true)
}
