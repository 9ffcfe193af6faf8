// Lookups and fills, call by call.
use crate::scenes::{CHECKED_BYTES, OBJECTS, PLAIN_BYTES, Scene, scene_bytes};
use crate::script::{Step, below, check_window, here};
use checked::{CheckByte, Checked, flip};
use direct::Direct;
use mapping::Mapping;
use memory::{Access, Cause};
use plain::{CellsAlone, Plain};
use std::alloc::Global;
use std::test::Fail;
use stride::Stride;
use transpose::Transpose;

// A script over plain memory.
fn check_plain<P: Mapping>(heap: Global, scene: Scene, steps: &[Step]) -> Result<(), Fail> {
    let mut bytes = scene_bytes::<CellsAlone>(heap, PLAIN_BYTES, scene)?;
    check_window::<P, Plain>(heap, scene.registers, Plain::new(&mut bytes), steps)
}

// An image of 33 pages, of which 0, 31 and 32 are in memory.
#[test]
fn direct(rt: HostRuntime) -> Result<(), Fail> {
    let scene = Scene {
        registers: [135168, 1, 0, 0, 0],
        entries: &[
            (0, 0x8000_0005),
            (1, 0x9000_0002),
            (31, 0x8000_0003),
            (32, 0x8000_0000),
        ],
    };
    check_plain::<Direct>(
        rt.alloc(),
        scene,
        &[
            (Access::Read, 0, 1, Ok(()), 1, 1),
            (Access::Read, 131072, 128, Ok(()), 2, 2),
            (Access::Read, 4095, 1, Ok(()), 3, 3),
            (Access::Read, 100, 1, Ok(()), 4, 3),
            (Access::Read, 131200, 1, Ok(()), 5, 4),
            (Access::Read, 4096, 1, here(Cause::PageOut, 4096), 6, 4),
            (Access::Read, 8192, 1, here(Cause::NoPage, 8192), 7, 4),
            (Access::Write, 131072, 1, Ok(()), 8, 4),
            (Access::Read, 126976, 128, Ok(()), 9, 5),
            (Access::Read, 0, 129, here(Cause::BadRun, 0), 9, 5),
            (Access::Read, 135168, 1, here(Cause::PastEnd, 135168), 9, 5),
            (Access::Write, 0, 128, Ok(()), 10, 6),
            (Access::Write, 0, 128, Ok(()), 11, 6),
            (Access::Write, 131072, 1, Ok(()), 12, 7),
            (Access::Read, 126976, 1, Ok(()), 13, 7),
        ],
    )
}

// A dead entry, or one that cannot be read, takes no place.
#[test]
fn displaces_nothing(rt: HostRuntime) -> Result<(), Fail> {
    let heap = rt.alloc();
    let scene = Scene {
        registers: [135168, 1, 0, 0, 0],
        entries: &[(0, 0x8000_0005), (32, 0x9000_0003)],
    };
    let mut bytes = scene_bytes::<CheckByte>(heap, CHECKED_BYTES, scene)?;
    check_window::<Direct, Checked>(
        heap,
        scene.registers,
        Checked::new(&mut bytes),
        &[
            (Access::Read, 0, 1, Ok(()), 1, 1),
            (Access::Read, 131072, 1, here(Cause::PageOut, 131072), 2, 1),
            (Access::Read, 0, 1, Ok(()), 3, 1),
        ],
    )?;
    // the second line of the table
    flip(&mut bytes, 4257, 3);
    check_window::<Direct, Checked>(
        heap,
        scene.registers,
        Checked::new(&mut bytes),
        &[
            (Access::Read, 0, 1, Ok(()), 1, 1),
            (Access::Write, 131072, 1, below(4224), 2, 1),
            (Access::Read, 0, 1, Ok(()), 3, 1),
        ],
    )
}

// Four elements in one line of the image, in pages 0, 32, 64 and 96, which all take place 0 of the TLB.
#[test]
fn competing_pages(rt: HostRuntime) -> Result<(), Fail> {
    let scene = Scene {
        registers: [128, 1, 32, 131072, 4],
        entries: &[
            (0, 0x8000_0005),
            (32, 0x8000_0000),
            (64, 0x8000_0003),
            (96, 0x8000_0006),
        ],
    };
    check_plain::<Transpose>(
        rt.alloc(),
        scene,
        &[
            (Access::Read, 0, 128, Ok(()), 4, 4),
            (Access::Read, 96, 32, Ok(()), 5, 4),
            (Access::Read, 0, 32, Ok(()), 6, 5),
            (Access::Read, 0, 64, Ok(()), 8, 6),
            (Access::Write, 0, 128, Ok(()), 12, 10),
            (Access::Write, 100, 28, Ok(()), 13, 10),
        ],
    )
}

// What a refused call has read of the table stays held.
#[test]
fn refused_calls(rt: HostRuntime) -> Result<(), Fail> {
    let objects = Scene {
        registers: OBJECTS,
        entries: &[(0, 0x8000_0005), (2, 0x8000_0003), (3, 0x9000_0006)],
    };
    check_plain::<Stride>(
        rt.alloc(),
        objects,
        &[
            (Access::Read, 0, 128, here(Cause::NoPage, 64), 3, 1),
            (Access::Read, 0, 64, Ok(()), 5, 1),
            (Access::Write, 128, 128, here(Cause::PageOut, 192), 8, 2),
            (Access::Read, 150, 20, Ok(()), 10, 2),
            (Access::Read, 250, 1, here(Cause::PageOut, 250), 11, 2),
        ],
    )
}
