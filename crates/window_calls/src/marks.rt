// The marks that calls leave in the page table, and the bytes that writes leave beside them.
use crate::scenes::{CHECKED_BYTES, OBJECTS, PLAIN_BYTES, Scene};
use crate::script::{Change, Step, check_script, here};
use checked::CheckByte;
use direct::Direct;
use memory::{Access, Cause};
use plain::CellsAlone;
use std::alloc::Global;
use std::test::Fail;
use stride::Stride;

// One page without marks, one modified, one referenced, and one that is out. The entries stand at 4096, 4100, 4104 and 4108.
const SCENE: Scene = Scene {
    registers: OBJECTS,
    entries: &[
        (0, 0x8000_0005),
        (1, 0xa000_0000),
        (2, 0xc000_0003),
        (3, 0x9000_0006),
    ],
};

// Scripts with the changes that each leaves, over plain and over checked memory.
fn check_cases(heap: Global, cases: &[(&[Step], &[Change])]) -> Result<(), Fail> {
    for (steps, changes) in cases {
        check_script::<Stride, CellsAlone>(heap, PLAIN_BYTES, SCENE, steps, changes)?;
        check_script::<Stride, CheckByte>(heap, CHECKED_BYTES, SCENE, steps, changes)?;
    }
    Ok(())
}

#[test]
fn reads(rt: HostRuntime) -> Result<(), Fail> {
    check_cases(
        rt.alloc(),
        &[
            (&[], &[]),
            (&[(Access::Read, 0, 1, Ok(()), 1, 1)], &[(4096, 1, 0xc0)]),
            (&[(Access::Read, 64, 1, Ok(()), 1, 1)], &[(4100, 1, 0xe0)]),
            (
                &[(Access::Read, 0, 128, Ok(()), 4, 2)],
                &[(4096, 1, 0xc0), (4100, 1, 0xe0)],
            ),
            // a page that is referenced already
            (&[(Access::Read, 128, 64, Ok(()), 2, 1)], &[]),
        ],
    )
}

#[test]
fn writes(rt: HostRuntime) -> Result<(), Fail> {
    check_cases(
        rt.alloc(),
        &[
            (
                &[(Access::Write, 128, 1, Ok(()), 1, 1)],
                &[(4104, 1, 0xe0), (12896, 1, 0xee)],
            ),
            (
                &[(Access::Write, 30, 4, Ok(()), 2, 1)],
                &[(4096, 1, 0xe0), (20606, 2, 0xee), (22752, 2, 0xee)],
            ),
            (
                &[(Access::Write, 0, 128, Ok(()), 4, 2)],
                &[
                    (4096, 1, 0xe0),
                    (4100, 1, 0xe0),
                    (20576, 32, 0xee),
                    (22752, 32, 0xee),
                    (352, 32, 0xee),
                    (2528, 32, 0xee),
                ],
            ),
        ],
    )
}

// A write after a read, and a read after a write.
#[test]
fn in_turn(rt: HostRuntime) -> Result<(), Fail> {
    check_cases(
        rt.alloc(),
        &[
            (
                &[
                    (Access::Read, 0, 1, Ok(()), 1, 1),
                    (Access::Write, 0, 1, Ok(()), 2, 1),
                ],
                &[(4096, 1, 0xe0), (20576, 1, 0xee)],
            ),
            (
                &[
                    (Access::Write, 0, 1, Ok(()), 1, 1),
                    (Access::Read, 0, 1, Ok(()), 2, 1),
                ],
                &[(4096, 1, 0xe0), (20576, 1, 0xee)],
            ),
        ],
    )
}

// Also where the run begins well. The tests of faults have more, over pages without marks.
#[test]
fn refused_calls(rt: HostRuntime) -> Result<(), Fail> {
    let out = here(Cause::PageOut, 192);
    let bad = here(Cause::BadRun, 0);
    check_cases(
        rt.alloc(),
        &[
            (&[(Access::Read, 128, 128, out, 3, 1)], &[]),
            (&[(Access::Write, 128, 128, out, 3, 1)], &[]),
            (&[(Access::Write, 0, 129, bad, 0, 0)], &[]),
            // a write to the page that a refused call has read of the table
            (
                &[
                    (Access::Write, 128, 128, out, 3, 1),
                    (Access::Write, 160, 32, Ok(()), 4, 1),
                ],
                &[(4104, 1, 0xe0), (15072, 32, 0xee)],
            ),
        ],
    )
}

// Pages 0 and 32 take one place of the TLB, and each mark stands in the table whether the page is held or not.
#[test]
fn displaced(rt: HostRuntime) -> Result<(), Fail> {
    let scene = Scene {
        registers: [135168, 1, 0, 0, 0],
        entries: &[(0, 0x8000_0005), (32, 0x8000_0003)],
    };
    check_script::<Direct, CellsAlone>(
        rt.alloc(),
        PLAIN_BYTES,
        scene,
        &[
            (Access::Read, 0, 1, Ok(()), 1, 1),
            (Access::Read, 131072, 1, Ok(()), 2, 2),
            (Access::Write, 4095, 1, Ok(()), 3, 3),
            (Access::Read, 131200, 1, Ok(()), 4, 4),
            (Access::Read, 0, 128, Ok(()), 5, 5),
        ],
        &[(4096, 1, 0xe0), (4224, 1, 0xc0), (24575, 1, 0xee)],
    )
}
