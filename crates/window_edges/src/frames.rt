// Frames of live entries, and of entries that are not live.
use crate::setup::{OPEN, Setting, TWO_LINES, check_tables};
use direct::Direct;
use plain::CellsAlone;
use std::test::Fail;

#[test]
fn outside(rt: HostRuntime) -> Result<(), Fail> {
    check_tables::<Direct, CellsAlone>(
        rt.alloc(),
        TWO_LINES,
        &[
            (&[(0, 0x8000_0003)], OPEN),
            (&[(0, 0x8000_0004)], (23, 0)),
            (&[(0, 0x8fff_ffff)], (23, 0)),
            (&[(31, 0x8000_0004)], (23, 31)),
            (&[(32, 0x8fff_ffff)], (23, 32)),
            (&[(40, 0x8000_0004), (41, 0x8000_0004)], (23, 40)),
        ],
    )
}

#[test]
fn in_table(rt: HostRuntime) -> Result<(), Fail> {
    let heap = rt.alloc();
    check_tables::<Direct, CellsAlone>(
        heap,
        TWO_LINES,
        &[
            (&[(0, 0x8000_0000)], OPEN),
            (&[(0, 0x8000_0001)], (24, 0)),
            (&[(0, 0x8000_0002)], OPEN),
            (&[(62, 0x8000_0001), (63, 0x8000_0001)], (24, 62)),
        ],
    )?;
    // 1,025 entries, in pages 1 and 2
    let two_table_pages = Setting {
        registers: [4198400, 1, 0, 0, 0],
        ..TWO_LINES
    };
    check_tables::<Direct, CellsAlone>(
        heap,
        two_table_pages,
        &[
            (&[(0, 0x8000_0000)], OPEN),
            (&[(0, 0x8000_0001)], (24, 0)),
            (&[(0, 0x8000_0002)], (24, 0)),
            (&[(0, 0x8000_0003)], OPEN),
        ],
    )
}

#[test]
fn taken(rt: HostRuntime) -> Result<(), Fail> {
    check_tables::<Direct, CellsAlone>(
        rt.alloc(),
        TWO_LINES,
        &[
            (&[(0, 0x8000_0002), (1, 0x8000_0003)], OPEN),
            (&[(0, 0x8000_0002), (1, 0x8000_0002)], (25, 1)),
            (&[(31, 0x8000_0002), (32, 0x8000_0002)], (25, 32)),
            (&[(0, 0x8000_0000), (63, 0x8000_0000)], (25, 63)),
            (
                &[(0, 0x8000_0003), (5, 0x8000_0003), (7, 0x8000_0003)],
                (25, 5),
            ),
            (
                &[
                    (1, 0x8000_0000),
                    (2, 0x8000_0002),
                    (3, 0x8000_0003),
                    (40, 0x8000_0002),
                ],
                (25, 40),
            ),
        ],
    )
}

// The first entry that offends decides, and the number of its reason does not.
#[test]
fn order(rt: HostRuntime) -> Result<(), Fail> {
    check_tables::<Direct, CellsAlone>(
        rt.alloc(),
        TWO_LINES,
        &[
            (
                &[(0, 0x8000_0002), (3, 0x8000_0002), (5, 0x8000_0004)],
                (25, 3),
            ),
            (
                &[(0, 0x8000_0002), (3, 0x8000_0004), (5, 0x8000_0002)],
                (23, 3),
            ),
            (&[(3, 0x8000_0001), (5, 0x8000_0004)], (24, 3)),
            (&[(3, 0x8000_0004), (5, 0x8000_0001)], (23, 3)),
            (
                &[(0, 0x8000_0002), (3, 0x8000_0002), (5, 0x8000_0001)],
                (25, 3),
            ),
            (
                &[(0, 0x8000_0002), (3, 0x8000_0001), (5, 0x8000_0002)],
                (24, 3),
            ),
        ],
    )
}

// An entry that is not valid, or is out, offends nothing, and is nobody's earlier one.
#[test]
fn not_live(rt: HostRuntime) -> Result<(), Fail> {
    check_tables::<Direct, CellsAlone>(
        rt.alloc(),
        TWO_LINES,
        &[
            (&[(0, 0x0fff_ffff)], OPEN),
            (&[(0, 0x1fff_ffff)], OPEN),
            (&[(0, 0x7fff_ffff)], OPEN),
            (&[(0, 0x9fff_ffff)], OPEN),
            (&[(0, 0xffff_ffff)], OPEN),
            (&[(0, 0x0000_0001), (1, 0x9000_0001)], OPEN),
            (&[(0, 0x0000_0002), (1, 0x8000_0002)], OPEN),
            (&[(0, 0x9000_0002), (1, 0x8000_0002)], OPEN),
            (&[(0, 0x8000_0002), (1, 0x6000_0002)], OPEN),
            (&[(0, 0x8000_0002), (1, 0x9000_0002)], OPEN),
            (
                &[(0, 0x8000_0002), (1, 0x1000_0002), (2, 0x8000_0002)],
                (25, 2),
            ),
        ],
    )
}

#[test]
fn marks(rt: HostRuntime) -> Result<(), Fail> {
    check_tables::<Direct, CellsAlone>(
        rt.alloc(),
        TWO_LINES,
        &[
            (
                &[(0, 0xc000_0003), (1, 0xa000_0002), (2, 0xe000_0000)],
                OPEN,
            ),
            (&[(0, 0xc000_0004)], (23, 0)),
            (&[(0, 0xa000_0001)], (24, 0)),
            (&[(0, 0xe000_0002), (1, 0x8000_0002)], (25, 1)),
            (&[(0, 0x8000_0002), (1, 0xe000_0002)], (25, 1)),
        ],
    )
}
