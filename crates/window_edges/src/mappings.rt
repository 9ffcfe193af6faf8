// Every condition under each of the mappings, by images whose tables have two entries.
use crate::setup::{OPEN, SHORT_BOARD, Setting, TABLE_OUTSIDE, TWO_PAGES, check_tables};
use colour::Colour;
use direct::Direct;
use mapping::Mapping;
use plain::CellsAlone;
use std::alloc::Global;
use std::test::Fail;
use stride::Stride;
use transpose::Transpose;

fn check_conditions<P: Mapping>(heap: Global, setting: Setting) -> Result<(), Fail> {
    check_tables::<P, CellsAlone>(
        heap,
        setting,
        &[
            (&[], OPEN),
            (&[(0, 0x8000_0003), (1, 0x8000_0000)], OPEN),
            (&[(0, 0x8000_0004)], (23, 0)),
            (&[(1, 0x8000_0004)], (23, 1)),
            (&[(2, 0x8000_0004)], OPEN),
            (&[(1, 0x8000_0001)], (24, 1)),
            (&[(0, 0x8000_0002), (1, 0x8000_0002)], (25, 1)),
            (&[(0, 0x8000_0002), (2, 0x8000_0002)], OPEN),
        ],
    )?;
    let [image, _, second, third, fourth] = setting.registers;
    for (page, board, answer) in [
        (3, 4, OPEN),
        (4, 4, TABLE_OUTSIDE),
        (3, 3, SHORT_BOARD),
        (4, 3, SHORT_BOARD),
    ] {
        let moved = Setting {
            registers: [image, page, second, third, fourth],
            board,
            ..setting
        };
        check_tables::<P, CellsAlone>(heap, moved, &[(&[], answer)])?;
    }
    Ok(())
}

#[test]
fn direct(rt: HostRuntime) -> Result<(), Fail> {
    check_conditions::<Direct>(rt.alloc(), TWO_PAGES)
}

// The extent is 32768 / 16384 × 4096 = 8192.
#[test]
fn colour(rt: HostRuntime) -> Result<(), Fail> {
    let setting = Setting {
        type_number: 2,
        registers: [32768, 1, 16384, 4096, 8192],
        ..TWO_PAGES
    };
    check_conditions::<Colour>(rt.alloc(), setting)
}

// The extent is 31 × 256 + 8 + 4 = 7948.
#[test]
fn stride(rt: HostRuntime) -> Result<(), Fail> {
    let setting = Setting {
        type_number: 3,
        registers: [128, 1, 4, 256, 8],
        ..TWO_PAGES
    };
    check_conditions::<Stride>(rt.alloc(), setting)
}

// The extent is 1 × 4096 + 128 / 2 = 4160.
#[test]
fn transpose(rt: HostRuntime) -> Result<(), Fail> {
    let setting = Setting {
        type_number: 4,
        registers: [128, 1, 4, 4096, 2],
        ..TWO_PAGES
    };
    check_conditions::<Transpose>(rt.alloc(), setting)
}
