// Tables of several lengths, and where they lie, in a memory of four pages.
use crate::setup::{OPEN, SHORT_BOARD, Setting, TABLE_OUTSIDE, TWO_PAGES, check_tables};
use direct::Direct;
use plain::CellsAlone;
use std::test::Fail;

// A table by this image size and table page.
fn table(image: u64, page: u64) -> Setting {
    Setting {
        registers: [image, page, 0, 0, 0],
        ..TWO_PAGES
    }
}

// The last entry counts, and the one past it does not. The table begins at page 1.
#[test]
fn last_entries(rt: HostRuntime) -> Result<(), Fail> {
    for (image, last, past) in [
        (128, 0, 1),
        (4096, 0, 1),
        (4224, 1, 2),
        (131072, 31, 32),
        (135168, 32, 33),
        (4194304, 1023, 1024),
        (4194432, 1024, 1025),
        (4198400, 1024, 1025),
    ] {
        check_tables::<Direct, CellsAlone>(
            rt.alloc(),
            table(image, 1),
            &[
                (&[(u64::from(last), 0x8000_0004)], (23, last)),
                (&[(u64::from(last), 0x8000_0001)], (24, last)),
                (&[(past, 0x8000_0004)], OPEN),
                (&[(0, 0x8000_0003), (past, 0x8000_0003)], OPEN),
            ],
        )?;
    }
    Ok(())
}

// The first entry's frame in the last one.
#[test]
fn first_and_last(rt: HostRuntime) -> Result<(), Fail> {
    for (image, last) in [
        (4224, 1),
        (131072, 31),
        (135168, 32),
        (4194304, 1023),
        (4198400, 1024),
    ] {
        check_tables::<Direct, CellsAlone>(
            rt.alloc(),
            table(image, 1),
            &[(
                &[(0, 0x8000_0003), (u64::from(last), 0x8000_0003)],
                (25, last),
            )],
        )?;
    }
    Ok(())
}

// Of one page, of two from 1,025 entries on, and of the most, 1,024.
#[test]
fn places(rt: HostRuntime) -> Result<(), Fail> {
    for (image, page, answer) in [
        (4096, 0, OPEN),
        (4096, 3, OPEN),
        (4096, 4, TABLE_OUTSIDE),
        (4096, 268435455, TABLE_OUTSIDE),
        (4194304, 3, OPEN),
        (4194304, 4, TABLE_OUTSIDE),
        (4194432, 2, OPEN),
        (4194432, 3, TABLE_OUTSIDE),
        (4198400, 2, OPEN),
        (4198400, 3, TABLE_OUTSIDE),
        (4198400, 4, TABLE_OUTSIDE),
        (4294967168, 0, TABLE_OUTSIDE),
        (4294967168, 268435455, TABLE_OUTSIDE),
    ] {
        check_tables::<Direct, CellsAlone>(rt.alloc(), table(image, page), &[(&[], answer)])?;
    }
    Ok(())
}

// A table that is outside goes before any entry, and a short board before both.
#[test]
fn before_entries(rt: HostRuntime) -> Result<(), Fail> {
    let heap = rt.alloc();
    let second_page_outside = table(4198400, 3);
    check_tables::<Direct, CellsAlone>(
        heap,
        second_page_outside,
        &[(&[(0, 0x8000_0004)], TABLE_OUTSIDE)],
    )?;
    let board_too = Setting {
        board: 3,
        ..second_page_outside
    };
    check_tables::<Direct, CellsAlone>(heap, board_too, &[(&[(0, 0x8000_0004)], SHORT_BOARD)])
}
