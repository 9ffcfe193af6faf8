// Memories that end in a part of a page, or have no whole page.
use crate::setup::{Entry, OPEN, SHORT_BOARD, Setting, TABLE_OUTSIDE, TWO_PAGES, check_tables};
use direct::Direct;
use plain::CellsAlone;
use std::test::Fail;

// Only whole pages count, for the board, the table and the frames.
#[test]
fn part_pages(rt: HostRuntime) -> Result<(), Fail> {
    for (borrowed, page, board, word, answer) in [
        // four pages and all lines of a fifth but one
        (20352, 1, 3, 0x8000_0003, SHORT_BOARD),
        (20352, 1, 4, 0x8000_0003, OPEN),
        (20352, 1, 4, 0x8000_0004, (23, 0)),
        (20352, 4, 4, 0x8000_0003, TABLE_OUTSIDE),
        // a last line in part is none
        (20479, 1, 4, 0x8000_0004, (23, 0)),
        // five pages
        (20480, 1, 4, 0x8000_0004, SHORT_BOARD),
        (20480, 1, 5, 0x8000_0004, OPEN),
        (20480, 1, 5, 0x8000_0005, (23, 0)),
        (20480, 4, 5, 0x8000_0003, OPEN),
        (20480, 4, 5, 0x8000_0004, (24, 0)),
    ] {
        let setting = Setting {
            registers: [8192, page, 0, 0, 0],
            borrowed,
            board,
            ..TWO_PAGES
        };
        check_tables::<Direct, CellsAlone>(rt.alloc(), setting, &[(&[(0, word)], answer)])?;
    }
    Ok(())
}

#[test]
fn least(rt: HostRuntime) -> Result<(), Fail> {
    let frame_0: &[Entry] = &[(0, 0x8000_0000)];
    let none: &[Entry] = &[];
    for (borrowed, board, entries, answer) in [
        (0, 0, none, TABLE_OUTSIDE),
        (4095, 0, none, TABLE_OUTSIDE),
        (4096, 0, none, SHORT_BOARD),
        (4096, 1, none, OPEN),
        (4096, 1, frame_0, (24, 0)),
    ] {
        let setting = Setting {
            registers: [8192, 0, 0, 0, 0],
            borrowed,
            board,
            ..TWO_PAGES
        };
        check_tables::<Direct, CellsAlone>(rt.alloc(), setting, &[(entries, answer)])?;
    }
    Ok(())
}
