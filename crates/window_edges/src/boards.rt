// Boards of several lengths, over a memory of four pages.
use crate::setup::{OPEN, SHORT_BOARD, Setting, TWO_PAGES, check_tables};
use direct::Direct;
use plain::CellsAlone;
use std::test::Fail;

#[test]
fn lengths(rt: HostRuntime) -> Result<(), Fail> {
    for (board, answer) in [
        (0, SHORT_BOARD),
        (3, SHORT_BOARD),
        (4, OPEN),
        (5, OPEN),
        (5000, OPEN),
    ] {
        let setting = Setting { board, ..TWO_PAGES };
        check_tables::<Direct, CellsAlone>(rt.alloc(), setting, &[(&[], answer)])?;
    }
    Ok(())
}

// The last byte of a board that is just long enough takes its note.
#[test]
fn last_page(rt: HostRuntime) -> Result<(), Fail> {
    let setting = Setting {
        board: 4,
        ..TWO_PAGES
    };
    check_tables::<Direct, CellsAlone>(
        rt.alloc(),
        setting,
        &[
            (&[(0, 0x8000_0003)], OPEN),
            (&[(0, 0x8000_0003), (1, 0x8000_0003)], (25, 1)),
        ],
    )
}
