// Faults in the table: a cell, and whole lines.
use crate::setup::{
    Answer, Entry, OPEN, Setting, TWO_LINES, check_opening, check_tables, table_bytes,
};
use checked::{CheckByte, flip};
use direct::Direct;
use expect::same;
use memory::{Cause, Fault, Memory};
use plain::CellsAlone;
use spoilt::{OneFault, Spoilt};
use std::alloc::Global;
use std::test::Fail;

// The spoilt cell is the third of entry 33, in the second line of the table. Only runs that have it are refused.
#[test]
fn spoilt_runs(rt: HostRuntime) -> Result<(), Fail> {
    let heap = rt.alloc();
    let fault = Err(Fault::here(Cause::FailedCheck, 4230));
    let mut bytes = vec![in heap; 9u8; 16384]?;
    for (a, n, answer) in [
        (4224, 6, Ok(())),
        (4224, 7, fault),
        (4224, 128, fault),
        (4230, 1, fault),
        (4230, 2, fault),
        (4231, 1, Ok(())),
    ] {
        let mut buffer = vec![in heap; 1u8; n]?;
        same(Spoilt::new(&mut bytes).read(a, &mut buffer), answer)?;
        same(Spoilt::new(&mut bytes).write(a, &buffer), answer)?;
    }
    Ok(())
}

// Openings over a memory with a spoilt cell; the entries are put into its bytes before.
fn check_spoilt(heap: Global, setting: Setting, cases: &[(&[Entry], Answer)]) -> Result<(), Fail> {
    for (entries, answer) in cases {
        let mut bytes = table_bytes::<CellsAlone>(heap, setting, entries)?;
        check_opening::<Direct, OneFault>(heap, setting, &mut bytes, *answer)?;
    }
    Ok(())
}

// The entry with the spoilt cell is not live, and those beside it are.
#[test]
fn beside_a_spoilt_cell(rt: HostRuntime) -> Result<(), Fail> {
    check_spoilt(
        rt.alloc(),
        TWO_LINES,
        &[
            (&[], OPEN),
            (&[(33, 0x8000_0004)], OPEN),
            (&[(33, 0x8000_0001)], OPEN),
            (&[(31, 0x8000_0004)], (23, 31)),
            (&[(32, 0x8000_0004)], (23, 32)),
            (&[(34, 0x8000_0004)], (23, 34)),
            (&[(63, 0x8000_0004)], (23, 63)),
            (&[(33, 0x8000_0004), (34, 0x8000_0001)], (24, 34)),
            (&[(32, 0x8000_0002), (33, 0x8000_0002)], OPEN),
            (&[(33, 0x8000_0002), (34, 0x8000_0002)], OPEN),
            (&[(32, 0x8000_0002), (34, 0x8000_0002)], (25, 34)),
            (&[(0, 0x8000_0002), (63, 0x8000_0002)], (25, 63)),
        ],
    )
}

#[test]
fn without_a_spoilt_cell(rt: HostRuntime) -> Result<(), Fail> {
    check_tables::<Direct, CellsAlone>(
        rt.alloc(),
        TWO_LINES,
        &[
            (&[(33, 0x8000_0004)], (23, 33)),
            (&[(33, 0x8000_0002), (34, 0x8000_0002)], (25, 34)),
        ],
    )
}

// The spoilt cell past the last entry, in it, and before it; the line is the last one each time.
#[test]
fn spoilt_last_line(rt: HostRuntime) -> Result<(), Fail> {
    for (image, number, answer) in [
        (135168, 32, (23, 32)),
        (135168, 33, OPEN),
        (135168, 34, OPEN),
        (139264, 32, (23, 32)),
        (139264, 33, OPEN),
        (139264, 34, OPEN),
        (143360, 34, (23, 34)),
        (143360, 35, OPEN),
    ] {
        let setting = Setting {
            registers: [image, 1, 0, 0, 0],
            ..TWO_LINES
        };
        check_spoilt(rt.alloc(), setting, &[(&[(number, 0x8000_0004)], answer)])?;
    }
    Ok(())
}

// Openings over a checked memory in which a bit of this borrowed byte turns over once the entries stand.
fn check_flipped(heap: Global, at: usize, cases: &[(&[Entry], Answer)]) -> Result<(), Fail> {
    // 128 lines of 129 bytes
    let setting = Setting {
        borrowed: 16512,
        ..TWO_LINES
    };
    for (entries, answer) in cases {
        let mut bytes = table_bytes::<CheckByte>(heap, setting, entries)?;
        flip(&mut bytes, at, 0);
        check_opening::<Direct, CheckByte>(heap, setting, &mut bytes, *answer)?;
    }
    Ok(())
}

// A line that fails its check has no live entry. The table's two lines are borrowed from 32 × 129 = 4128 and from 4257 on. Each fails by a
// cell, and by the check byte.
#[test]
fn failed_check_of_the_first_line(rt: HostRuntime) -> Result<(), Fail> {
    for at in [4128, 4256] {
        check_flipped(
            rt.alloc(),
            at,
            &[
                (&[(0, 0x8000_0004)], OPEN),
                (&[(31, 0x8000_0001)], OPEN),
                (&[(0, 0x8000_0002), (1, 0x8000_0002)], OPEN),
                (&[(0, 0x8000_0002), (32, 0x8000_0002)], OPEN),
                (&[(0, 0x8000_0004), (32, 0x8000_0004)], (23, 32)),
            ],
        )?;
    }
    Ok(())
}

#[test]
fn failed_check_of_the_second_line(rt: HostRuntime) -> Result<(), Fail> {
    for at in [4257, 4385] {
        check_flipped(
            rt.alloc(),
            at,
            &[
                (&[(31, 0x8000_0004)], (23, 31)),
                (&[(32, 0x8000_0004)], OPEN),
                (&[(0, 0x8000_0002), (32, 0x8000_0002)], OPEN),
                (&[(0, 0x8000_0002), (31, 0x8000_0002)], (25, 31)),
            ],
        )?;
    }
    Ok(())
}

// In the lines before and after the table.
#[test]
fn failed_check_beside_the_table(rt: HostRuntime) -> Result<(), Fail> {
    for at in [4127, 4386] {
        check_flipped(
            rt.alloc(),
            at,
            &[
                (&[(0, 0x8000_0002), (63, 0x8000_0003)], OPEN),
                (&[(0, 0x8000_0002), (63, 0x8000_0002)], (25, 63)),
            ],
        )?;
    }
    Ok(())
}
