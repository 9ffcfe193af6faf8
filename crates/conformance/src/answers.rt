// The answers as text.
use crate::case::SetUp;
use crate::words::Hexadecimal;
use cache::CacheReport;
use call_list::CallRecord;
use card::SetUpRefusal;
use memory::{Access, Fault};
use std::alloc::AllocError;
use window::WindowReport;

// What a buffer holds before a read.
pub(crate) const BEFORE: u8 = 0xA5;

pub(crate) fn write_opened(
    text: &mut String,
    set_up: &SetUp,
    report: &WindowReport,
    size: u64,
    board: &[u8],
) -> Result<(), AllocError> {
    let WindowReport { reason, entry, .. } = report;
    writeln!(text, "armed {}", set_up.layer)?;
    writeln!(text, "opened {reason} {entry} {size}")?;
    write_board(text, board)
}

pub(crate) fn write_refused(
    text: &mut String,
    set_up: &SetUp,
    refusal: SetUpRefusal,
    board: &[u8],
) -> Result<(), AllocError> {
    let layer = set_up.layer;
    match refusal {
        SetUpRefusal::Register(write, refusal) => {
            let (number, value) = (write.number, write.value);
            writeln!(
                text,
                "refused {layer} {} {number} {value}",
                refusal.number()
            )?;
        }
        SetUpRefusal::Arming(refusal) => {
            writeln!(text, "refused {layer} {}", refusal.number())?;
        }
    }
    write_board(text, board)
}

fn write_board(text: &mut String, board: &[u8]) -> Result<(), AllocError> {
    let left = board.iter().filter(|byte| **byte != 0).count();
    writeln!(text, "board {left}")
}

// Calls that were made.
pub(crate) fn write_calls(text: &mut String, calls: &[CallRecord]) -> Result<(), AllocError> {
    for call in calls {
        write_call(text, call)?;
    }
    Ok(())
}

fn write_call(text: &mut String, call: &CallRecord) -> Result<(), AllocError> {
    match (call.access, call.answer) {
        (_, None) => Ok(()),
        (Access::Read, Some(Ok(()))) => writeln!(text, "read {}", Hexadecimal(&call.buffer)),
        (Access::Write, Some(Ok(()))) => writeln!(text, "written"),
        (Access::Read, Some(Err(fault))) => {
            let kept = call.buffer.iter().all(|byte| *byte == BEFORE);
            write_fault(text, fault)?;
            writeln!(text, " {}", if kept { "kept" } else { "changed" })
        }
        (Access::Write, Some(Err(fault))) => {
            write_fault(text, fault)?;
            writeln!(text, "")
        }
    }
}

fn write_fault(text: &mut String, fault: Fault) -> Result<(), AllocError> {
    let Fault {
        cause,
        depth,
        place,
    } = fault;
    write!(text, "fault {} {depth} {place}", cause.number())
}

pub(crate) fn write_window_report(
    text: &mut String,
    report: &WindowReport,
) -> Result<(), AllocError> {
    let WindowReport {
        type_number,
        reason,
        entry,
        lookups,
        fills,
    } = report;
    writeln!(
        text,
        "report window {type_number} {reason} {entry} {lookups} {fills}"
    )
}

pub(crate) fn write_cache_report(
    text: &mut String,
    report: &CacheReport,
) -> Result<(), AllocError> {
    let CacheReport {
        reads,
        hits,
        prefetches,
        share,
    } = report;
    writeln!(text, "report cache {reads} {hits} {prefetches} {share}")
}
