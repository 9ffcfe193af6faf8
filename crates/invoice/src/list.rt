// A list of calls through one window.
ghost use Rattle.std.specs.Prelude.{IfOk};

use crate::layout::Card;
use crate::sets::armed_set;
use crate::table::{FRESH_OUT, WRITTEN, show_marks, write_half_table};
use crate::windows::{BEFORE, open, show_counts};
use anyhow::{Context, bail};
use call_list::CallRecord;
use memory::{Access, Cause, Fault, Memory};
use records::read_price;
use std::alloc::{AllocError, Global};
use stride::Stride;
use window_list::play_window;

// The record whose price is read and written. It stands in the first page, and its price at window address 12.
pub(crate) const RECORD: u32 = 3;

// The cents that the list writes.
pub(crate) const NEW: u32 = 1999;

// A call: what it does to its run, the address, its buffer before and afterwards, and its answer.
type Step<'a> = (Access, u64, &'a [u8], &'a [u8], Result<(), Fault>);

// The list is for a window of two lines, of which the second one's page is out. Of the record this is the price before, and the one that is
// written; and so deep is a fault of the window.
fn steps<'a>(price: &'a [u8; 4], new: &'a [u8; 4], depth: u8) -> [Step<'a>; 7] {
    let word = &BEFORE[..4];
    let refused = |cause, address| Err(Fault::here(cause, address));
    let out = |address| {
        Err(Fault {
            depth,
            ..Fault::here(Cause::PageOut, address)
        })
    };
    [
        (Access::Read, 12, word, price, Ok(())),
        (Access::Write, 12, new, new, Ok(())),
        (Access::Read, 12, word, new, Ok(())),
        (Access::Read, 126, word, word, refused(Cause::BadRun, 126)),
        (Access::Write, 256, new, new, refused(Cause::PastEnd, 256)),
        (Access::Read, 128, &BEFORE, &BEFORE, out(128)),
        (Access::Write, 132, new, new, out(132)),
    ]
}

// The calls, none of them made yet, and the records that are due once they were.
pub(crate) fn calls_and_due(
    heap: Global,
    price: u32,
    new: u32,
    depth: u8,
) -> Result<(Vec<CallRecord>, Vec<CallRecord>), AllocError> {
    let mut calls = Vec::new(heap);
    let mut due = Vec::new(heap);
    let (price, new) = (price.to_be_bytes(), new.to_be_bytes());
    for (access, address, before, after, answer) in steps(&price, &new, depth) {
        calls.push(record(heap, access, address, before, None)?)?;
        due.push(record(heap, access, address, after, Some(answer))?)?;
    }
    Ok((calls, due))
}

pub(crate) fn record(
    heap: Global,
    access: Access,
    address: u64,
    bytes: &[u8],
    answer: Option<Result<(), Fault>>,
) -> Result<CallRecord, AllocError> {
    Ok(CallRecord {
        access,
        address,
        buffer: bytes.to_vec(heap)?,
        answer,
    })
}

// Any other record than the one that is due is an error.
pub(crate) fn check_records(found: &[CallRecord], due: &[CallRecord]) -> anyhow::Result<()> {
    for (found, due) in found.iter().zip(due) {
        let asked = found.access == due.access && found.address == due.address;
        if !asked || found.answer != due.answer || found.buffer != due.buffer {
            bail!("the call at {} has not come back as it is due", due.address);
        }
    }
    Ok(())
}

// Plays the list on a window, and shows each call with its answer, and what all of them left.
pub(crate) fn show_list<M: Memory + Drop>(
    rt: &HostRuntime,
    memory: M,
    card: Card,
) -> anyhow::Result<M>
    requires { M.Memory.coherent memory }
    ensures { IfOk result M.Memory.coherent }
{
    println!(rt;
        "A list of calls on a window of two lines, of which the second one's page is out:"
    )?;
    let mut memory = memory;
    write_half_table(&mut memory, card.table())?;
    let price = read_price(&mut memory, RECORD).context("the price was not read")?;
    let settings = [256, u64::from(card.table()), 4, 128, 8];
    let mut window = open(rt, armed_set::<Stride>(&settings)?, memory)?;
    let (mut calls, due) = calls_and_due(rt.alloc(), price, NEW, 0)?;
    let report = play_window(&mut window, &mut calls);
    show_calls(rt, &calls)?;
    check_records(&calls, &due)?;
    show_counts(rt, &report)?;
    if report.lookups != 5 || report.fills != 1 {
        bail!("the counts are not those that are due");
    }
    let mut memory = window.close();
    show_marks(rt, &mut memory, card.table(), &[WRITTEN, FRESH_OUT])?;
    Ok(memory)
}

// Shows each call with its answer.
pub(crate) fn show_calls(rt: &HostRuntime, calls: &[CallRecord]) -> anyhow::Result<()> {
    for call in calls {
        show_call(rt, call)?;
    }
    Ok(())
}

fn show_call(rt: &HostRuntime, call: &CallRecord) -> anyhow::Result<()> {
    let access = match call.access {
        Access::Read => "read",
        Access::Write => "write",
    };
    let (bytes, address) = (call.buffer.len(), call.address);
    print!(rt; "  {access} {bytes} bytes at {address}: ")?;
    match call.answer.context("a call was not made")? {
        Ok(()) => println!(rt; "accepted")?,
        Err(fault) => println!(rt; "refused: {fault}")?,
    }
    Ok(())
}
