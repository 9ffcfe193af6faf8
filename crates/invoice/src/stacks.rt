// One list of calls on stacks of one, two and three windows.
ghost use Rattle.std.specs.Prelude.{IfOk};

use crate::list::{NEW, RECORD, calls_and_due, check_records};
use crate::sets::armed_set;
use crate::table::{write_half_table, write_table};
use crate::windows::opened;
use anyhow::{Context, bail};
use card::{RegisterWrite, WindowRun, run_window};
use checked::CheckByte;
use direct::Direct;
use memory::{ByteMemory, LineFormat, Memory};
use plain::CellsAlone;
use records::{PRICES, write_records};
use std::alloc::Global;
use stride::Stride;
use transpose::Transpose;
use window::Window;

// Bytes that hold six pages plainly, and with a check byte for each line.
const PLAIN_BYTES: usize = 24_576;

const CHECKED_BYTES: usize = 24_768;

// What a window of two lines of prices is written with, by a table in this page.
pub(crate) fn two_lines(table: u32) -> [RegisterWrite; 5] {
    let write = |number, value| RegisterWrite { number, value };
    [
        write(0, 256),
        write(1, u64::from(table)),
        write(2, 4),
        write(3, 128),
        write(4, 8),
    ]
}

// Plays the list on six stacks, each of which has the same prices in its records.
pub(crate) fn show_stacks(rt: &HostRuntime, prices: &[u32]) -> anyhow::Result<()> {
    println!(rt;
        "The same list on stacks of windows, with the first 32 prices in records below the uppermost one:"
    )?;
    let prices = prices
        .get(..PRICES)
        .context("the list of prices is too short")?;
    show_stacks_over::<CellsAlone>(rt, "plain", PLAIN_BYTES, prices)?;
    show_stacks_over::<CheckByte>(rt, "checked", CHECKED_BYTES, prices)?;
    println!(rt; "  all six answered alike")?;
    Ok(())
}

// Stacks of one, two and three windows over this sort of memory.
fn show_stacks_over<F: LineFormat>(
    rt: &HostRuntime,
    sort: &str,
    borrowed: usize,
    prices: &[u32],
) -> anyhow::Result<()> {
    let heap = rt.alloc();
    let mut bytes = vec![in heap; 0u8; borrowed]?;
    print!(rt; "  one window over {sort} memory: ")?;
    show_stack(rt, ByteMemory::<F>::new(&mut bytes), prices)?;
    let mut bytes = vec![in heap; 0u8; borrowed]?;
    print!(rt; "  two windows over {sort} memory: ")?;
    let lower = direct_over(heap, ByteMemory::<F>::new(&mut bytes))?;
    show_stack(rt, lower, prices)?;
    let mut bytes = vec![in heap; 0u8; borrowed]?;
    print!(rt; "  three windows over {sort} memory: ")?;
    let lowest = transpose_over(heap, ByteMemory::<F>::new(&mut bytes))?;
    let lower = direct_over(heap, lowest)?;
    show_stack(rt, lower, prices)
}

// A window of three pages, by a table in page 3.
fn direct_over<M: Memory + Drop>(heap: Global, memory: M) -> anyhow::Result<Window<Direct, M>>
    requires { M.Memory.coherent memory }
    ensures { IfOk result (λ w. ⟦<Window<Direct, M> as Memory>⟧.coherent w) }
{
    let mut memory = memory;
    write_table(&mut memory, 3, 3)?;
    opened(heap, armed_set::<Direct>(&[12288, 3])?, memory)
}

// One of four pages: a matrix of two rows, 64 lines each, by a table in page 5.
fn transpose_over<M: Memory + Drop>(heap: Global, memory: M) -> anyhow::Result<Window<Transpose, M>>
    requires { M.Memory.coherent memory }
    ensures { IfOk result (λ w. ⟦<Window<Transpose, M> as Memory>⟧.coherent w) }
{
    let mut memory = memory;
    write_table(&mut memory, 5, 5)?;
    opened(
        heap,
        armed_set::<Transpose>(&[16384, 5, 128, 8320, 2])?,
        memory,
    )
}

// Writes the records, plays the list on a window over them, and shows how many of its calls were accepted. Another record than the one
// that is due is an error, and so all stacks answer alike.
fn show_stack<M: Memory + Drop>(rt: &HostRuntime, memory: M, prices: &[u32]) -> anyhow::Result<()>
    requires { M.Memory.coherent memory }
{
    let mut memory = memory;
    write_records(&mut memory, prices).context("the records were not written")?;
    write_half_table(&mut memory, 2)?;
    let price = prices
        .get(RECORD as usize)
        .context("there is no such price")?;
    let (mut calls, due) = calls_and_due(rt.alloc(), *price, NEW, 0)?;
    let WindowRun { memory: _, outcome } = run_window::<Stride, M>(
        &two_lines(2),
        memory,
        &mut [0; 6],
        &mut calls,
    );
    if !outcome.is_ok_and(|report| report.reason == 0) {
        bail!("the uppermost window was not opened");
    }
    check_records(&calls, &due)?;
    let accepted = calls
        .iter()
        .filter(|call| call.answer == Some(Ok(())))
        .count();
    let refused = calls.len().saturating_sub(accepted);
    println!(rt; "{accepted} calls accepted, {refused} refused")?;
    Ok(())
}
