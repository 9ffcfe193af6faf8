// A cache under the window of a list, and one over it.
ghost use Rattle.std.specs.Prelude.{IfOk};

use crate::layout::Card;
use crate::list::{RECORD, calls_and_due, check_records, record, show_calls};
use crate::stacks::two_lines;
use crate::table::{FRESH_OUT, WRITTEN, show_marks, write_half_table};
use crate::windows::{BEFORE, show_counts};
use anyhow::{Context, bail};
use cache::CacheReport;
use call_list::CallRecord;
use card::{CacheRun, CachedRun, run_cache_over_window, run_window_over_cache};
use memory::{Access, Memory};
use records::read_price;
use stride::Stride;
use window::WindowReport;

// What the two lists write: the second one reads first what the first one has left.
const LOWERED: u32 = 1899;

const LOWERED_AGAIN: u32 = 1799;

// Where the price of the next record stands in the window.
const NEXT: u64 = 16;

// The calls, none of them made yet, and the records that are due once they were.
type Lists = (Vec<CallRecord>, Vec<CallRecord>);

#[derive(Clone, Copy)]
enum Place {
    UnderWindow,
    OverWindow,
}

// Where the cache stands, the price that is written, how deep a fault of the window is, and the counts that are due: lookups and fills of the
// window, and reads, hits, prefetches and the share of the cache.
#[derive(Clone, Copy)]
struct Case {
    place: Place,
    new: u32,
    depth: u8,
    window: [u64; 2],
    cache: [u64; 4],
}

// Under the window the line of the table is hit three times, that of the price once, and the one that came with the price once. Over it line 0
// is read again after the write, and line 1 refused whenever it is read ahead.
pub(crate) fn show_caches<M: Memory + Drop>(
    rt: &HostRuntime,
    memory: M,
    card: Card,
) -> anyhow::Result<M>
    requires { M.Memory.coherent memory }
    ensures { IfOk result M.Memory.coherent }
{
    println!(rt; "The list, and a read of the next price, on a window over a cache:")?;
    let under = Case {
        place: Place::UnderWindow,
        new: LOWERED,
        depth: 0,
        window: [6, 1],
        cache: [10, 5, 3, 500],
    };
    let memory = show_case(rt, memory, card, under)?;
    println!(rt; "And on a cache over a window:")?;
    let over = Case {
        place: Place::OverWindow,
        new: LOWERED_AGAIN,
        depth: 1,
        window: [70, 1],
        cache: [4, 1, 0, 250],
    };
    show_case(rt, memory, card, over)
}

// Makes the calls, and shows each with its answer, the prices that were read, and what is left.
fn show_case<M: Memory + Drop>(
    rt: &HostRuntime,
    memory: M,
    card: Card,
    case: Case,
) -> anyhow::Result<M>
    requires { M.Memory.coherent memory }
    ensures { IfOk result M.Memory.coherent }
{
    let mut memory = memory;
    let (mut calls, due) = lists(rt, &mut memory, card, case)?;
    let mut board = vec![in rt.alloc(); 0u8; card.whole() as usize]?;
    let run = run_with_cache(case.place, card, memory, &mut board, &mut calls);
    let CacheRun { memory, outcome } = run;
    let Ok((window, cache)) = outcome else {
        bail!("the set-up was refused");
    };
    show_records(rt, &calls, &due)?;
    show_both(rt, &window, cache, case)?;
    show_left(rt, memory, card, case.new)
}

// The calls on a window of two lines, with a cache under it or over it.
fn run_with_cache<M: Memory + Drop>(
    place: Place,
    card: Card,
    memory: M,
    board: &mut [u8],
    calls: &mut [CallRecord],
) -> CacheRun<M>
    requires { M.Memory.coherent memory }
    ensures { M.Memory.coherent result.memory }
{
    let writes = two_lines(card.table());
    match place {
        Place::UnderWindow => {
            let run = run_window_over_cache::<Stride, M>(&writes, memory, board, calls);
            let CachedRun {
                memory,
                outcome,
                cache,
            } = run;
            CacheRun {
                memory,
                outcome: outcome.map(|window| (window, cache)),
            }
        }
        Place::OverWindow => run_cache_over_window::<Stride, M>(&writes, memory, board, calls),
    }
}

// Writes the table, and makes the list with a read of the next price at its end.
fn lists<M: Memory>(
    rt: &HostRuntime,
    memory: &mut M,
    card: Card,
    case: Case,
) -> anyhow::Result<Lists>
    requires { M.coherent memory.old }
    ensures { M.coherent memory.new }
{
    let heap = rt.alloc();
    write_half_table(memory, card.table())?;
    let price = read_price(memory, RECORD).context("the price was not read")?;
    let next = read_price(memory, RECORD + 1).context("the next price was not read")?;
    let (mut calls, mut due) = calls_and_due(heap, price, case.new, case.depth)?;
    calls.push(record(heap, Access::Read, NEXT, &BEFORE[..4], None)?)?;
    due.push(record(heap, Access::Read, NEXT, &next.to_be_bytes(), Some(Ok(())))?)?;
    Ok((calls, due))
}

// Shows each call with its answer, and the prices that were read before and after the write.
fn show_records(rt: &HostRuntime, calls: &[CallRecord], due: &[CallRecord]) -> anyhow::Result<()> {
    show_calls(rt, calls)?;
    check_records(calls, due)?;
    let (before, after) = (brought(calls, 0)?, brought(calls, 2)?);
    println!(rt; "  four bytes at window address 12: {before} becomes {after}")?;
    Ok(())
}

// The price that a call has read.
fn brought(calls: &[CallRecord], number: usize) -> anyhow::Result<u32> {
    let call = calls.get(number).context("there is no such call")?;
    let [first, second, third, fourth] = call.buffer.as_slice() else {
        bail!("a price has four bytes");
    };
    Ok(u32::from_be_bytes([*first, *second, *third, *fourth]))
}

// Shows what the window and the cache have counted. Other counts than those that are due are an error.
fn show_both(
    rt: &HostRuntime,
    window: &WindowReport,
    cache: CacheReport,
    due: Case,
) -> anyhow::Result<()> {
    show_counts(rt, window)?;
    let CacheReport {
        reads,
        hits,
        prefetches,
        share,
    } = cache;
    println!(rt; "  reads {reads}, hits {hits}, prefetches {prefetches}, share {share}")?;
    if [window.lookups, window.fills] != due.window {
        bail!("the counts of the window are not those that are due");
    }
    if [reads, hits, prefetches, share] != due.cache {
        bail!("the counts of the cache are not those that are due");
    }
    Ok(())
}

// Shows the price that stands in the record now, and the marks.
fn show_left<M: Memory + Drop>(
    rt: &HostRuntime,
    memory: M,
    card: Card,
    due: u32,
) -> anyhow::Result<M>
    requires { M.Memory.coherent memory }
    ensures { IfOk result M.Memory.coherent }
{
    let mut memory = memory;
    let price = read_price(&mut memory, RECORD).context("the price was not read")?;
    println!(rt; "  the record says {price}")?;
    if price != due {
        bail!("the record has not the price that was written");
    }
    show_marks(rt, &mut memory, card.table(), &[WRITTEN, FRESH_OUT])?;
    Ok(memory)
}
