// Windows that open, and lines that are gathered through one.
ghost use Rattle.std.specs.Prelude.{IfOk};

use anyhow::{Context, bail};
use mapping::{ArmedSet, Mapping};
use memory::{Fault, Memory};
use records::{PRICES, line_total, price_at};
use std::alloc::Global;
use units::{LINE, PAGE};
use window::{Window, WindowReport};

// What a buffer holds before a read: a refused one leaves it.
pub(crate) const BEFORE: [u8; 128] = [0xAA; LINE as usize];

// A window over the whole memory, with a board for all its pages. An opening that is refused is an error.
pub(crate) fn opened<P: Mapping, M: Memory + Drop>(
    heap: Global,
    set: ArmedSet<P>,
    memory: M,
) -> anyhow::Result<Window<P, M>>
    requires armed { P.Mapping.armed set.mapping }
    requires coherent { M.Memory.coherent memory }
    ensures { IfOk result (λ w. ⟦<Window<P, M> as Memory>⟧.coherent w) }
{
    let pages = memory.size() / PAGE;
    let mut board = vec![in heap; 0u8; pages as usize]?;
    let window = Window::open(set, memory, &mut board);
    window.opening().context("a window was not opened")?;
    Ok(window)
}

// One whose report is shown.
pub(crate) fn open<P: Mapping, M: Memory + Drop>(
    rt: &HostRuntime,
    set: ArmedSet<P>,
    memory: M,
) -> anyhow::Result<Window<P, M>>
    requires armed { P.Mapping.armed set.mapping }
    requires coherent { M.Memory.coherent memory }
    ensures { IfOk result (λ w. ⟦<Window<P, M> as Memory>⟧.coherent w) }
{
    let window = opened(rt.alloc(), set, memory)?;
    show_report(rt, &window.report(), window.size())?;
    Ok(window)
}

pub(crate) fn show_report(
    rt: &HostRuntime,
    report: &WindowReport,
    size: u64,
) -> anyhow::Result<()> {
    let WindowReport {
        type_number,
        reason,
        entry,
        lookups,
        fills,
    } = report;
    println!(rt;
        "  type {type_number}, reason {reason}, entry {entry}, lookups {lookups}, fills {fills}, size {size}"
    )?;
    Ok(())
}

// Shows what a window has looked up since it was opened.
pub(crate) fn show_counts(rt: &HostRuntime, report: &WindowReport) -> anyhow::Result<()> {
    let WindowReport { lookups, fills, .. } = report;
    println!(rt; "  lookups {lookups}, fills {fills}")?;
    Ok(())
}

// The lines from the first one on, up to so many, by one read each.
pub(crate) fn gather_lines<W: Memory>(
    heap: Global,
    window: &mut W,
    first: u32,
    lines: u32,
) -> anyhow::Result<Vec<[u8; 128]>>
    requires { W.coherent window.old }
    ensures { W.coherent window.new }
{
    let mut gathered = Vec::new(heap);
    for number in first..lines {
        gathered.push(gather_line(window, number)?)?;
    }
    Ok(gathered)
}

fn gather_line<W: Memory>(window: &mut W, number: u32) -> anyhow::Result<[u8; 128]>
    requires { W.coherent window.old }
    ensures { W.coherent window.new }
{
    let mut line = [0; LINE as usize];
    window
        .read(u64::from(number) * LINE, &mut line)
        .context("a line was not gathered")?;
    Ok(line)
}

// A read of a whole line that is refused just so, and leaves the buffer: any other answer is an error.
pub(crate) fn show_refused_line<W: Memory>(
    rt: &HostRuntime,
    window: &mut W,
    number: u32,
    due: Fault,
) -> anyhow::Result<()>
    requires { W.coherent window.old }
    ensures { W.coherent window.new }
{
    let mut line = BEFORE;
    let answer = window.read(u64::from(number) * LINE, &mut line);
    if line != BEFORE {
        bail!("the read that is to be refused changed the buffer");
    }
    match answer {
        Err(fault) if fault == due => Ok(println!(rt; "  line {number}: refused: {fault}")?),
        Err(other) => bail!("the line was refused otherwise: {other}"),
        Ok(()) => bail!("the line was not refused"),
    }
}

// Shows the 32 prices of a line, 8 to a row.
pub(crate) fn show_prices(rt: &HostRuntime, line: &[u8; 128]) -> anyhow::Result<()> {
    for index in 0..PRICES {
        if let Some(price) = price_at(line, index) {
            print!(rt; " {price}")?;
        }
        if index % 8 == 7 {
            println!(rt; "")?;
        }
    }
    Ok(())
}

// Shows the total of each line, and that of all. Another total than the one that is due is an error.
pub(crate) fn show_totals(rt: &HostRuntime, lines: &[[u8; 128]], due: u128) -> anyhow::Result<()> {
    let mut sum: u64 = 0;
    for (number, line) in lines.iter().enumerate() {
        let total = line_total(line);
        println!(rt; "  line {number}: {total} cents")?;
        sum = sum
            .checked_add(total)
            .context("the total has more than 64 bits")?;
    }
    if u128::from(sum) != due {
        bail!("the lines have the total {sum}, and their records {due}");
    }
    println!(rt; "  total: {sum} cents, as the records have it one by one")?;
    Ok(())
}
