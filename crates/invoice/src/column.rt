// All prices, line by line, through a window.
ghost use Rattle.std.specs.Prelude.{IfOk};

use crate::layout::Card;
use crate::records_below::records_total;
use crate::sets::armed_set;
use crate::table::{FRESH, READ, show_marks, write_table};
use crate::windows::{gather_lines, open, show_counts, show_prices, show_totals};
use anyhow::Context;
use memory::Memory;
use stride::Stride;

// Writes the page table, opens a window, gathers each line by one read, and shows what these reads left in the table.
pub(crate) fn show_column<M: Memory + Drop>(
    rt: &HostRuntime,
    memory: M,
    card: Card,
) -> anyhow::Result<M>
    requires { M.Memory.coherent memory }
    ensures { IfOk result M.Memory.coherent }
{
    let Card { count, lines, .. } = card;
    let dense = card.dense();
    let heap = rt.alloc();
    let mut memory = memory;
    let due = records_total(rt, &mut memory, dense)?;
    println!(rt;
        "A page table in page {}, one entry for each line: entry k names page k.",
        card.table()
    )?;
    write_table(&mut memory, card.table(), lines)?;
    let mut tops = vec![in heap; FRESH; lines as usize]?;
    show_marks(rt, &mut memory, card.table(), &tops)?;
    println!(rt; "A window over the records by that table, opened:")?;
    let mut window = open(rt, armed_set::<Stride>(&card.stride_settings())?, memory)?;
    let gathered = gather_lines(heap, &mut window, 0, lines)?;
    println!(rt; "Line 0, 32 prices side by side by one read of 128 bytes:")?;
    show_prices(rt, gathered.first().context("there is no line")?)?;
    println!(rt; "The totals of {dense} of {count} prices:")?;
    show_totals(rt, &gathered, due)?;
    println!(rt; "What these reads left:")?;
    show_counts(rt, &window.report())?;
    let mut memory = window.close();
    tops.fill(READ);
    show_marks(rt, &mut memory, card.table(), &tops)?;
    Ok(memory)
}
