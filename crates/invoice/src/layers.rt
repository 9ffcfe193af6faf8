// A window over a window.
ghost use Rattle.std.specs.Prelude.{IfOk};

use crate::layout::Card;
use crate::records_below::records_total;
use crate::sets::{armed_set, show_registers};
use crate::table::{FRESH, READ, WRITTEN, show_marks, write_table};
use crate::windows::{gather_lines, open, show_counts, show_totals};
use direct::Direct;
use memory::Memory;
use std::alloc::{AllocError, Global};
use stride::Stride;

// The lower window shows the records and the page of the upper one's table, by a table in the page behind these. The upper one gathers
// the prices from its image.
pub(crate) fn show_layers<M: Memory + Drop>(
    rt: &HostRuntime,
    memory: M,
    card: Card,
) -> anyhow::Result<M>
    requires { M.Memory.coherent memory }
    ensures { IfOk result M.Memory.coherent }
{
    let heap = rt.alloc();
    let mut memory = memory;
    let due = records_total(rt, &mut memory, card.dense())?;
    write_table(&mut memory, card.table(), card.lines)?;
    write_table(&mut memory, card.lower_table(), card.lower_table())?;
    println!(rt; "A window over a window. The lower one, by a direct mapping:")?;
    show_registers(rt, &card.direct_settings())?;
    let lower = open(rt, armed_set::<Direct>(&card.direct_settings())?, memory)?;
    println!(rt; "The upper one, by the stride mapping, whose table lies in the lower image:")?;
    let mut upper = open(rt, armed_set::<Stride>(&card.stride_settings())?, lower)?;
    show_totals(rt, &gather_lines(heap, &mut upper, 0, card.lines)?, due)?;
    println!(rt; "What these reads left to the upper one:")?;
    show_counts(rt, &upper.report())?;
    let lower = upper.close();
    let report = lower.report();
    let mut memory = lower.close();
    let tops = vec![in heap; READ; card.lines as usize]?;
    show_marks(rt, &mut memory, card.table(), &tops)?;
    println!(rt; "And to the lower one, which was written where the upper one set marks:")?;
    show_counts(rt, &report)?;
    show_marks(
        rt,
        &mut memory,
        card.lower_table(),
        &lower_marks(heap, card)?,
    )?;
    Ok(memory)
}

// What the upper window's reads leave in the lower one's table. A page of records that no whole line takes is not touched; the last
// page is that of the upper one's table.
fn lower_marks(heap: Global, card: Card) -> Result<Vec<u8>, AllocError> {
    let mut tops = vec![in heap; FRESH; card.lower_table() as usize]?;
    for top in tops.iter_mut().take(card.lines as usize) {
        *top = READ;
    }
    if let Some(last) = tops.last_mut() {
        *last = WRITTEN;
    }
    Ok(tops)
}
