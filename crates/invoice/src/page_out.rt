// A page that is not in memory.
ghost use Rattle.std.specs.Prelude.{IfOk};

use crate::layout::Card;
use crate::sets::armed_set;
use crate::table::{Entry, show_unmarked_out, write_entry};
use crate::windows::{open, show_counts, show_refused_line};
use memory::{Cause, Fault, Memory};
use stride::Stride;
use units::LINE;

// Makes the page of the last line one that is out, and shows that a read of that line is refused and changes nothing.
pub(crate) fn show_page_out<M: Memory + Drop>(
    rt: &HostRuntime,
    memory: M,
    card: Card,
) -> anyhow::Result<M>
    requires { M.Memory.coherent memory }
    ensures { IfOk result M.Memory.coherent }
{
    println!(rt; "The page of the last line is not in memory, says its entry:")?;
    let last = card.lines.saturating_sub(1);
    let mut memory = memory;
    write_entry(&mut memory, card.table(), last, Entry::Out(last))?;
    let mut window = open(rt, armed_set::<Stride>(&card.stride_settings())?, memory)?;
    let due = Fault::here(Cause::PageOut, u64::from(last) * LINE);
    show_refused_line(rt, &mut window, last, due)?;
    show_counts(rt, &window.report())?;
    let mut memory = window.close();
    show_unmarked_out(rt, &mut memory, card.table(), last)?;
    Ok(memory)
}
