// A failing chip under a window.
use crate::layout::Card;
use crate::records_below::show_refused_total;
use crate::sets::armed_set;
use crate::table::write_table;
use crate::windows::{gather_lines, open, show_refused_line};
use checked::{Checked, flip};
use memory::{Cause, Fault};
use records::price_address;
use stride::Stride;

// The lowest byte of the price in the first record.
const CENTS: usize = 11;

// Turns a bit over, and shows that the line with its record is refused, one deeper than the record itself, and that all else still reads.
pub(crate) fn show_failing_chip(
    rt: &HostRuntime,
    bytes: &mut [u8],
    card: Card,
) -> anyhow::Result<()> {
    println!(rt; "A chip fails: the lowest bit of the price in record 0 turns over.")?;
    flip(bytes, CENTS, 0);
    let mut memory = Checked::new(bytes);
    write_table(&mut memory, card.table(), card.lines)?;
    let mut window = open(rt, armed_set::<Stride>(&card.stride_settings())?, memory)?;
    let fault = Fault::here(Cause::FailedCheck, price_address(0));
    show_refused_line(rt, &mut window, 0, fault.passed_up())?;
    let good = gather_lines(rt.alloc(), &mut window, 1, card.lines)?.len();
    println!(rt; "  {good} of {} lines are still gathered", card.lines)?;
    let mut memory = window.close();
    show_refused_total(rt, &mut memory, card.count, fault)
}
