// The whole card: prices in, records written into checked memory, and a dense image of the prices read and written through windows.
#![tactic(auto)]

mod caches;
mod chip;
mod column;
mod correction;
mod layers;
mod layout;
mod list;
mod openings;
mod page_out;
mod records_below;
mod sets;
mod stacks;
mod table;
mod windows;

use crate::caches::show_caches;
use crate::chip::show_failing_chip;
use crate::column::show_column;
use crate::correction::show_correction;
use crate::layers::show_layers;
use crate::layout::Card;
use crate::list::show_list;
use crate::openings::show_refused_openings;
use crate::page_out::show_page_out;
use crate::sets::{show_mapping, show_refused_sets};
use crate::stacks::show_stacks;
use anyhow::Context;
use checked::Checked;
use checked_records::write_checked_records;
use console::start;
use memory::Memory;
use std::process::ExitCode;

// What `--help` prints.
const HELP: &str = "\
usage: invoice < PRICES\n\
PRICES has one price to a line: cents in decimal, below 4294967296; 32 to 1024 lines.\n\
The program writes the prices as records into checked memory, and opens a window over them by a\n\
stride mapping and a page table: 32 prices side by side are one line of it. It adds the lines up,\n\
corrects a price, and shows marks and counts, a page that is not in memory, a window over a window,\n\
a list of calls on one window, on stacks of windows, and with a cache under or over the window,\n\
set-ups and openings that are refused, and what a flipped bit does.";

fn main(rt: HostRuntime) -> anyhow::Result<ExitCode> {
    start(&rt, "invoice", HELP, |prices| invoice(&rt, prices))
}

// The whole run, over bytes for just the pages of this card.
fn invoice(rt: &HostRuntime, prices: &[u32]) -> anyhow::Result<()> {
    let card = Card::of(prices)?;
    let count = card.count;
    println!(rt; "Read {count} prices, in cents.")?;
    let mut bytes = vec![in rt.alloc(); 0u8; card.borrowed()]?;
    write_checked_records(&mut bytes, prices).context("the records were not written")?;
    println!(rt; "Wrote {count} records of 128 bytes into checked memory, the price at offset 8.")?;
    show_mapping(rt, card)?;
    show_windows(rt, Checked::new(&mut bytes), card, prices)?;
    show_failing_chip(rt, &mut bytes, card)
}

// Each part gives the memory back for the next one.
fn show_windows<M: Memory + Drop>(
    rt: &HostRuntime,
    memory: M,
    card: Card,
    prices: &[u32],
) -> anyhow::Result<()>
    requires { M.Memory.coherent memory }
{
    let memory = show_column(rt, memory, card)?;
    let memory = show_correction(rt, memory, card)?;
    let memory = show_page_out(rt, memory, card)?;
    let memory = show_layers(rt, memory, card)?;
    let memory = show_list(rt, memory, card)?;
    show_stacks(rt, prices)?;
    let memory = show_caches(rt, memory, card)?;
    show_refused_sets(rt)?;
    show_refused_openings(rt, memory, card)
}
