// One price, corrected through a window.
ghost use Rattle.std.specs.Prelude.{IfOk};

use crate::layout::Card;
use crate::records_below::read_record;
use crate::sets::armed_set;
use crate::table::{READ, WRITTEN, show_marks};
use crate::windows::{open, show_counts};
use anyhow::{Context, bail};
use memory::Memory;
use records::record_of;
use stride::Stride;
use units::WORD;

// The record whose price is corrected. It stands in the first page.
const CORRECTED: u32 = 3;

// Corrects the price by a write of its four bytes, and shows what that changed in the record and left in the table.
pub(crate) fn show_correction<M: Memory + Drop>(
    rt: &HostRuntime,
    memory: M,
    card: Card,
) -> anyhow::Result<M>
    requires { M.Memory.coherent memory }
    ensures { IfOk result M.Memory.coherent }
{
    println!(rt; "A tenth off the price of record {CORRECTED}, through another window:")?;
    let mut memory = memory;
    let before = read_record(&mut memory, CORRECTED)?;
    let mut window = open(rt, armed_set::<Stride>(&card.stride_settings())?, memory)?;
    let corrected = correct_price(rt, &mut window)?;
    show_counts(rt, &window.report())?;
    let mut memory = window.close();
    let after = read_record(&mut memory, CORRECTED)?;
    show_difference(rt, &before, &after, corrected)?;
    let mut tops = vec![in rt.alloc(); READ; card.lines as usize]?;
    if let Some(first) = tops.first_mut() {
        *first = WRITTEN;
    }
    show_marks(rt, &mut memory, card.table(), &tops)?;
    Ok(memory)
}

// Takes a tenth off the price, and answers with what it is then.
fn correct_price<W: Memory>(rt: &HostRuntime, window: &mut W) -> anyhow::Result<u32>
    requires { W.coherent window.old }
    ensures { W.coherent window.new }
{
    let address = u64::from(CORRECTED) * WORD as u64;
    let mut bytes = [0; WORD];
    window
        .read(address, &mut bytes)
        .context("the price was not read")?;
    let price = u32::from_be_bytes(bytes);
    let corrected = price - price / 10;
    window
        .write(address, &corrected.to_be_bytes())
        .context("the price was not corrected")?;
    println!(rt; "  four bytes at window address {address}: {price} becomes {corrected}")?;
    Ok(corrected)
}

// Shows that the record has the price, and that nothing else in it changed.
fn show_difference(
    rt: &HostRuntime,
    before: &[u8; 128],
    after: &[u8; 128],
    corrected: u32,
) -> anyhow::Result<()> {
    let others = changed_beside(before, after);
    if others != 0 || *after != record_of(corrected) {
        bail!("the record is not the one that is due");
    }
    println!(rt;
        "  bytes 8 to 11 of the record say {corrected}; of its other 124 bytes {others} changed"
    )?;
    Ok(())
}

// How many bytes of the record changed outside its price.
fn changed_beside(before: &[u8; 128], after: &[u8; 128]) -> usize {
    let mut others = 0usize;
    for (index, (old, new)) in before.iter().zip(after).enumerate() {
        if old != new && !(8..12).contains(&index) {
            others = others.saturating_add(1);
        }
    }
    others
}
