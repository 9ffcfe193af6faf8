// Page tables, written by the memory's own `write`, and the marks in them.
use anyhow::{Context, bail};
use memory::Memory;
use units::{PAGE, WORD};

// The top bit of an entry that is valid.
const VALID: u32 = 0x8000_0000;

// The bit of an entry whose page is not in memory.
const OUT: u32 = 0x1000_0000;

// The first byte of a live entry whose page nothing has touched; of one whose page was read; and of one whose page was written.
pub(crate) const FRESH: u8 = 0x80;

pub(crate) const READ: u8 = 0xC0;

pub(crate) const WRITTEN: u8 = 0xE0;

// The first byte of an entry that is valid and out, with no mark.
pub(crate) const FRESH_OUT: u8 = 0x90;

// A valid entry, with the page that it names.
#[derive(Clone, Copy)]
pub(crate) enum Entry {
    // that page is in memory
    Live(u32),
    // it is not
    Out(u32),
}

impl Entry {
    fn word(self) -> u32 {
        match self {
            Entry::Live(frame) => VALID | frame,
            Entry::Out(frame) => VALID | OUT | frame,
        }
    }
}

// Writes a table of so many live entries, of which each names the page of its own number.
pub(crate) fn write_table<M: Memory>(memory: &mut M, table: u32, entries: u32) -> anyhow::Result<()>
    requires { M.coherent memory.old }
    ensures { M.coherent memory.new }
{
    for number in 0..entries {
        write_entry(memory, table, number, Entry::Live(number))?;
    }
    Ok(())
}

// Writes a table of two entries, of which the first one is live and the second one out.
pub(crate) fn write_half_table<M: Memory>(memory: &mut M, table: u32) -> anyhow::Result<()>
    requires { M.coherent memory.old }
    ensures { M.coherent memory.new }
{
    write_entry(memory, table, 0, Entry::Live(0))?;
    write_entry(memory, table, 1, Entry::Out(1))
}

// Replaces an entry of the table that starts in this page.
pub(crate) fn write_entry<M: Memory>(
    memory: &mut M,
    table: u32,
    number: u32,
    entry: Entry,
) -> anyhow::Result<()>
    requires { M.coherent memory.old }
    ensures { M.coherent memory.new }
{
    let address = entry_address(table, u64::from(number));
    memory
        .write(address, &entry.word().to_be_bytes())
        .context("the page table was not written")
}

fn entry_address(table: u32, number: u64) -> u64 {
    (u64::from(table) * PAGE).saturating_add(number.saturating_mul(WORD as u64))
}

// Shows the first byte of each entry, from 0 on. Any other byte than the one that is due is an error.
pub(crate) fn show_marks<M: Memory>(
    rt: &HostRuntime,
    memory: &mut M,
    table: u32,
    due: &[u8],
) -> anyhow::Result<()>
    requires { M.coherent memory.old }
    ensures { M.coherent memory.new }
{
    print!(rt; "  first bytes of the entries:")?;
    for (number, due) in (0..).zip(due) {
        let top = first_byte(memory, table, number)?;
        print!(rt; " {top:02X}")?;
        if top != *due {
            bail!("the marks of entry {number} are not those that are due");
        }
    }
    println!(rt; "")?;
    Ok(())
}

// An entry that is out and has no mark still.
pub(crate) fn show_unmarked_out<M: Memory>(
    rt: &HostRuntime,
    memory: &mut M,
    table: u32,
    number: u32,
) -> anyhow::Result<()>
    requires { M.coherent memory.old }
    ensures { M.coherent memory.new }
{
    let top = first_byte(memory, table, u64::from(number))?;
    if top != FRESH_OUT {
        bail!("the refused read changed the entry");
    }
    println!(rt; "  the first byte of entry {number} is {top:02X} still")?;
    Ok(())
}

fn first_byte<M: Memory>(memory: &mut M, table: u32, number: u64) -> anyhow::Result<u8>
    requires { M.coherent memory.old }
    ensures { M.coherent memory.new }
{
    let mut top = [0];
    memory
        .read(entry_address(table, number), &mut top)
        .context("the page table was not read")?;
    Ok(top[0])
}
