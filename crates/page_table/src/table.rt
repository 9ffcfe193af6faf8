// The page table of a mapping, in the memory below.
ghost use Rattle.std.specs.Prelude.{◌≡◌, Some, None};
ghost use Rattle.memory.specs.Reach.{OnlyRead};
ghost use Rattle.page_table.specs.Table.{table_of, table_pages, entry_address, entry_answer};

use crate::entry::Entry;
use mapping::{Mapping, MemoryAddress};
use memory::{Fault, Memory};
use units::{PAGE, WORD};

// Entries in a page.
const PAGE_ENTRIES: u32 = 1024;

// Where the table lies, and how long it is. Numbers of 32 bits, so that every address of an entry has 64.
#[derive(Clone, Copy)]
pub struct Table {
    // the page of the memory below where it starts
    page: u32,
    // one for each page that the extent reaches
    entries: u32,
}

impl Table {
    // The table that an armed mapping goes by.
    pub fn of<P: Mapping>(mapping: &P) -> Table
        requires { P.armed mapping.now }
        ensures { result ≡ table_of (P.meaning mapping.now) }
    {
        Table {
            page: mapping.table_page() as u32,
            entries: mapping.extent().div_ceil(PAGE) as u32,
        }
    }

    pub fn page(self) -> u32
        ensures { result ≡ self.page }
    {
        self.page
    }

    pub fn entries(self) -> u32
        ensures { result ≡ self.entries }
    {
        self.entries
    }

    // How many pages it takes, the last one perhaps in part.
    pub fn pages(self) -> u32
        ensures { result ≡ table_pages self }
    {
        self.entries.div_ceil(PAGE_ENTRIES)
    }

    // Where the entry of this number stands.
    pub fn entry_address(self, number: u32) -> MemoryAddress
        ensures { result.0 ≡ entry_address self number }
    {
        MemoryAddress(u64::from(self.page) * PAGE + u64::from(number) * WORD as u64)
    }
}

// The entry at an address, or what the memory refuses, passed up.
pub fn read_entry<M: Memory>(below: &mut M, a: MemoryAddress) -> Result<Entry, Fault>
    requires { M.Memory.coherent below.old }
    ensures answer { result ≡ entry_answer (M.Memory.meaning below.old) a.0 }
    ensures meaning { M.Memory.meaning below.new ≡ M.Memory.meaning below.old }
    ensures coherent { M.Memory.coherent below.new }
    ensures reads { OnlyRead M.Memory.step below.old below.new }
{
    let mut bytes = [0; WORD];
    below.read(a.0, &mut bytes).map_err(Fault::passed_up)?;
    Ok(Entry::decode(&bytes))
}
