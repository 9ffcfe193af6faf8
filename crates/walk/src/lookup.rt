// The entry of a page, by the TLB or from the table.
ghost use Rattle.std.specs.Prelude.{◌≡◌, ◌+◌, ◌<◌, ◌≤◌, Some};
ghost use Rattle.memory.specs.Reach.{OnlyRead};
ghost use Rattle.page_table.specs.declared.entry.Entry.{Entry};
ghost use Rattle.page_table.specs.Table.{entry_address, entry_read};
ghost use Rattle.page_table.specs.Tlb.{held_entry, Steady};
ghost use Rattle.page_table.specs.Ready.{Holds};
ghost use Rattle.walk.specs.Lookup.{looked, taken_in};

use memory::{Fault, Memory};
use page_table::{Entry, Table, Tlb, read_entry};

// One lookup: a held entry as it is held; another one is read, and held from then on if it is live.
#[tactic(auto, using(crate::proofs::Lookups::read_is, crate::proofs::Lookups::looked_held, crate::proofs::Lookups::looked_read, crate::proofs::Lookups::holds_taken_in, memory::proofs::Reaches::only_read_none))]
#[inline(always)]
pub(crate) fn look_up<M: Memory>(
    below: &mut M,
    tlb: &mut Tlb,
    table: Table,
    page: u32,
) -> Result<Entry, Fault>
    requires coherent { M.Memory.coherent below.old }
    requires inside { entry_address table page + 4 ≤ (M.Memory.meaning below.old).size }
    requires low { page < table.entries }
    requires holds { Holds table (M.Memory.meaning below.old) tlb.old }
    requires steady { Steady tlb.old }
    ensures answer { result ≡ entry_read (M.Memory.meaning below.old) (entry_address table page) }
    ensures tlb { tlb.new ≡ looked table (M.Memory.meaning below.old) tlb.old page }
    ensures held { (e : Entry) → held_entry tlb.old page ≡ Some e → below.new ≡ below.old }
    ensures meaning { M.Memory.meaning below.new ≡ M.Memory.meaning below.old }
    ensures coherent { M.Memory.coherent below.new }
    ensures reads { OnlyRead M.Memory.step below.old below.new }
    ensures holds { Holds table (M.Memory.meaning below.new) tlb.new }
    ensures steady { Steady tlb.new }
{
    if let Some(entry) = tlb.get(page) {
        tlb.count(false);
        return Ok(entry);
    }
    let entry = read_entry(below, table.entry_address(page));
    take_in(tlb, page, &entry);
    entry
}

// What a lookup of a page that is not held leaves in the TLB, by the entry as it was read.
fn take_in(tlb: &mut Tlb, page: u32, entry: &Result<Entry, Fault>)
    requires { Steady tlb.old }
    ensures tlb { tlb.new ≡ taken_in tlb.old page entry.now }
    ensures steady { Steady tlb.new }
{
    match entry {
        Ok(found) if found.live_frame().is_ok() => {
            tlb.count(true);
            tlb.keep(page, *found);
        }
        _ => tlb.count(false),
    }
}
