// The marks of a page: what an accepted read or write of its bytes sets in its entry.
ghost use Rattle.std.specs.Prelude.{◌≡◌, ◌+◌, ◌<◌, ◌≤◌, true, Ok, is_some};
ghost use Rattle.memory.specs.Calls.{read_answer};
ghost use Rattle.memory.specs.Reach.{Reached};
ghost use Rattle.page_table.specs.Entry.{set_flag, top_after_read};
ghost use Rattle.page_table.specs.Table.{entry_address, frame_of};
ghost use Rattle.page_table.specs.Tlb.{Steady};
ghost use Rattle.page_table.specs.Ready.{Holds};
ghost use Rattle.walk.specs.Marks.{top_after, marked_entry, is_marked, held_marked, marked_at, marked, refreshed};

use mapping::MemoryAddress;
use memory::{Access, Memory};
use page_table::{Entry, Table, Tlb};

// Sets the marks of a page whose entry is live, in the table and in what is held: the referenced bit, and for a write the modified
// bit too. Where it is held with its marks set, both are left alone.
#[tactic(auto, using(crate::proofs::Marking::top_accepted, crate::proofs::Marking::marked_is, crate::proofs::Marking::marked_already, crate::proofs::Marking::refreshed_already, crate::proofs::Marking::holds_marked, memory::proofs::Reaches::reached_none))]
pub fn mark<M: Memory>(below: &mut M, tlb: &mut Tlb, table: Table, page: u32, access: Access)
    requires coherent { M.Memory.coherent below.old }
    requires inside { entry_address table page + 4 ≤ (M.Memory.meaning below.old).size }
    requires live { is_some (frame_of table (M.Memory.meaning below.old) page) ≡ true }
    requires low { page < table.entries }
    requires holds { Holds table (M.Memory.meaning below.old) tlb.old }
    requires steady { Steady tlb.old }
    ensures below { M.Memory.meaning below.new ≡ marked table access page (M.Memory.meaning below.old) }
    ensures tlb { tlb.new ≡ refreshed access page tlb.old }
    ensures coherent { M.Memory.coherent below.new }
    ensures reached { Reached M.Memory.step below.old below.new }
    ensures holds { Holds table (M.Memory.meaning below.new) tlb.new }
    ensures steady { Steady tlb.new }
{
    if is_held_marked(tlb, page, access) {
        return;
    }
    refresh(tlb, page, access);
    mark_top(below, table.entry_address(page), access);
}

// Whether the page is held, with its marks set.
#[inline(always)]
pub fn is_held_marked(tlb: &Tlb, page: u32, access: Access) -> bool
    ensures { result ≡ held_marked access page tlb.now }
{
    match tlb.get(page) {
        Some(entry) => is_marked(entry, access),
        None => false,
    }
}

// Sets the marks of a page in what is held for it.
#[tactic(auto, unfolding(crate::specs::Marks::refreshed))]
fn refresh(tlb: &mut Tlb, page: u32, access: Access)
    requires { Steady tlb.old }
    ensures tlb { tlb.new ≡ refreshed access page tlb.old }
    ensures steady { Steady tlb.new }
{
    if let Some(entry) = tlb.get(page) {
        tlb.keep(page, marked_entry(entry, access));
    }
}

// Sets the marks in the first byte of an entry.
#[tactic(auto, using(crate::proofs::Marking::top_written, memory::proofs::Reaches::reached_one, memory::proofs::Reaches::reached_more))]
fn mark_top<M: Memory>(below: &mut M, a: MemoryAddress, access: Access)
    requires coherent { M.Memory.coherent below.old }
    requires accepted { read_answer (M.Memory.meaning below.old) a.0 1 ≡ Ok tt }
    ensures below { M.Memory.meaning below.new ≡ marked_at access a.0 (M.Memory.meaning below.old) }
    ensures coherent { M.Memory.coherent below.new }
    ensures reached { Reached M.Memory.step below.old below.new }
{
    let mut top = [0];
    let _ = below.read(a.0, &mut top);
    let _ = below.write(a.0, &[top_after(top[0], access)]);
}

// Whether the marks of an entry are set.
fn is_marked(entry: Entry, access: Access) -> bool
    ensures { result ≡ is_marked access entry }
{
    match access {
        Access::Read => entry.referenced,
        Access::Write => entry.referenced && entry.modified,
    }
}

fn marked_entry(entry: Entry, access: Access) -> Entry
    ensures { result ≡ marked_entry access entry }
{
    match access {
        Access::Read => Entry {
            referenced: true,
            ..entry
        },
        Access::Write => Entry {
            referenced: true,
            modified: true,
            ..entry
        },
    }
}

// The first byte of an entry with its marks set.
fn top_after(top: u8, access: Access) -> u8
    ensures { result ≡ top_after access top }
{
    match access {
        Access::Read => with_referenced(top),
        Access::Write => with_modified(with_referenced(top)),
    }
}

fn with_referenced(top: u8) -> u8
    ensures { result ≡ top_after_read top }
{
    if top / 64 % 2 == 1 { top } else { top + 64 }
}

fn with_modified(top: u8) -> u8
    ensures { result ≡ set_flag 5 top }
{
    if top / 32 % 2 == 1 { top } else { top + 32 }
}
