// The walk: the mapping, the entry of the page, and the address below.
ghost use Rattle.std.specs.Prelude.{◌≡◌, ℕ, ◌/◌, Some, IfOk};
ghost use Rattle.std.specs.Result.{result_map_both};
ghost use Rattle.memory.specs.Reach.{OnlyRead};
ghost use Rattle.page_table.specs.declared.entry.Entry.{Entry};
ghost use Rattle.page_table.specs.Tlb.{held_entry};
ghost use Rattle.page_table.specs.Ready.{Ready};
ghost use Rattle.page_table.specs.Walk.{walked};
ghost use Rattle.walk.specs.Lookup.{looked_at, page_at};

use crate::lookup::look_up;
use mapping::{Mapping, MemoryAddress, PseudoVirtualAddress, WindowAddress};
use memory::{Cause, Fault, Memory};
use page_table::{Table, Tlb};
use units::PAGE;

// Where a byte of the image stands: its page of the data, and its address below.
#[derive(Clone, Copy, PartialEq, Eq, Debug)]
pub struct Spot {
    pub page: u32,
    pub address: MemoryAddress,
}

// Where a byte of the image stands, or the fault that is met on the way: one lookup, if the mapping gives it a place.
#[tactic(auto, using(crate::proofs::Walks::entry_below, memory::proofs::Reaches::only_read_none), unfolding(crate::specs::Lookup::looked_at))]
#[inline(always)]
pub fn walk<P: Mapping, M: Memory>(
    mapping: &P,
    below: &mut M,
    tlb: &mut Tlb,
    s: WindowAddress,
) -> Result<Spot, Fault>
    requires armed { P.Mapping.armed mapping.now }
    requires coherent { M.Memory.coherent below.old }
    requires ready { Ready (P.Mapping.meaning mapping.now) (M.Memory.meaning below.old) tlb.old }
    ensures answer { result_map_both (λ spot. spot.address.0) (λ f. f) result ≡ walked (P.Mapping.meaning mapping.now) (M.Memory.meaning below.old) s.0 }
    ensures page { IfOk result (λ spot. spot.page ≡ page_at (P.Mapping.meaning mapping.now) s.0) }
    ensures tlb { tlb.new ≡ looked_at (P.Mapping.meaning mapping.now) (M.Memory.meaning below.old) tlb.old s.0 }
    ensures held { (v : ℕ) (e : Entry) → (P.Mapping.meaning mapping.now).place s.0 ≡ Some v → held_entry tlb.old (v / 4096) ≡ Some e → below.new ≡ below.old }
    ensures meaning { M.Memory.meaning below.new ≡ M.Memory.meaning below.old }
    ensures coherent { M.Memory.coherent below.new }
    ensures reads { OnlyRead M.Memory.step below.old below.new }
    ensures ready { Ready (P.Mapping.meaning mapping.now) (M.Memory.meaning below.new) tlb.new }
{
    let PseudoVirtualAddress(v) = mapping.place(s).ok_or(Fault::here(Cause::Blank, s.0))?;
    let page = (v / PAGE) as u32;
    let entry = look_up(below, tlb, Table::of(mapping), page)?;
    let frame = entry.live_frame().map_err(|cause| Fault::here(cause, s.0))?;
    Ok(Spot {
        page,
        address: MemoryAddress(u64::from(frame) * PAGE + v % PAGE),
    })
}
