// What an accepted run leaves: the marks of its pages, and its bytes where its parts stand.
ghost use Rattle.std.specs.Prelude.{◌≡◌, ℕ, ◌+◌, ◌≤◌, length, map, take, drop, Ok};
ghost use Rattle.memory.specs.Calls.{first_fault, written};
ghost use Rattle.memory.specs.Reach.{writing, Reached};
ghost use Rattle.page_table.specs.Table.{table_of, GoodTable};
ghost use Rattle.page_table.specs.Walk.{walked, viewed, windowed};
ghost use Rattle.page_table.specs.Ready.{Ready};
ghost use Rattle.transfer.specs.Parts.{Spotted};
ghost use Rattle.transfer.specs.Wholes.{Whole};
ghost use Rattle.transfer.specs.Scatter.{LivePages, marked_pages, refreshed_pages, ScatteredAll};

use crate::gather::{is_whole, step_size};
use mapping::{Mapping, MemoryAddress, WindowAddress};
use memory::{Access, Memory};
use page_table::{Table, Tlb};
use walk::{Spot, is_held_marked, mark};

// Sets the marks of the pages in which the parts stand. Parts that follow in the same page find it marked.
pub(crate) fn mark_pages<P: Mapping, M: Memory>(
    mapping: &P,
    below: &mut M,
    tlb: &mut Tlb,
    spots: &[Spot],
    access: Access,
)
    requires armed { P.Mapping.armed mapping.now }
    requires coherent { M.Memory.coherent below.old }
    requires ready { Ready (P.Mapping.meaning mapping.now) (M.Memory.meaning below.old) tlb.old }
    requires live { LivePages (table_of (P.Mapping.meaning mapping.now)) (M.Memory.meaning below.old) (map (λ spot. spot.page) spots.now) }
    ensures below { M.Memory.meaning below.new ≡ marked_pages (table_of (P.Mapping.meaning mapping.now)) access (map (λ spot. spot.page) spots.now) (M.Memory.meaning below.old) }
    ensures tlb { tlb.new ≡ refreshed_pages access (map (λ spot. spot.page) spots.now) tlb.old }
    ensures walks { (s : ℕ) → walked (P.Mapping.meaning mapping.now) (M.Memory.meaning below.new) s ≡ walked (P.Mapping.meaning mapping.now) (M.Memory.meaning below.old) s }
    ensures window { windowed (P.Mapping.meaning mapping.now) (M.Memory.meaning below.new) ≡ windowed (P.Mapping.meaning mapping.now) (M.Memory.meaning below.old) }
    ensures coherent { M.Memory.coherent below.new }
    ensures reached { Reached M.Memory.step below.old below.new }
    ensures ready { Ready (P.Mapping.meaning mapping.now) (M.Memory.meaning below.new) tlb.new }
{
    let table = Table::of(mapping);
    let mut page = 0;
    let mut is_marked = false;
    for spot in spots {
        if is_marked && spot.page == page {
            continue;
        }
        mark(below, tlb, table, spot.page, access);
        page = spot.page;
        is_marked = is_held_marked(tlb, page, access);
    }
}

// Writes the bytes of a run where its parts stand, with a loop for whole grains of each usual size, as `gather` has.
#[inline(always)]
pub(crate) fn scatter<P: Mapping, M: Memory>(
    mapping: &P,
    below: &mut M,
    a: WindowAddress,
    bytes: &[u8],
    spots: &[Spot],
)
    requires armed { P.Mapping.armed mapping.now }
    requires coherent { M.Memory.coherent below.old }
    requires table { GoodTable (table_of (P.Mapping.meaning mapping.now)) (M.Memory.meaning below.old) }
    requires inside { a.0 + length bytes.now ≤ (P.Mapping.meaning mapping.now).image_size }
    requires accepted { first_fault (viewed (P.Mapping.meaning mapping.now) (M.Memory.meaning below.old)) a.0 (length bytes.now) ≡ Ok tt }
    requires spots { Spotted (P.Mapping.meaning mapping.now) (M.Memory.meaning below.old) a.0 (length bytes.now) spots.now }
    ensures all { ScatteredAll (P.Mapping.meaning mapping.now) (M.Memory.meaning below.old) a.0 bytes.now (M.Memory.meaning below.new) }
    ensures coherent { M.Memory.coherent below.new }
    ensures reached { Reached M.Memory.step below.old below.new }
{
    let grain = mapping.grain();
    let whole = is_whole(grain, a.0, bytes.len());
    match (grain, whole) {
        (4, true) => scatter_by(mapping, below, a, bytes, spots, 4, true),
        (8, true) => scatter_by(mapping, below, a, bytes, spots, 8, true),
        (16, true) => scatter_by(mapping, below, a, bytes, spots, 16, true),
        (32, true) => scatter_by(mapping, below, a, bytes, spots, 32, true),
        _ => scatter_by(mapping, below, a, bytes, spots, grain, false),
    }
}

// The same, told the grain and whether the run is whole grains. The mapping is there for the contract.
#[inline(always)]
fn scatter_by<P: Mapping, M: Memory>(
    mapping: &P,
    below: &mut M,
    a: WindowAddress,
    bytes: &[u8],
    spots: &[Spot],
    grain: u64,
    whole: bool,
)
    requires grain { grain ≡ (P.Mapping.meaning mapping.now).grain }
    requires whole { Whole whole grain a.0 (length bytes.now) }
    requires armed { P.Mapping.armed mapping.now }
    requires coherent { M.Memory.coherent below.old }
    requires table { GoodTable (table_of (P.Mapping.meaning mapping.now)) (M.Memory.meaning below.old) }
    requires inside { a.0 + length bytes.now ≤ (P.Mapping.meaning mapping.now).image_size }
    requires accepted { first_fault (viewed (P.Mapping.meaning mapping.now) (M.Memory.meaning below.old)) a.0 (length bytes.now) ≡ Ok tt }
    requires spots { Spotted (P.Mapping.meaning mapping.now) (M.Memory.meaning below.old) a.0 (length bytes.now) spots.now }
    ensures all { ScatteredAll (P.Mapping.meaning mapping.now) (M.Memory.meaning below.old) a.0 bytes.now (M.Memory.meaning below.new) }
    ensures coherent { M.Memory.coherent below.new }
    ensures reached { Reached M.Memory.step below.old below.new }
{
    let mut done = 0;
    for spot in spots {
        let step = step_size(a.0 + done as u64, grain, bytes.len() - done, whole);
        write_part(below, spot.address, bytes, done, step);
        done += step;
    }
}

// Writes the step bytes of a run from `done` on, where the memory below is known to take them.
#[inline(always)]
fn write_part<M: Memory>(below: &mut M, p: MemoryAddress, bytes: &[u8], done: usize, step: usize)
    requires coherent { M.Memory.coherent below.old }
    requires inside { done + step ≤ length bytes.now }
    ensures below { M.Memory.meaning below.new ≡ written (M.Memory.meaning below.old) p.0 (take step (drop done bytes.now)) }
    ensures coherent { M.Memory.coherent below.new }
    ensures step { M.Memory.step below.old (writing p.0 (take step (drop done bytes.now))) below.new }
{
    let _ = below.write(p.0, &bytes[done..done + step]);
}
