// Gathering: the bytes of a run, part by part, and where each part stands.
ghost use Rattle.std.specs.Prelude.{◌≡◌, ◌+◌, ◌-◌, ◌*◌, ◌%◌, ◌<◌, ◌≤◌, min, cond, is_ok, length, map, take, Ok, IfOk, IfSome};
ghost use Rattle.std.specs.Result.{result_map_both};
ghost use Rattle.memory.specs.Calls.{first_fault, bytes, read_answer, delivered};
ghost use Rattle.memory.specs.Fault.{from_below};
ghost use Rattle.memory.specs.Reach.{OnlyRead};
ghost use Rattle.page_table.specs.Walk.{walked, viewed};
ghost use Rattle.page_table.specs.Ready.{Ready};
ghost use Rattle.walk.specs.Lookup.{looked_at, page_at};
ghost use Rattle.transfer.specs.Parts.{Part, Spotted};
ghost use Rattle.transfer.specs.Wholes.{Whole};
ghost use Rattle.transfer.specs.Follows.{Follows};
ghost use Rattle.transfer.specs.Lookups.{lookups_of};
ghost use Rattle.transfer.specs.Scatter.{LivePages};
ghost use Rattle.page_table.specs.Table.{table_of};

use mapping::{Mapping, MemoryAddress, PseudoVirtualAddress, WindowAddress};
use memory::{Fault, Memory, from_below};
use page_table::{Entry, Tlb};
use units::PAGE;
use walk::{Spot, walk};

// The most parts that a run has: a grain has 4 bytes at least, and a run lies in one line.
pub(crate) const PARTS: usize = 32;

// Reads a run into a line and notes where its parts stand, up to the first refusal. Answers how many parts it has. One loop for all
// would divide by the grain at each part, so whole grains of the usual sizes have a loop each, in which the size is a constant.
#[inline(always)]
pub(crate) fn gather<P: Mapping, M: Memory>(
    mapping: &P,
    below: &mut M,
    tlb: &mut Tlb,
    a: WindowAddress,
    line: &mut [u8],
    spots: &mut [Spot],
) -> Result<usize, Fault>
    requires armed { P.Mapping.armed mapping.now }
    requires coherent { M.Memory.coherent below.old }
    requires ready { Ready (P.Mapping.meaning mapping.now) (M.Memory.meaning below.old) tlb.old }
    requires line { a.0 % 128 + length line.old ≤ 128 }
    requires inside { a.0 + length line.old ≤ (P.Mapping.meaning mapping.now).image_size }
    requires room { length spots.old ≡ 32 }
    ensures answer { result_map_both (λ _. tt) (λ f. f) result ≡ first_fault (viewed (P.Mapping.meaning mapping.now) (M.Memory.meaning below.old)) a.0 (length line.old) }
    ensures line { IfOk result (λ _. line.new ≡ bytes (viewed (P.Mapping.meaning mapping.now) (M.Memory.meaning below.old)) a.0 (length line.old)) }
    ensures count { IfOk result (λ count. count ≤ 32) }
    ensures spots { IfOk result (λ count. Spotted (P.Mapping.meaning mapping.now) (M.Memory.meaning below.old) a.0 (length line.old) (take count spots.new)) }
    ensures live { IfOk result (λ count. LivePages (table_of (P.Mapping.meaning mapping.now)) (M.Memory.meaning below.old) (map (λ spot. spot.page) (take count spots.new))) }
    ensures tlb { tlb.new ≡ lookups_of (P.Mapping.meaning mapping.now) (M.Memory.meaning below.old) a.0 (length line.old) tlb.old }
    ensures meaning { M.Memory.meaning below.new ≡ M.Memory.meaning below.old }
    ensures coherent { M.Memory.coherent below.new }
    ensures reads { OnlyRead M.Memory.step below.old below.new }
    ensures ready { Ready (P.Mapping.meaning mapping.now) (M.Memory.meaning below.new) tlb.new }
{
    let grain = mapping.grain();
    let whole = is_whole(grain, a.0, line.len());
    match (grain, whole) {
        (4, true) => gather_by(mapping, below, tlb, a, line, spots, 4, true),
        (8, true) => gather_by(mapping, below, tlb, a, line, spots, 8, true),
        (16, true) => gather_by(mapping, below, tlb, a, line, spots, 16, true),
        (32, true) => gather_by(mapping, below, tlb, a, line, spots, 32, true),
        _ => gather_by(mapping, below, tlb, a, line, spots, grain, false),
    }
}

// Whether a run is whole grains of a size that has a loop of its own.
pub(crate) fn is_whole(grain: u64, a: u64, n: usize) -> bool
    ensures { Whole result grain a n }
{
    match grain {
        4 => a % 4 == 0 && n % 4 == 0,
        8 => a % 8 == 0 && n % 8 == 0,
        16 => a % 16 == 0 && n % 16 == 0,
        32 => a % 32 == 0 && n % 32 == 0,
        _ => false,
    }
}

// The same, told the grain and whether the run is whole grains.
#[inline(always)]
fn gather_by<P: Mapping, M: Memory>(
    mapping: &P,
    below: &mut M,
    tlb: &mut Tlb,
    a: WindowAddress,
    line: &mut [u8],
    spots: &mut [Spot],
    grain: u64,
    whole: bool,
) -> Result<usize, Fault>
    requires grain { grain ≡ (P.Mapping.meaning mapping.now).grain }
    requires whole { Whole whole grain a.0 (length line.old) }
    requires armed { P.Mapping.armed mapping.now }
    requires coherent { M.Memory.coherent below.old }
    requires ready { Ready (P.Mapping.meaning mapping.now) (M.Memory.meaning below.old) tlb.old }
    requires line { a.0 % 128 + length line.old ≤ 128 }
    requires inside { a.0 + length line.old ≤ (P.Mapping.meaning mapping.now).image_size }
    requires room { length spots.old ≡ 32 }
    ensures answer { result_map_both (λ _. tt) (λ f. f) result ≡ first_fault (viewed (P.Mapping.meaning mapping.now) (M.Memory.meaning below.old)) a.0 (length line.old) }
    ensures line { IfOk result (λ _. line.new ≡ bytes (viewed (P.Mapping.meaning mapping.now) (M.Memory.meaning below.old)) a.0 (length line.old)) }
    ensures count { IfOk result (λ count. count ≤ 32) }
    ensures spots { IfOk result (λ count. Spotted (P.Mapping.meaning mapping.now) (M.Memory.meaning below.old) a.0 (length line.old) (take count spots.new)) }
    ensures live { IfOk result (λ count. LivePages (table_of (P.Mapping.meaning mapping.now)) (M.Memory.meaning below.old) (map (λ spot. spot.page) (take count spots.new))) }
    ensures tlb { tlb.new ≡ lookups_of (P.Mapping.meaning mapping.now) (M.Memory.meaning below.old) a.0 (length line.old) tlb.old }
    ensures meaning { M.Memory.meaning below.new ≡ M.Memory.meaning below.old }
    ensures coherent { M.Memory.coherent below.new }
    ensures reads { OnlyRead M.Memory.step below.old below.new }
    ensures ready { Ready (P.Mapping.meaning mapping.now) (M.Memory.meaning below.new) tlb.new }
{
    let mut count = 0;
    let mut done = 0;
    while done < line.len() {
        let s = WindowAddress(a.0 + done as u64);
        let step = step_size(s.0, grain, line.len() - done, whole);
        let part = &mut line[done..done + step];
        let first = gather_part(mapping, below, tlb, s, part)?;
        spots[count] = first;
        count += 1;
        done += step;
        // The parts that follow in the same page go by its entry, as it is held, and are counted at once.
        let held = tlb.get(first.page);
        let mut hits = 0;
        while done < line.len() {
            let s = WindowAddress(a.0 + done as u64);
            let Some(next) = follow(mapping, s, first.page, held) else {
                break;
            };
            let step = step_size(s.0, grain, line.len() - done, whole);
            hits += 1;
            if let Err(fault) = read_below(below, next.address, &mut line[done..done + step]) {
                tlb.count_hits(hits);
                return Err(fault);
            }
            spots[count] = next;
            count += 1;
            done += step;
        }
        tlb.count_hits(hits);
    }
    Ok(count)
}

// Where a byte stands, if it lies in this page, and the entry of the page is held.
#[inline(always)]
fn follow<P: Mapping>(mapping: &P, s: WindowAddress, page: u32, held: Option<Entry>) -> Option<Spot>
    requires { P.Mapping.armed mapping.now }
    ensures { IfSome result (Follows (P.Mapping.meaning mapping.now) s.0 page held) }
{
    let entry = held?;
    let PseudoVirtualAddress(v) = mapping.place(s)?;
    if v / PAGE != u64::from(page) {
        return None;
    }
    let address = MemoryAddress(u64::from(entry.frame) * PAGE + v % PAGE);
    Some(Spot { page, address })
}

// How many of n bytes from s on lie in the grain of s, which are all of it in a run of whole grains.
#[tactic(auto, using(crate::proofs::Wholes::whole_step))]
#[inline(always)]
pub(crate) fn step_size(s: u64, grain: u64, n: usize, whole: bool) -> usize
    requires grain { (0 < grain) × (grain ≤ 128) }
    requires some { 0 < n }
    requires whole { Whole whole grain s n }
    ensures { result ≡ min (grain - s % grain) n }
{
    if whole {
        grain as usize
    } else {
        part_size(s, grain, n)
    }
}

// How many of n bytes from s on lie in the grain of s.
fn part_size(s: u64, grain: u64, n: usize) -> usize
    requires { (0 < grain) × (grain ≤ 128) }
    ensures { result ≡ min (grain - s % grain) n }
{
    ((grain - s % grain) as usize).min(n)
}

// Reads a part of one grain, and answers where it stands.
#[tactic(auto, using(crate::proofs::Grains::part_fails, crate::proofs::Grains::part_is, memory::proofs::Reaches::only_read_more))]
#[inline(always)]
fn gather_part<P: Mapping, M: Memory>(
    mapping: &P,
    below: &mut M,
    tlb: &mut Tlb,
    s: WindowAddress,
    buffer: &mut [u8],
) -> Result<Spot, Fault>
    requires armed { P.Mapping.armed mapping.now }
    requires coherent { M.Memory.coherent below.old }
    requires ready { Ready (P.Mapping.meaning mapping.now) (M.Memory.meaning below.old) tlb.old }
    requires part { Part (P.Mapping.meaning mapping.now) s.0 (length buffer.old) }
    ensures answer { result_map_both (λ _. tt) (λ f. f) result ≡ first_fault (viewed (P.Mapping.meaning mapping.now) (M.Memory.meaning below.old)) s.0 (length buffer.old) }
    ensures buffer { buffer.new ≡ cond (is_ok result) (bytes (viewed (P.Mapping.meaning mapping.now) (M.Memory.meaning below.old)) s.0 (length buffer.old)) buffer.old }
    ensures page { IfOk result (λ spot. spot.page ≡ page_at (P.Mapping.meaning mapping.now) s.0) }
    ensures place { IfOk result (λ spot. walked (P.Mapping.meaning mapping.now) (M.Memory.meaning below.old) s.0 ≡ Ok spot.address.0) }
    ensures tlb { tlb.new ≡ looked_at (P.Mapping.meaning mapping.now) (M.Memory.meaning below.old) tlb.old s.0 }
    ensures meaning { M.Memory.meaning below.new ≡ M.Memory.meaning below.old }
    ensures coherent { M.Memory.coherent below.new }
    ensures reads { OnlyRead M.Memory.step below.old below.new }
    ensures ready { Ready (P.Mapping.meaning mapping.now) (M.Memory.meaning below.new) tlb.new }
{
    let spot = walk(mapping, below, tlb, s)?;
    read_below(below, spot.address, buffer)?;
    Ok(spot)
}

// A read of the memory below, whose fault is passed up.
#[inline(always)]
fn read_below<M: Memory>(below: &mut M, p: MemoryAddress, buffer: &mut [u8]) -> Result<(), Fault>
    requires { M.Memory.coherent below.old }
    ensures answer { result ≡ from_below (read_answer (M.Memory.meaning below.old) p.0 (length buffer.old)) }
    ensures buffer { buffer.new ≡ delivered (M.Memory.meaning below.old) p.0 buffer.old }
    ensures meaning { M.Memory.meaning below.new ≡ M.Memory.meaning below.old }
    ensures coherent { M.Memory.coherent below.new }
    ensures reads { OnlyRead M.Memory.step below.old below.new }
{
    from_below(below.read(p.0, buffer))
}
