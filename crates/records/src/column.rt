// The column of all prices: written as records, read back and added up.
ghost use Rattle.std.specs.Prelude.{◌≡◌, ◌*◌, ◌^◌, ◌<◌, IfOk};
ghost use Rattle.memory.specs.Reach.{Linked, Reached, OnlyRead};
ghost use Rattle.memory.specs.Relation.{Kept};
ghost use Rattle.records.specs.Column.{records_answer, records_written, record_writes, prices_read, total, readable};

use crate::price::{read_price, record_of};
use memory::{Fault, Memory};
use std::alloc::{AllocError, Global};
use units::LINE;

// A price as it was read, or the fault that the read was refused with.
pub type PriceAnswer = Result<u32, Fault>;

// Writes one record for each price, from address 0 on, up to the first that is refused.
pub fn write_records<M: Memory>(memory: &mut M, prices: &[u32]) -> Result<(), Fault>
    requires { M.coherent memory.old }
    ensures answer { result ≡ records_answer (M.meaning memory.old) 0 prices.now }
    ensures meaning { M.meaning memory.new ≡ records_written (M.meaning memory.old) prices.now }
    ensures kept { Kept (M.meaning memory.old) (M.meaning memory.new) }
    ensures coherent { M.coherent memory.new }
    ensures calls { Linked M.step memory.old (record_writes (M.meaning memory.old) 0 prices.now) memory.new }
    ensures reached { Reached M.step memory.old memory.new }
{
    for (index, price) in prices.iter().enumerate() {
        memory.write(record_address(index), &record_of(*price))?;
    }
    Ok(())
}

// Where the record of this index begins.
fn record_address(index: usize) -> u64
    requires { index * 128 < 2 ^ 64 }
    ensures { result ≡ index * 128 }
{
    index as u64 * LINE
}

// Reads the prices of the first `count` records.
#[tactic(auto, using(crate::proofs::Columns::prices_read_more, memory::proofs::Reaches::only_read_none, memory::proofs::Reaches::only_read_more), unfolding(crate::specs::Column::prices_read))]
pub fn read_prices<M: Memory>(
    heap: Global,
    memory: &mut M,
    count: u32,
) -> Result<Vec<PriceAnswer>, AllocError>
    requires { M.coherent memory.old }
    ensures made { IfOk result (λ v. v.items ≡ prices_read (M.meaning memory.old) count) }
    ensures meaning { M.meaning memory.new ≡ M.meaning memory.old }
    ensures coherent { M.coherent memory.new }
    ensures reads { OnlyRead M.step memory.old memory.new }
{
    let mut readings = Vec::new(heap);
    // A loop: tried as a chain, and no proof says what the memory means after a closure that borrows it.
    for index in 0..count {
        readings.push(read_price(memory, index))?;
    }
    Ok(readings)
}

// The total of the column, or the first refusal in it.
#[tactic(auto, unfolding(crate::specs::Column::total))]
pub fn total(readings: &[PriceAnswer]) -> Result<u128, Fault>
    ensures { result ≡ total readings.now }
{
    let mut sum = 0;
    for reading in readings {
        sum += u128::from((*reading)?);
    }
    Ok(sum)
}

// How many records brought a price. Each adds 0 or 1, which the compiler does for many at a time; what a filter lets pass it counts one
// by one.
#[tactic(auto, using(crate::proofs::Counts::counting))]
pub fn readable(readings: &[PriceAnswer]) -> usize
    ensures { result ≡ readable readings.now }
{
    let mut count = 0;
    for reading in readings {
        count += usize::from(reading.is_ok());
    }
    count
}
