// One price in its record: four bytes, most significant first.
ghost use Rattle.std.specs.Prelude.{◌≡◌, [], ◌∷◌};
ghost use Rattle.units.specs.Word.{word_bytes};
ghost use Rattle.memory.specs.Calls.{write_answer, written};
ghost use Rattle.memory.specs.Reach.{writing, Linked, Reached, OnlyRead};
ghost use Rattle.memory.specs.Relation.{Kept};
ghost use Rattle.records.specs.Record.{price_address, record_of, price_read};

use memory::{Fault, Memory};
use units::{LINE, WORD};

// Where the price stands in its record.
const OFFSET: usize = 8;

// The record with this price, and zeros elsewhere.
#[tactic(auto, unfolding(crate::specs::Record::record_of))]
pub fn record_of(price: u32) -> [u8; 128]
    ensures { result ≡ record_of price }
{
    let mut record = [0; LINE as usize];
    record[OFFSET..OFFSET + WORD].copy_from_slice(&price.to_be_bytes());
    record
}

// Where the price of this record stands in the memory.
pub fn price_address(index: u32) -> u64
    ensures { result ≡ price_address index }
{
    u64::from(index) * LINE + OFFSET as u64
}

// That a read leaves the meaning each call says anew: a caller knows of a call only what its own contract says.
pub fn read_price<M: Memory>(memory: &mut M, index: u32) -> Result<u32, Fault>
    requires { M.coherent memory.old }
    ensures value { result ≡ price_read (M.meaning memory.old) index }
    ensures meaning { M.meaning memory.new ≡ M.meaning memory.old }
    ensures coherent { M.coherent memory.new }
    ensures reads { OnlyRead M.step memory.old memory.new }
{
    let mut bytes = [0; WORD];
    memory.read(price_address(index), &mut bytes)?;
    Ok(u32::from_be_bytes(bytes))
}

#[tactic(auto, using(memory::proofs::Reaches::linked_one, memory::proofs::Relations::written_kept))]
pub fn write_price<M: Memory>(memory: &mut M, index: u32, price: u32) -> Result<(), Fault>
    requires { M.coherent memory.old }
    ensures answer { result ≡ write_answer (M.meaning memory.old) (price_address index) 4 }
    ensures meaning { M.meaning memory.new ≡ written (M.meaning memory.old) (price_address index) (word_bytes price) }
    ensures kept { Kept (M.meaning memory.old) (M.meaning memory.new) }
    ensures coherent { M.coherent memory.new }
    ensures calls { Linked M.step memory.old (writing (price_address index) (word_bytes price) ∷ []) memory.new }
    ensures reached { Reached M.step memory.old memory.new }
{
    memory.write(price_address(index), &price.to_be_bytes())
}
