// Invoice records in a checked memory over the caller's own bytes, and what these hold afterwards.
ghost use Rattle.std.specs.Prelude.{◌≡◌};
ghost use Rattle.memory.specs.Reach.{after_calls, bytes_after};
ghost use Rattle.checked.specs.Checked.{checked_meaning, updated};
ghost use Rattle.records.specs.Column.{records_answer, records_written, record_writes};
ghost use Rattle.checked_records.specs.Rest.{RestKept};

use checked::Checked;
use memory::Fault;
use records::write_records;

// Writes one record for each price into a checked memory over the bytes, up to the first that is refused.
pub fn write_checked_records(bytes: &mut [u8], prices: &[u32]) -> Result<(), Fault>
    ensures answer { result ≡ records_answer (checked_meaning bytes.old) 0 prices.now }
    ensures cells { checked_meaning bytes.new ≡ records_written (checked_meaning bytes.old) prices.now }
    ensures bytes { bytes.new ≡ after_calls (bytes_after updated) bytes.old (record_writes (checked_meaning bytes.old) 0 prices.now) }
    ensures rest { RestKept bytes.old bytes.new }
{
    let mut memory = Checked::new(bytes);
    write_records(&mut memory, prices)
}
