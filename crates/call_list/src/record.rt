// One call of a list.
use memory::{Access, Fault};

// What is asked, the buffer that the call brings, and the answer once the call was made. A read fills its buffer; a write leaves it.
#[derive(Drop)]
pub struct CallRecord {
    pub access: Access,
    pub address: u64,
    pub buffer: Vec<u8>,
    pub answer: Option<Result<(), Fault>>,
}
