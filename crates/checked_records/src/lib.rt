// Records over the bytes of a caller, who knows them afterwards.
#![tactic(auto)]

mod column;

pub use column::write_checked_records;
