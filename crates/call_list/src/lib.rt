// Lists of calls on one memory, made one after another.
#![tactic(auto)]

mod list;
mod record;

pub use list::play;
pub use record::CallRecord;
