// Whether a window opens over a memory: the examination of a page table.
#![tactic(auto)]

mod examination;
mod reason;

pub use examination::check_opening;
pub use reason::{OpeningRefusal, Reason};
