// The page table of a mapping: where it lies in the memory below, its entries, what it makes of an image, and the translations that
// are held.
#![tactic(auto)]

mod class;
mod entry;
mod table;
mod tlb;

pub use class::marks_unread;
pub use entry::Entry;
pub use table::{Table, read_entry};
pub use tlb::Tlb;
