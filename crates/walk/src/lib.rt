// The walk from a window address to the memory below, by the TLB, and the marks of a page.
#![tactic(auto)]

mod lookup;
mod marks;
mod spot;

pub use marks::{is_held_marked, mark};
pub use spot::{Spot, walk};
