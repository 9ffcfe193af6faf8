// The lines that a cache holds: 8 sets of 2.
#![tactic(auto)]

mod line;
mod sets;
mod ways;

pub use line::CacheLine;
pub use sets::CacheSets;
