// Plain memory.
#![tactic(auto)]

mod plain;

pub use plain::{CellsAlone, Plain};
