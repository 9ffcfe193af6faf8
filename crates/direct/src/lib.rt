// The direct mapping.
#![tactic(auto)]

mod direct;

pub use direct::{Direct, DirectRegisters};
