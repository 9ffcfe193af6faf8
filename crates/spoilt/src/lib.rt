// A memory with one cell that is always a fault.
#![tactic(auto)]

mod spoilt;

pub use spoilt::{OneFault, Spoilt};
