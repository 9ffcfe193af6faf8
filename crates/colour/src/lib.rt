// The page colour mapping.
#![tactic(auto)]

mod colour;

pub use colour::{Colour, ColourRegisters};
