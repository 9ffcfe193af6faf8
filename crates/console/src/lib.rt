// What is of any program: the list on its input, its arguments, and how it ends.
#![tactic(auto)]

mod program;

pub use program::{end, start};
