// Checked memory, and what a failing chip does to it.
#![tactic(auto)]

mod checked;
mod chip;

pub use checked::{CheckByte, Checked};
pub use chip::flip;
