// What every layer counts in: lines, pages, words of four bytes, powers of two.
#![tactic(auto)]

mod power;
mod size;

pub use power::is_power_of_two;
pub use size::{CHECKED_LINE, LINE, PAGE, WORD};
