// Runs of an image: gathered from the memory below, marked, and scattered to it.
#![tactic(auto)]

mod call;
mod gather;
mod scatter;

pub use call::{read_run, write_run};
