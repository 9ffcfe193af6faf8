// Worked examples of runs, of mappings, of page table entries and of a cache.
#![tactic(auto)]

mod examples;

pub use examples::{RunAnswers, worked_examples};
