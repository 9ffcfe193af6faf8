// What the tests share: a comparison that is an error where two values differ, and sets that are written and armed.
#![tactic(auto)]

mod armed;
mod comparison;

pub use armed::{armed_set, set_of};
pub use comparison::same;
