// A list of prices as text: decimal, in cents, one to a line.
#![tactic(auto)]

mod error;
mod list;

pub use error::InputError;
pub use list::{MAX_PRICES, parse};
