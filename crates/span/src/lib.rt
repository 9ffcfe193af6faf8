// Spans: any number of bytes through a window or a cache, run by run.
#![tactic(auto)]

mod cached;
mod one;
mod runs;
mod span;

pub use cached::{read_cached, write_cached};
pub use span::{Spanned, read_span, write_span};
