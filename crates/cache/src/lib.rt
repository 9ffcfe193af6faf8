// A cache over any memory: lines that are held, with prefetching and counts.
#![tactic(auto)]

mod counts;
mod fetch;
mod layer;

pub use counts::CacheReport;
pub use layer::Cache;
