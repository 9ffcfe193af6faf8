// Windows and caches from their making to their closing, each stack in one call.
#![tactic(auto)]

mod over_cache;
mod refusal;
mod set_up;
mod under_cache;
mod window_run;

pub use over_cache::{CachedRun, run_window_over_cache};
pub use refusal::{RegisterWrite, SetUpRefusal};
pub use set_up::armed_set;
pub use under_cache::{CacheRun, run_cache_over_window};
pub use window_run::{WindowRun, run_window};
