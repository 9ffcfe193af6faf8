// Lists of calls on a cache, and what they hold and count.
#![tactic(auto)]

mod list;

pub use list::play_cache;
