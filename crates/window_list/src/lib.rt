// Lists of calls on a window, and what they leave in the memory below it.
#![tactic(auto)]

mod list;

pub use list::play_window;
