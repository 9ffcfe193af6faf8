// Windows: dense images of what lies scattered in the memory below.
#![tactic(auto)]

mod report;
mod window;

pub use report::WindowReport;
pub use window::Window;
