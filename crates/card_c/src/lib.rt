// The library for programs in other languages: each call takes plain numbers and bytes, builds its stack anew, and answers with plain
// numbers.
#![tactic(auto)]

mod answer;
mod check;
mod lent;
mod over;
mod read;
mod registers;
mod setup;
mod write;

pub use answer::{CardAnswer, CardCacheReport, CardFault, CardRefusal, CardWindowReport};
pub use check::card_check;
pub use read::card_read;
pub use setup::CardSetup;
pub use write::card_write;
