//! The words that the program is called with: what they ask for.
#![tactic(auto)]

mod asked;
mod words;

pub use asked::{Asked, Measures};
pub use words::{WordsFault, read_words};
