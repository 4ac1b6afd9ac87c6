//! The lines of a script: read in pieces from a source, and found one by one.
#![tactic(auto)]

mod lines;
mod window;

pub use lines::{LineKind, LineReader};
