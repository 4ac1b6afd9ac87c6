//! The space rule, kept up as sessions change rows: how many blocks a database needs. Each answer
//! is a sum of a few numbers, however many rows and sessions there are.
#![tactic(auto)]

mod costs;
mod open_change;
mod space;

pub use space::Space;
