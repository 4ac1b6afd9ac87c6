//! The call of the program: making a database, or the run of a script, line by line.
#![tactic(auto)]

pub mod again;
pub mod call;
mod making;
pub mod run;
mod saying;
