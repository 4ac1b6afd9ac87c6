//! An open database, with its rows on pages: what its lines do.
#![tactic(auto)]

mod command;
mod commit;
pub mod database;
mod group;
mod lines;
mod media;
mod opening;
mod rows;
mod sizes;
mod states;

pub use database::{Access, Database};
