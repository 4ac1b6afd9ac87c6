//! A store that was opened at a restart is a database in service for the world that its image
//! stands for.
#![tactic(auto)]

mod laws;

pub use laws::{a_standing_map_is_read, an_opened_store_can_save, an_opened_store_starts_service};
