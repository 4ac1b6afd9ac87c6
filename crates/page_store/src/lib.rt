//! Logical pages over blocks: a page keeps its number, and moves to a free block where its block is
//! kept for a savepoint.
#![tactic(auto)]

mod frames;
mod keeping;
mod laws;
mod opening;
mod owning;
mod pins;
mod record;
mod savepoints;
mod store;
mod view;

pub use laws::{can_save_stays, last_savepoint_stays, opened_can_save, pinned_pages_stay};
pub use pins::Pin;
pub use record::RecordInForce;
pub use store::{FrameState, PageStore};
pub use view::StoreView;
