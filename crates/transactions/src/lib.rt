//! The transactions of the sessions: what each has locked and changed, until it commits or is
//! rolled back. Changes stand here alone until the log has them.
#![tactic(auto)]

mod fault;
mod place;
mod sessions;
mod transaction;

pub use fault::TxFault;
pub use place::ChangePlace;
pub use sessions::Transactions;
