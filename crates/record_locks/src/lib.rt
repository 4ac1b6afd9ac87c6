//! The locks of the sessions: on keys, to read or to change their rows, and on tables, to read all
//! their rows. A lock that conflicts with one of another session is refused and names that session.
#![tactic(auto)]

mod fault;
mod held;
mod locks;
mod place_set;
mod table_set;

pub use fault::LockFault;
pub use locks::Locks;
