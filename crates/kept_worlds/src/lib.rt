//! The worlds that images stand for are kept while a kernel works on rows on pages.
#![tactic(auto)]

mod laws;

pub use laws::{
    a_savepoint_keeps_service, an_append_keeps_service, calls_keep_service, commits_are_set,
};
