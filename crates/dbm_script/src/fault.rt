//! What can be wrong with a line.
use thiserror::Error;

/// Why a line gives no command.
#[derive(Clone, Copy, Debug, PartialEq, Eq, Error)]
pub enum LineFault {
    #[error("the line is not in the language")]
    Syntax,
    #[error("out of memory")]
    Memory,
}
