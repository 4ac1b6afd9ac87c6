//! A lock that keeps other programs out.
use std::fs::File;
use std::io;

/// An open file that this process can take for itself alone.
pub trait TryLock {
    /// Takes the lock, which lasts until the file and its clones are closed, or the process ends.
    /// Fails where another open of the file has it.
    fn try_lock(&self) -> io::Result<()>;
}

impl TryLock for File {
    fn try_lock(&self) -> io::Result<()> {
        File::try_lock(self)?;
        Ok(())
    }
}
