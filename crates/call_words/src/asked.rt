//! What the words after the program's name ask for.
ghost use Rattle.standing.specs.Standing.{IsSite};

use arrayvec::ArrayVec;

/// What a database is made with, within the limits.
#[derive(Drop)]
pub struct Measures {
    /// What names the database.
    pub birth: u64,
    /// The pages of the log volume.
    pub log_pages: u32,
    /// The pages of each data volume.
    pub volumes: ArrayVec<u32, 8>,
    ghost site: { IsSite (record {
      birth = birth;
      volumes = volumes.items;
      log_pages =
          log_pages;
    }) },
}

/// What is to be done with the database of the folder.
#[derive(Drop)]
pub enum Asked {
    Create(Measures),
    Run,
}
