//! What the crates of tables, transactions and restarts stand on: keepers of rows, of undo files
//! and of a log.
ghost use Rattle.std.specs.Prelude.{◌≡◌, ℕ, ◌+◌, ◌≤◌, true, length, IsTrue, IfOk, IfErr, OnOk, is_some, option_map};
ghost use Rattle.std.specs.FinMap.{get, insert, remove};
ghost use Rattle.mdb_model.specs.declared.change.Change.TheVariants.{Put, Del};
ghost use Rattle.mdb_model.specs.Script.{is_table, is_key, is_session};
ghost use Rattle.mdb_model.specs.Space.{table_pages, table_cost};
ghost use Rattle.mdb_bytes.specs.Groups.{change_fits};
ghost use Rattle.mdb_bytes.specs.Held.{
  Holding,
  IsFoundRow,
  next_row,
  IsNextRow,
  before_fits,
  before_of,
  with_before_image,
  without_file,
  IsLastTaken,
  IsNextGroup,
  HasPageCause,
  HasRoomCause,
};

use crate::group_buf::GroupBuf;
use mdb_model::bytes::{KeyBuf, ValueBuf};
use mdb_model::fault::PageFault;
use mdb_model::name::{Session, Table};

/// A keeper of rows, of undo files or of a log. It has no calls; the traits below say what a call
/// does to what is held.
pub trait Held {
    /// Whether what is held is known: over pages, whether their bytes are known and keep the rules
    /// on the form of pages, of trees and of undo files.
    ghost is_known: { Self → Type 0 };

    /// What is held.
    ghost held: { Self → Holding };

    /// How many more pages can be written without a savepoint.
    ghost spare: { Self → ℕ };

    /// How often a call on a device has failed.
    ghost faults: { Self → ℕ };

    /// Whether a call that only reads may call a device.
    ghost reads_devices: { Self → Type 0 };

    /// The second value comes from the first by calls: it holds the same borrows.
    ghost follows: { Self → Self → Type 0 };

    ghost follows_itself: { (a : Self) → follows a a };

    ghost follows_on: { (a b c : Self) → follows a b → follows b c → follows a c };
}

/// The rows of all tables. What else is held stays as it is in each call.
pub trait Rows: Held {
    /// The value of a row; false where there is no such row.
    fn get(&mut self, table: Table, key: &[u8], into: &mut ValueBuf) -> Result<bool, PageFault>
        requires table { IsTrue (is_table table.0) }
        requires key { IsTrue (is_key key.now) }
        ensures found { Self.is_known self.old
            → IfOk result (λ found. IsFoundRow found
            (get (Self.held self.old).rows (table.0, key.now)) into.new.items) }
        ensures same { Self.is_known self.old
            → OnOk result (Self.is_known self.new × (Self.held self.new ≡ Self.held self.old)) }
        ensures spare { Self.spare self.old ≤ Self.spare self.new }
        ensures cause { HasPageCause (Self.is_known self.old) (Self.faults self.old)
            (Self.faults self.new) result }
        ensures quiet { IfErr result (λ fault. fault ≡ PageFault.Failed
            → Self.reads_devices self.old) }
        ensures follows { Self.follows self.old self.new };

    /// Sets the value of a row.
    fn put(&mut self, table: Table, key: &[u8], value: &[u8]) -> Result<(), PageFault>
        requires fits { IsTrue (change_fits (Put table key.now value.now)) }
        requires room { 40 ≤ Self.spare self.old }
        ensures set { Self.is_known self.old → OnOk result (Self.is_known self.new
            × (Self.held self.new ≡ record (Self.held self.old)
            { rows = insert (Self.held self.old).rows (table.0, key.now) value.now })) }
        ensures spare { Self.spare self.old ≤ Self.spare self.new + 40 }
        ensures cause { HasPageCause (Self.is_known self.old) (Self.faults self.old)
            (Self.faults self.new) result }
        ensures follows { Self.follows self.old self.new };

    /// Takes a row away; false where there is no such row.
    fn del(&mut self, table: Table, key: &[u8]) -> Result<bool, PageFault>
        requires fits { IsTrue (change_fits (Del table key.now)) }
        requires room { 40 ≤ Self.spare self.old }
        ensures found { Self.is_known self.old
            → IfOk result (λ found. found
            ≡ is_some (get (Self.held self.old).rows (table.0, key.now))) }
        ensures gone { Self.is_known self.old → OnOk result (Self.is_known self.new
            × (Self.held self.new ≡ record (Self.held self.old)
            { rows = remove (Self.held self.old).rows (table.0, key.now) })) }
        ensures spare { Self.spare self.old ≤ Self.spare self.new + 40 }
        ensures cause { HasPageCause (Self.is_known self.old) (Self.faults self.old)
            (Self.faults self.new) result }
        ensures follows { Self.follows self.old self.new };

    /// The first row of a table whose key comes after `after`, which is empty at the start of a
    /// scan; false where there is no later row.
    fn scan_next(
        &mut self,
        table: Table,
        after: &KeyBuf,
        key: &mut KeyBuf,
        value: &mut ValueBuf,
    ) -> Result<bool, PageFault>
        requires { IsTrue (is_table table.0) }
        ensures found { Self.is_known self.old
            → IfOk result (λ found. IsNextRow found
            (next_row (Self.held self.old).rows table.0 after.now.items) key.new.items
            value.new.items) }
        ensures same { Self.is_known self.old
            → OnOk result (Self.is_known self.new × (Self.held self.new ≡ Self.held self.old)) }
        ensures spare { Self.spare self.old ≤ Self.spare self.new }
        ensures cause { HasPageCause (Self.is_known self.old) (Self.faults self.old)
            (Self.faults self.new) result }
        ensures quiet { IfErr result (λ fault. fault ≡ PageFault.Failed
            → Self.reads_devices self.old) }
        ensures follows { Self.follows self.old self.new };

    /// How many pages a table has. They are no more than the space rule counts for its rows.
    fn pages(&mut self, table: Table) -> Result<u32, PageFault>
        requires { IsTrue (is_table table.0) }
        ensures count { Self.is_known self.old
            → IfOk result (λ count. count
            ≤ table_pages (table_cost (Self.held self.old).rows (Self.held self.old).rows
            table.0)) }
        ensures same { Self.is_known self.old
            → OnOk result (Self.is_known self.new × (Self.held self.new ≡ Self.held self.old)) }
        ensures spare { Self.spare self.old ≤ Self.spare self.new }
        ensures cause { HasPageCause (Self.is_known self.old) (Self.faults self.old)
            (Self.faults self.new) result }
        ensures quiet { IfErr result (λ fault. fault ≡ PageFault.Failed
            → Self.reads_devices self.old) }
        ensures follows { Self.follows self.old self.new };
}

/// A row as it was before a transaction changed it: its value, or none where there was no row.
#[derive(Drop)]
pub struct UndoEntry {
    pub table: Table,
    pub key: KeyBuf,
    pub before: Option<ValueBuf>,
}

/// The undo files of all sessions: for each, the rows as they were before its changes, the earliest
/// first. What else is held stays as it is in each call. The contract does not say how files stand
/// on pages, nor what is left of the files and the rows where a call fails.
pub trait UndoFile: Held {
    /// Adds the value that a row had, or that there was no row, at the end of a session's file.
    /// The file may have the row already.
    fn note(
        &mut self,
        session: Session,
        table: Table,
        key: &[u8],
        before: Option<&[u8]>,
    ) -> Result<(), PageFault>
        requires session { IsTrue (is_session session.0) }
        requires fits { IsTrue (before_fits
            (record {
              place = (table.0, key.now);
              value = option_map (λ value. value.now)
                  before;
            })) }
        requires room { 2 ≤ Self.spare self.old }
        ensures noted { Self.is_known self.old → OnOk result (Self.is_known self.new
            × (Self.held self.new ≡ record (Self.held self.old) {
              undo = with_before_image (Self.held self.old).undo session.0
                  (record {
                    place = (table.0, key.now);
                    value = option_map (λ value. value.now)
                        before.entry;
                  });
            })) }
        ensures spare { Self.spare self.old ≤ Self.spare self.new + 2 }
        ensures cause { HasPageCause (Self.is_known self.old) (Self.faults self.old)
            (Self.faults self.new) result }
        ensures follows { Self.follows self.old self.new };

    /// Takes the last entry from a session's file; false where the file is empty, and then `into`
    /// has anything. An entry that is taken can be given to `put` or `del`, whatever the pages
    /// have.
    fn take_last(&mut self, session: Session, into: &mut UndoEntry) -> Result<bool, PageFault>
        requires session { IsTrue (is_session session.0) }
        requires room { 2 ≤ Self.spare self.old }
        ensures taken { Self.is_known self.old
            → IfOk result (λ taken. IsLastTaken taken (Self.held self.old).undo
            (Self.held self.new).undo session.0 (before_of into.new)) }
        ensures fits { IfOk result (λ taken. taken ≡ true
            → IsTrue (before_fits (before_of into.new))) }
        ensures same { Self.is_known self.old
            → OnOk result (Self.is_known self.new
            × (Self.held self.new ≡ record (Self.held self.old)
            { undo = (Self.held self.new).undo })) }
        ensures spare { Self.spare self.old ≤ Self.spare self.new + 2 }
        ensures cause { HasPageCause (Self.is_known self.old) (Self.faults self.old)
            (Self.faults self.new) result }
        ensures follows { Self.follows self.old self.new };

    /// Empties a session's file. It may be empty already.
    fn drop_file(&mut self, session: Session) -> Result<(), PageFault>
        requires session { IsTrue (is_session session.0) }
        requires room { 1 ≤ Self.spare self.old }
        ensures dropped { Self.is_known self.old → OnOk result (Self.is_known self.new
            × (Self.held self.new ≡ record (Self.held self.old)
            { undo = without_file (Self.held self.old).undo session.0 })) }
        ensures spare { Self.spare self.old ≤ Self.spare self.new + 1 }
        ensures cause { HasPageCause (Self.is_known self.old) (Self.faults self.old)
            (Self.faults self.new) result }
        ensures follows { Self.follows self.old self.new };
}

/// Rows and undo files that can make room for themselves. The contract does not say how the calls
/// of rows and of undo files change what a savepoint leaves.
pub trait Work: Rows + UndoFile {
    /// How many spare pages there would be after a savepoint.
    ghost spare_after_savepoint: { Self → ℕ };

    /// Leaves 64 spare pages or more, by a savepoint where there are fewer. Where a savepoint
    /// leaves fewer, that is called damaged. What is left of the room where it fails is not said.
    fn room(&mut self) -> Result<(), PageFault>
        ensures room { OnOk result (64 ≤ Self.spare self.new) }
        ensures same { Self.is_known self.old
            → OnOk result (Self.is_known self.new × (Self.held self.new ≡ Self.held self.old)) }
        ensures cause { HasRoomCause (Self.is_known self.old) (Self.spare_after_savepoint self.old)
            (Self.faults self.old) (Self.faults self.new) result }
        ensures follows { Self.follows self.old self.new };
}

/// The log, from some group on. What else is held stays as it is.
pub trait LogRead: Held {
    /// How many bytes of the log may still be read. Whatever the devices hold, a log ends.
    ghost left: { Self → ℕ };

    /// Reads the group of the first commit that is left; false at the end of the log.
    fn next(&mut self, into: &mut GroupBuf) -> Result<bool, PageFault>
        ensures found { Self.is_known self.old
            → IfOk result (λ found. IsNextGroup found (Self.held self.old).log
            (Self.held self.new).log into.new) }
        ensures same { Self.is_known self.old
            → OnOk result (Self.is_known self.new
            × (Self.held self.new ≡ record (Self.held self.old)
            { log = (Self.held self.new).log })) }
        ensures shorter { IfOk result (λ found. found ≡ true
            → length into.new + Self.left self.new ≤ Self.left self.old) }
        ensures spare { Self.spare self.old ≤ Self.spare self.new }
        ensures cause { HasPageCause (Self.is_known self.old) (Self.faults self.old)
            (Self.faults self.new) result }
        ensures follows { Self.follows self.old self.new };

    /// No call makes the log longer.
    ghost reads_on: { (a b : Self) → Self.follows a b → left b ≤ left a };
}
