//! The forms of lines, each read from after its first word.
ghost use Rattle.std.specs.Prelude.{◌≡◌, ◌≢◌, ℕ, List, [], ◌∷◌, IsTrue, MatchBool, MatchOption, MatchResult, codes};
ghost use Rattle.mdb_model.specs.declared.script.PageKind.{PageKind};
ghost use Rattle.mdb_model.specs.declared.script.BackupKind.{BackupKind};
ghost use Rattle.mdb_model.specs.declared.script.Command.{Command};
ghost use Rattle.mdb_model.specs.Script.{Word, Number, Bytes, SpellsPart, page_kind_part, backup_kind_part, parts_of, past_blanks, is_session, is_table, is_key, is_value};
ghost use Rattle.dbm_script.specs.declared.fault.LineFault.TheVariants.{Syntax, Memory};
ghost use Rattle.dbm_script.specs.Cutting.{first_text, rest_after, FitsLine};
ghost use Rattle.dbm_script.specs.Reading.{IsRest, IsLast, is_single};

use crate::byte_strings::{ByteString, kept_key, kept_value, key, value};
use crate::cutting::{cut, skip_blanks};
use crate::fault::LineFault;
use crate::numbers::{medium, number_within, session, table};
use mdb_model::name::{Session, Table};
use mdb_model::script::{BackupKind, Command, PageKind};
use std::alloc::Global;

/// The text is the word.
pub fn is_word(text: &[u8], word: &[u8]) -> bool
    ensures { MatchBool result (text.now ≡ word.now) (text.now ≢ word.now) }
{
    text == word
}

/// The line ends here.
pub fn end(rest: &[u8]) -> Result<(), LineFault>
    ensures { MatchResult result (λ _. past_blanks rest.now ≡ []) (λ e. (e ≡ Syntax)
        × (past_blanks rest.now ≢ [])) }
{
    if !skip_blanks(rest).is_empty() {
        return Err(LineFault::Syntax);
    }
    Ok(())
}

/// The command, where its line ends here.
pub fn last(rest: &[u8], command: Command) -> Result<Command, LineFault>
    requires { IsLast command }
    ensures { IsRest (parts_of command) rest.now result }
{
    end(rest)?;
    Ok(command)
}

// A table and a key, which end the line.
fn place(rest: &[u8]) -> Result<(Table, ByteString<'_>), LineFault>
    ensures { MatchResult result (λ r. IsTrue (is_table r.0.0) × IsTrue (is_key r.1)
        × FitsLine (Number r.0.0 ∷ Bytes r.1 ∷ []) rest.now)
        (λ e. (e ≡ Syntax) × ((t : ℕ) (k : List ℕ) → IsTrue (is_table t) → IsTrue (is_key k)
        → FitsLine (Number t ∷ Bytes k ∷ []) rest.now → ⊥)) }
{
    let (table, rest) = table(rest)?;
    let (key, rest) = key(rest)?;
    end(rest)?;
    Ok((table, key))
}

// A table, a key and a value, which end the line.
fn row(rest: &[u8]) -> Result<(Table, ByteString<'_>, ByteString<'_>), LineFault>
    ensures { MatchResult result (λ r. IsTrue (is_table r.0.0) × IsTrue (is_key r.1)
        × IsTrue (is_value r.2) × FitsLine (Number r.0.0 ∷ Bytes r.1 ∷ Bytes r.2
        ∷ []) rest.now)
        (λ e. (e ≡ Syntax) × ((t : ℕ) (k v : List ℕ) → IsTrue (is_table t) → IsTrue (is_key k)
        → IsTrue (is_value v) → FitsLine (Number t ∷ Bytes k ∷ Bytes v ∷ []) rest.now → ⊥)) }
{
    let (table, rest) = table(rest)?;
    let (key, rest) = key(rest)?;
    let (value, rest) = value(rest)?;
    end(rest)?;
    Ok((table, key, value))
}

fn get_row(alloc: Global, session: Session, rest: &[u8]) -> Result<Command, LineFault>
    requires { IsTrue (is_session session.0) }
    ensures { IsRest (Word (codes "s") ∷ Number session.0 ∷ Word (codes "get")
        ∷ []) rest.now result }
{
    let (table, key) = place(rest)?;
    let Ok(key) = kept_key(alloc, &key) else {
        return Err(LineFault::Memory);
    };
    Ok(Command::GetRow(session, table, key))
}

fn del_row(alloc: Global, session: Session, rest: &[u8]) -> Result<Command, LineFault>
    requires { IsTrue (is_session session.0) }
    ensures { IsRest (Word (codes "s") ∷ Number session.0 ∷ Word (codes "del")
        ∷ []) rest.now result }
{
    let (table, key) = place(rest)?;
    let Ok(key) = kept_key(alloc, &key) else {
        return Err(LineFault::Memory);
    };
    Ok(Command::DelRow(session, table, key))
}

fn put_row(alloc: Global, session: Session, rest: &[u8]) -> Result<Command, LineFault>
    requires { IsTrue (is_session session.0) }
    ensures { IsRest (Word (codes "s") ∷ Number session.0 ∷ Word (codes "put")
        ∷ []) rest.now result }
{
    let (table, key, value) = row(rest)?;
    let Ok(key) = kept_key(alloc, &key) else {
        return Err(LineFault::Memory);
    };
    let Ok(value) = kept_value(alloc, &value) else {
        return Err(LineFault::Memory);
    };
    Ok(Command::PutRow(session, table, key, value))
}

fn scan_table(session: Session, rest: &[u8]) -> Result<Command, LineFault>
    requires { IsTrue (is_session session.0) }
    ensures { IsRest (Word (codes "s") ∷ Number session.0 ∷ Word (codes "scan")
        ∷ []) rest.now result }
{
    let (table, rest) = table(rest)?;
    last(rest, Command::ScanTable(session, table))
}

// A line of a session, after the session.
fn session_verb(alloc: Global, session: Session, rest: &[u8]) -> Result<Command, LineFault>
    requires { IsTrue (is_session session.0) }
    ensures { IsRest (Word (codes "s") ∷ Number session.0 ∷ []) rest.now result }
{
    let (verb, rest) = cut(rest);
    if is_word(verb, b"get") {
        return get_row(alloc, session, rest);
    }
    if is_word(verb, b"put") {
        return put_row(alloc, session, rest);
    }
    if is_word(verb, b"del") {
        return del_row(alloc, session, rest);
    }
    if is_word(verb, b"scan") {
        return scan_table(session, rest);
    }
    if is_word(verb, b"commit") {
        return last(rest, Command::CommitWork(session));
    }
    if is_word(verb, b"rollback") {
        return last(rest, Command::RollbackWork(session));
    }
    Err(LineFault::Syntax)
}

/// A line of a session.
pub fn session_line(alloc: Global, rest: &[u8]) -> Result<Command, LineFault>
    ensures { IsRest (Word (codes "s") ∷ []) rest.now result }
{
    let (session, rest) = session(rest)?;
    session_verb(alloc, session, rest)
}

// The kind of a backup of pages, and what follows it.
fn page_kind(rest: &[u8]) -> Result<(PageKind, &[u8]), LineFault>
    ensures { MatchResult result (λ r. SpellsPart (page_kind_part r.0) (first_text rest.now)
        × (r.1.now ≡ rest_after rest.now))
        (λ e. (e ≡ Syntax) × ((kind : PageKind)
        → SpellsPart (page_kind_part kind) (first_text rest.now)
        → ⊥)) }
{
    let (text, rest) = cut(rest);
    if is_word(text, b"DATA") {
        return Ok((PageKind::Complete, rest));
    }
    if is_word(text, b"PAGES") {
        return Ok((PageKind::Incremental, rest));
    }
    Err(LineFault::Syntax)
}

// The kind of a backup, and what follows it.
fn backup_kind(rest: &[u8]) -> Result<(BackupKind, &[u8]), LineFault>
    ensures { MatchResult result (λ r. SpellsPart (backup_kind_part r.0) (first_text rest.now)
        × (r.1.now ≡ rest_after rest.now))
        (λ e. (e ≡ Syntax) × ((kind : BackupKind)
        → SpellsPart (backup_kind_part kind) (first_text rest.now) → ⊥)) }
{
    let (text, after) = cut(rest);
    if is_word(text, b"LOG") {
        return Ok((BackupKind::OfLog, after));
    }
    let (kind, after) = page_kind(rest)?;
    Ok((BackupKind::OfPages(kind), after))
}

fn task_backup(rest: &[u8]) -> Result<Command, LineFault>
    ensures { IsRest (Word (codes "task") ∷ Word (codes "backup") ∷ []) rest.now result }
{
    let (medium, rest) = medium(rest)?;
    let (kind, rest) = page_kind(rest)?;
    last(rest, Command::TaskBackup(medium, kind))
}

/// A line that begins a task.
pub fn task_line(rest: &[u8]) -> Result<Command, LineFault>
    ensures { IsRest (Word (codes "task") ∷ []) rest.now result }
{
    let (name, rest) = cut(rest);
    if is_word(name, b"savepoint") {
        return last(rest, Command::TaskSavepoint);
    }
    if is_word(name, b"backup") {
        return task_backup(rest);
    }
    Err(LineFault::Syntax)
}

/// A line that goes on with a task.
pub fn turn_line(rest: &[u8]) -> Result<Command, LineFault>
    ensures { IsRest (Word (codes "turn") ∷ []) rest.now result }
{
    let (name, rest) = cut(rest);
    if is_word(name, b"savepoint") {
        return last(rest, Command::TurnSavepoint);
    }
    if is_word(name, b"backup") {
        return last(rest, Command::TurnBackup);
    }
    Err(LineFault::Syntax)
}

/// A line that makes a medium.
pub fn medium_put(rest: &[u8]) -> Result<Command, LineFault>
    ensures { IsRest (Word (codes "medium_put") ∷ []) rest.now result }
{
    let (medium, rest) = medium(rest)?;
    let (pages, rest) = number_within(rest, 2, 131_072)?;
    last(rest, Command::MediumPut(medium, pages as u32))
}

/// A line that removes a medium.
pub fn medium_delete(rest: &[u8]) -> Result<Command, LineFault>
    ensures { IsRest (Word (codes "medium_delete") ∷ []) rest.now result }
{
    let (medium, rest) = medium(rest)?;
    last(rest, Command::MediumDelete(medium))
}

/// A line that makes a backup.
pub fn backup_start(rest: &[u8]) -> Result<Command, LineFault>
    ensures { IsRest (Word (codes "backup_start") ∷ []) rest.now result }
{
    let (medium, rest) = medium(rest)?;
    let (kind, rest) = backup_kind(rest)?;
    last(rest, Command::BackupStart(medium, kind))
}

/// A line that gives up a snapshot.
pub fn snapshot_drop(rest: &[u8]) -> Result<Command, LineFault>
    ensures { IsRest (Word (codes "snapshot_drop") ∷ []) rest.now result }
{
    let (number, rest) = number_within(rest, 1, 8)?;
    last(rest, Command::SnapshotDrop(number as u8))
}

/// A line that goes back to a snapshot.
pub fn snapshot_revert(rest: &[u8]) -> Result<Command, LineFault>
    ensures { IsRest (Word (codes "snapshot_revert") ∷ []) rest.now result }
{
    let (number, rest) = number_within(rest, 1, 8)?;
    last(rest, Command::SnapshotRevert(number as u8))
}

/// The command that is a single word.
pub fn single(word: &[u8]) -> Option<Command>
    ensures { MatchOption result ((command : Command) → IsTrue (is_single command)
        → parts_of command ≢ Word word.now ∷ [])
        (λ command. IsLast command × (parts_of command ≡ Word word.now ∷ [])) }
{
    if is_word(word, b"db_admin") {
        return Some(Command::DbAdmin);
    }
    if is_word(word, b"db_online") {
        return Some(Command::DbOnline);
    }
    if is_word(word, b"db_offline") {
        return Some(Command::DbOffline);
    }
    if is_word(word, b"db_state") {
        return Some(Command::DbState);
    }
    if is_word(word, b"kill") {
        return Some(Command::Kill);
    }
    if is_word(word, b"savepoint") {
        return Some(Command::MakeSavepoint);
    }
    if is_word(word, b"medium_list") {
        return Some(Command::MediumList);
    }
    if is_word(word, b"snapshot_create") {
        return Some(Command::SnapshotCreate);
    }
    if is_word(word, b"info") {
        return Some(Command::Info);
    }
    if is_word(word, b"check") {
        return Some(Command::CheckData);
    }
    None
}
