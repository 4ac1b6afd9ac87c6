//! Lines of a script, read into commands.
ghost use Rattle.std.specs.Prelude.{◌≡◌, []};
ghost use Rattle.mdb_model.specs.Script.{is_empty_or_comment, past_blanks};
ghost use Rattle.dbm_script.specs.Reading.{IsRest, IsParsed};

use crate::cutting::{cut, skip_blanks};
use crate::fault::LineFault;
use crate::forms::{
    backup_start, is_word, last, medium_delete, medium_put, session_line, single, snapshot_drop,
    snapshot_revert, task_line, turn_line,
};
use crate::recovering::recover;
use mdb_model::limits::LONGEST_LINE;
use mdb_model::script::Command;
use std::alloc::Global;
// There is nothing but blanks, or a comment.
fn is_blank_or_comment(line: &[u8]) -> bool
    ensures { result ≡ is_empty_or_comment (past_blanks line.now) }
{
    match skip_blanks(line).first() {
        Some(byte) => *byte == b'#',
        None => true,
    }
}

// The command that a line spells.
fn command(alloc: Global, line: &[u8]) -> Result<Command, LineFault>
    ensures { IsRest [] line.now result }
{
    let (first, rest) = cut(line);
    if let Some(command) = single(first) {
        return last(rest, command);
    }
    if is_word(first, b"s") {
        return session_line(alloc, rest);
    }
    if is_word(first, b"task") {
        return task_line(rest);
    }
    if is_word(first, b"turn") {
        return turn_line(rest);
    }
    if is_word(first, b"medium_put") {
        return medium_put(rest);
    }
    if is_word(first, b"medium_delete") {
        return medium_delete(rest);
    }
    if is_word(first, b"backup_start") {
        return backup_start(rest);
    }
    if is_word(first, b"recover") {
        return recover(rest);
    }
    if is_word(first, b"snapshot_drop") {
        return snapshot_drop(rest);
    }
    if is_word(first, b"snapshot_revert") {
        return snapshot_revert(rest);
    }
    Err(LineFault::Syntax)
}

/// The command that a line of a script spells, without the end of the line, or None where the line
/// is skipped. Memory is taken for byte strings alone.
pub fn parse_line(alloc: Global, line: &[u8]) -> Result<Option<Command>, LineFault>
    ensures { IsParsed line.now result }
{
    if line.len() > LONGEST_LINE {
        return Err(LineFault::Syntax);
    }
    if is_blank_or_comment(line) {
        return Ok(None);
    }
    let command = command(alloc, line)?;
    Ok(Some(command))
}
