//! The run of a script, line by line.
ghost use Rattle.std.specs.Prelude.{◌≡◌, ℕ, ◌+◌, ◌-◌, ◌^◌, ◌≤◌, ◌<◌, List, Bool, length, max, IfOk, IsTrue, Some, false};
ghost use Rattle.mdb_model.specs.Answers.{refused};
ghost use Rattle.mdb_model.specs.Causes.{Rose, HasCause};
ghost use Rattle.mdb_model.specs.declared.script.Command.{Command};
ghost use Rattle.mdb_model.specs.Runs.{Line};
ghost use Rattle.mdb_model.specs.Script.{is_in_range};
ghost use Rattle.mdb_model.specs.Worlds.{World};
ghost use Rattle.mdb_host.specs.Disk.{Disk, Keeps};
ghost use Rattle.db_kernel.specs.Kept.{IsSoundKernel, FitsWorlds, greatest_in};
ghost use Rattle.open_database.specs.Stretch.{LeavesOnly, Completes};
ghost use Rattle.script_run.specs.Calls.{EndsRun, RunPromise};
ghost use Rattle.script_run.specs.Progress.{DoesLine, HandlesLine, IsLineText, is_end as no_line, weight_in};
ghost use Rattle.open_database.specs.Outside.{page_reading, StandsFor};

use crate::saying::{say_reply, say_scan};
use db_kernel::kernel::Kernel;
use dbm_script::{LineBuf, LineFault, parse_line};
use mdb_host::{Failed, Host, Source};
use mdb_model::limits::MOST_LINES;
use mdb_model::script::{Command, Refusal, Reply};
use mdb_model::status::Status;
use script_lines::{LineKind, LineReader};
use std::alloc::Global;

// Says all that answers a command.
fn answer_command<H: Host>(
    kernel: &mut Kernel,
    host: &mut H,
    text: &mut LineBuf,
    command: &Command,
) -> Result<(), Failed>
    requires range { IsTrue (is_in_range command.now) }
    requires sound { IsSoundKernel H.tells kernel.old.database (H.disk host.old) }
    requires low { greatest_in kernel.old.database ≤ 2 ^ 62 - 2 ^ 41 }
    ensures sound { IsSoundKernel H.tells kernel.new.database (H.disk host.new) }
    ensures numbers { greatest_in kernel.new.database
        ≤ max (2 ^ 61) (greatest_in kernel.old.database) + 2 ^ 35 }
    ensures keeps { H.tells → Keeps (H.disk host.old) (H.disk host.new) }
    ensures does { H.tells → (ws : List World)
        → FitsWorlds kernel.old.database (H.disk host.old) ws
        → LeavesOnly page_reading StandsFor (H.disk host.old) ws
        → DoesLine (H.disk host.old) (H.disk host.new) (H.faults host.old) (H.faults host.new) ws
        (Some command.now) kernel.new.database result }
    ensures later { H.faults host.old ≤ H.faults host.new }
    ensures say_cause { HasCause (H.say_faults host.old) (H.say_faults host.new) result }
{
    let reply = kernel.command(host, command);
    match command {
        Command::ScanTable(session, table) => match &reply {
            Reply::ScanOpen => say_scan(kernel, host, text, *session, *table),
            _ => say_reply(host, text, &reply),
        },
        _ => say_reply(host, text, &reply),
    }
}

// Says the reply to a line that the kernel does not take.
fn refuse<H: Host>(
    kernel: &Kernel,
    host: &mut H,
    text: &mut LineBuf,
    refusal: Refusal,
) -> Result<(), Failed>
    requires sound { IsSoundKernel H.tells kernel.now.database (H.disk host.old) }
    requires cause { refusal ≡ Refusal.DeviceFailed → ⊥ }
    requires end { refusal ≡ Refusal.NumberEnd → ⊥ }
    ensures sound { IsSoundKernel H.tells kernel.now.database (H.disk host.new) }
    ensures keeps { H.tells → Keeps (H.disk host.old) (H.disk host.new) }
    ensures does { H.tells → (ws : List World) (line : Line)
        → Completes page_reading StandsFor (H.disk host.old) (H.disk host.old) ws line
        (refused refusal) (FitsWorlds kernel.now.database (H.disk host.old))
        → DoesLine (H.disk host.old) (H.disk host.new) (H.faults host.old) (H.faults host.new) ws
        line kernel.now.database result }
    ensures faults { H.faults host.new ≡ H.faults host.old }
    ensures say_cause { HasCause (H.say_faults host.old) (H.say_faults host.new) result }
{
    say_reply(host, text, &Reply::Refused(refusal))
}

// Takes a line and says what answers it; false where it is skipped.
fn take_line<H: Host>(
    alloc: Global,
    kernel: &mut Kernel,
    host: &mut H,
    text: &mut LineBuf,
    line: &[u8],
) -> Result<bool, Failed>
    requires sound { IsSoundKernel H.tells kernel.old.database (H.disk host.old) }
    requires low { greatest_in kernel.old.database ≤ 2 ^ 62 - 2 ^ 41 }
    ensures sound { IsSoundKernel H.tells kernel.new.database (H.disk host.new) }
    ensures numbers { greatest_in kernel.new.database
        ≤ max (2 ^ 61) (greatest_in kernel.old.database) + 2 ^ 35 }
    ensures keeps { H.tells → Keeps (H.disk host.old) (H.disk host.new) }
    ensures still { IfOk result (λ answered. answered ≡ false
        → (host.new ≡ host.old) × (kernel.new ≡ kernel.old)) }
    ensures turned { H.tells → (ws : List World)
        → FitsWorlds kernel.old.database (H.disk host.old) ws
        → LeavesOnly page_reading StandsFor (H.disk host.old) ws
        → HandlesLine (H.disk host.old) (H.disk host.new) (H.faults host.old) (H.faults host.new) ws
        (λ text. text ≡ line.now) kernel.new.database result }
    ensures later { H.faults host.old ≤ H.faults host.new }
    ensures say_cause { HasCause (H.say_faults host.old) (H.say_faults host.new) result }
{
    match parse_line(alloc, line) {
        Ok(None) => return Ok(false),
        Ok(Some(command)) => answer_command(kernel, host, text, &command)?,
        Err(LineFault::Syntax) => refuse(kernel, host, text, Refusal::Syntax)?,
        Err(LineFault::Memory) => refuse(kernel, host, text, Refusal::MemoryWanting)?,
    }
    Ok(true)
}

// Says the reply to a line that is too long.
fn refuse_line<H: Host>(kernel: &Kernel, host: &mut H, text: &mut LineBuf) -> Result<bool, Failed>
    requires sound { IsSoundKernel H.tells kernel.now.database (H.disk host.old) }
    ensures sound { IsSoundKernel H.tells kernel.now.database (H.disk host.new) }
    ensures keeps { H.tells → Keeps (H.disk host.old) (H.disk host.new) }
    ensures answered { IfOk result (λ answered. answered ≡ false → ⊥) }
    ensures turned { H.tells → (ws : List World)
        → FitsWorlds kernel.now.database (H.disk host.old) ws
        → LeavesOnly page_reading StandsFor (H.disk host.old) ws
        → HandlesLine (H.disk host.old) (H.disk host.new) (H.faults host.old) (H.faults host.new) ws
        (λ text. 8192 < length text) kernel.now.database result }
    ensures faults { H.faults host.new ≡ H.faults host.old }
    ensures say_cause { HasCause (H.say_faults host.old) (H.say_faults host.new) result }
{
    refuse(kernel, host, text, Refusal::Syntax)?;
    Ok(true)
}

// Answers a line that the reader found; false where it is skipped.
fn answer<H: Host>(
    alloc: Global,
    kernel: &mut Kernel,
    host: &mut H,
    text: &mut LineBuf,
    kind: LineKind,
    found: &[u8],
) -> Result<bool, Failed>
    requires sound { IsSoundKernel H.tells kernel.old.database (H.disk host.old) }
    requires low { greatest_in kernel.old.database ≤ 2 ^ 62 - 2 ^ 41 }
    ensures sound { IsSoundKernel H.tells kernel.new.database (H.disk host.new) }
    ensures numbers { greatest_in kernel.new.database
        ≤ max (2 ^ 61) (greatest_in kernel.old.database) + 2 ^ 35 }
    ensures keeps { H.tells → Keeps (H.disk host.old) (H.disk host.new) }
    ensures still { IfOk result (λ answered. answered ≡ false
        → (host.new ≡ host.old) × (kernel.new ≡ kernel.old)) }
    ensures turned { H.tells → (ws : List World)
        → FitsWorlds kernel.old.database (H.disk host.old) ws
        → LeavesOnly page_reading StandsFor (H.disk host.old) ws
        → HandlesLine (H.disk host.old) (H.disk host.new) (H.faults host.old) (H.faults host.new) ws
        (IsLineText kind found.now) kernel.new.database result }
    ensures later { H.faults host.old ≤ H.faults host.new }
    ensures say_cause { HasCause (H.say_faults host.old) (H.say_faults host.new) result }
{
    match kind {
        LineKind::Text => take_line(alloc, kernel, host, text, found),
        LineKind::TooLong(_) => refuse_line(kernel, host, text),
        LineKind::End => Ok(false),
    }
}

// Whether no line is left.
fn is_end(kind: LineKind) -> bool
    ensures { result ≡ no_line kind }
{
    match kind {
        LineKind::End => true,
        LineKind::Text | LineKind::TooLong(_) => false,
    }
}

// How many lines a line counts as. One that counts as more than a script may have ends the script,
// however long it is.
fn weight(kind: LineKind) -> u64
    ensures { result ≡ weight_in kind }
{
    match kind {
        LineKind::TooLong(lines) => lines.max(1).min(MOST_LINES + 1),
        LineKind::Text | LineKind::End => 1,
    }
}

/// Runs the script of a source on the database of a host, from a kernel that is off. Each reply is
/// said before the next line is read.
pub fn run_script<H: Host, S: Source>(alloc: Global, host: &mut H, source: &mut S) -> Status
    ensures keeps { H.tells → Keeps (H.disk host.old) (H.disk host.new) }
    ensures promise { H.tells → RunPromise (H.disk host.old) (H.disk host.new) (H.faults host.old)
        (H.faults host.new) result (S.left source.old) (S.left source.new) }
    ensures ends { EndsRun result }
    ensures untouched { result ≡ Status.Memory → (host.new ≡ host.old) × (source.new ≡ source.old) }
    ensures script_cause { result ≡ Status.ScriptFault
        → Rose (S.faults source.old) (S.faults source.new) }
    ensures say_cause { result ≡ Status.SayFault
        → Rose (H.say_faults host.old) (H.say_faults host.new) }
{
    let Ok(mut reader) = LineReader::new(alloc) else {
        return Status::Memory;
    };
    let mut kernel = Kernel::new(alloc);
    // each reply is spelled here
    let mut text = LineBuf::new();
    let mut count = 0;
    while count <= MOST_LINES {
        let Ok(kind) = reader.advance(source) else {
            return Status::ScriptFault;
        };
        if is_end(kind) {
            return Status::Done;
        }
        count += weight(kind);
        if MOST_LINES < count {
            return Status::LinesEnd;
        }
        let Ok(_) = answer(alloc, &mut kernel, host, &mut text, kind, reader.text()) else {
            return Status::SayFault;
        };
    }
    Status::LinesEnd
}
