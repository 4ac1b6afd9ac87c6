//! Saying what answers a line: a reply by one call, and the rows of a scan one by one.
ghost use Rattle.std.specs.Prelude.{◌≡◌, ℕ, ◌-◌, ◌^◌, ◌≤◌, ◌<◌, ◌++◌, List, Option, IfOk, OnOk, IsTrue};
ghost use Rattle.mdb_model.specs.Answers.{plain, Row};
ghost use Rattle.mdb_model.specs.Causes.{HasCause};
ghost use Rattle.mdb_model.specs.Script.{is_session, is_table};
ghost use Rattle.mdb_model.specs.Steps.{rows_of};
ghost use Rattle.mdb_model.specs.Text.{line_of, item_words, reply_words, text_of};
ghost use Rattle.mdb_model.specs.Worlds.{World};
ghost use Rattle.mdb_host.specs.Disk.{Disk, Keeps};
ghost use Rattle.open_database.specs.declared.database.Database.{Database};
ghost use Rattle.db_kernel.specs.Kept.{IsSoundKernel, FitsWorlds, greatest_in, scanned_rows};
ghost use Rattle.open_database.specs.Outside.{page_reading, StandsFor};
ghost use Rattle.db_kernel.specs.Scanning.{FaultHasCause};
ghost use Rattle.open_database.specs.Stretch.{LeavesOnly};
ghost use Rattle.script_run.specs.Speaking.{Speaks};
ghost use Rattle.script_run.specs.Scans.{IsOpenScan, SaysNext, SaysRows, SaysScan};

use db_kernel::kernel::Kernel;
use dbm_script::{LineBuf, reply_text, row_text};
use mdb_host::{Failed, Host};
use mdb_model::bytes::{KeyBuf, ValueBuf};
use mdb_model::name::{Session, Table};
use mdb_model::script::{Next, Reply};

// Says the reply after so many items, by one call.
fn say_end<H: Host>(
    host: &mut H,
    text: &mut LineBuf,
    items: u64,
    reply: &Reply,
) -> Result<(), Failed>
    ensures speaks { H.tells → Speaks (H.disk host.old) (H.disk host.new)
        (line_of (reply_words items reply.now)) }
    ensures said { OnOk result (H.tells → (H.disk host.new).said (H.disk host.new).now
        ≡ (H.disk host.old).said (H.disk host.old).now ++ line_of (reply_words items reply.now)) }
    ensures sound { (database : Option Database) → IsSoundKernel H.tells database (H.disk host.old)
        → IsSoundKernel H.tells database (H.disk host.new) }
    ensures faults { H.faults host.new ≡ H.faults host.old }
    ensures say_cause { HasCause (H.say_faults host.old) (H.say_faults host.new) result }
{
    reply_text(items, reply, text);
    host.say(text.as_slice())
}

/// Says a reply by one call. Its text is spelled in `text`, whatever stood there.
pub fn say_reply<H: Host>(host: &mut H, text: &mut LineBuf, reply: &Reply) -> Result<(), Failed>
    ensures speaks { H.tells → Speaks (H.disk host.old) (H.disk host.new)
        (text_of (plain reply.now)) }
    ensures said { OnOk result (H.tells → (H.disk host.new).said (H.disk host.new).now
        ≡ (H.disk host.old).said (H.disk host.old).now ++ text_of (plain reply.now)) }
    ensures sound { (database : Option Database) → IsSoundKernel H.tells database (H.disk host.old)
        → IsSoundKernel H.tells database (H.disk host.new) }
    ensures faults { H.faults host.new ≡ H.faults host.old }
    ensures say_cause { HasCause (H.say_faults host.old) (H.say_faults host.new) result }
{
    say_end(host, text, 0, reply)
}

// Says a row of a scan by one call.
fn say_row<H: Host>(
    host: &mut H,
    text: &mut LineBuf,
    key: &KeyBuf,
    value: &ValueBuf,
) -> Result<(), Failed>
    ensures speaks { H.tells → Speaks (H.disk host.old) (H.disk host.new)
        (line_of (item_words (Row key.now.items value.now.items))) }
    ensures said { OnOk result (H.tells → (H.disk host.new).said (H.disk host.new).now
        ≡ (H.disk host.old).said (H.disk host.old).now
        ++ line_of (item_words (Row key.now.items value.now.items))) }
    ensures sound { (database : Option Database) → IsSoundKernel H.tells database (H.disk host.old)
        → IsSoundKernel H.tells database (H.disk host.new) }
    ensures faults { H.faults host.new ≡ H.faults host.old }
    ensures say_cause { HasCause (H.say_faults host.old) (H.say_faults host.new) result }
{
    row_text(key, value, text);
    host.say(text.as_slice())
}

// Says the next row of a scan, and goes on to its key.
fn say_next<H: Host>(
    kernel: &mut Kernel,
    host: &mut H,
    text: &mut LineBuf,
    session: Session,
    table: Table,
    after: &mut KeyBuf,
) -> Result<Next, Failed>
    requires session { IsTrue (is_session session.0) }
    requires table { IsTrue (is_table table.0) }
    requires sound { IsSoundKernel H.tells kernel.old.database (H.disk host.old) }
    requires low { greatest_in kernel.old.database ≤ 2 ^ 62 - 2 ^ 40 }
    ensures sound { IsSoundKernel H.tells kernel.new.database (H.disk host.new) }
    ensures numbers { greatest_in kernel.new.database ≤ greatest_in kernel.old.database }
    ensures keeps { H.tells → Keeps (H.disk host.old) (H.disk host.new) }
    ensures says { H.tells → (ws : List World)
        → FitsWorlds kernel.old.database (H.disk host.old) ws
        → LeavesOnly page_reading StandsFor (H.disk host.old) ws
        → SaysNext (H.disk host.old) (H.disk host.new) ws kernel.old.database kernel.new.database
        session (scanned_rows kernel.old.database (H.disk host.old) session) table after.old.items after.new.items
        result }
    ensures later { H.faults host.old ≤ H.faults host.new }
    ensures cause { IfOk result (λ next. FaultHasCause (H.faults host.old) (H.faults host.new)
        kernel.new.database next) }
    ensures say_cause { HasCause (H.say_faults host.old) (H.say_faults host.new) result }
{
    let mut key = KeyBuf::new();
    let mut value = ValueBuf::new();
    match kernel.scan_next(host, session, table, after, &mut key, &mut value) {
        Next::Row => {
            say_row(host, text, &key, &value)?;
            *after = key;
            Ok(Next::Row)
        }
        Next::End => Ok(Next::End),
        Next::Fault(reply) => Ok(Next::Fault(reply)),
    }
}

// Says the rows of a scan that is open. It gives how many they are, and the reply that is to end
// them: that these are all, or why the next one could not be read.
fn say_rows<H: Host>(
    kernel: &mut Kernel,
    host: &mut H,
    text: &mut LineBuf,
    session: Session,
    table: Table,
) -> Result<(u64, Reply), Failed>
    requires session { IsTrue (is_session session.0) }
    requires table { IsTrue (is_table table.0) }
    requires sound { IsSoundKernel H.tells kernel.old.database (H.disk host.old) }
    requires low { greatest_in kernel.old.database ≤ 2 ^ 62 - 2 ^ 40 }
    ensures sound { IsSoundKernel H.tells kernel.new.database (H.disk host.new) }
    ensures numbers { greatest_in kernel.new.database ≤ greatest_in kernel.old.database }
    ensures keeps { H.tells → Keeps (H.disk host.old) (H.disk host.new) }
    ensures says { H.tells → (ws : List World)
        → IsOpenScan (H.disk host.old) ws kernel.old.database session table
        → SaysRows (H.disk host.old) (H.disk host.new) (H.faults host.old) (H.faults host.new) ws
        (rows_of (scanned_rows kernel.old.database (H.disk host.old) session) table.0) kernel.new.database result }
    ensures later { H.faults host.old ≤ H.faults host.new }
    ensures say_cause { HasCause (H.say_faults host.old) (H.say_faults host.new) result }
{
    let mut after = KeyBuf::new();
    let mut rows: u64 = 0;
    // Where the host tells what it holds there are fewer rows.
    while rows < u64::MAX {
        match say_next(kernel, host, text, session, table, &mut after)? {
            Next::Row => rows += 1,
            Next::End => return Ok((rows, Reply::ScanOpen)),
            Next::Fault(reply) => return Ok((rows, reply)),
        }
    }
    Ok((rows, Reply::ScanOpen))
}

/// Says the rows of a scan that is open, and the reply that counts them; or, where a row cannot be
/// read, the rows before it and why. Each text is spelled in `text`, whatever stood there.
pub fn say_scan<H: Host>(
    kernel: &mut Kernel,
    host: &mut H,
    text: &mut LineBuf,
    session: Session,
    table: Table,
) -> Result<(), Failed>
    requires session { IsTrue (is_session session.0) }
    requires table { IsTrue (is_table table.0) }
    requires sound { IsSoundKernel H.tells kernel.old.database (H.disk host.old) }
    requires low { greatest_in kernel.old.database ≤ 2 ^ 62 - 2 ^ 40 }
    ensures sound { IsSoundKernel H.tells kernel.new.database (H.disk host.new) }
    ensures numbers { greatest_in kernel.new.database ≤ greatest_in kernel.old.database }
    ensures keeps { H.tells → Keeps (H.disk host.old) (H.disk host.new) }
    ensures says { H.tells → (ws : List World)
        → IsOpenScan (H.disk host.old) ws kernel.old.database session table
        → SaysScan (H.disk host.old) (H.disk host.new) (H.faults host.old) (H.faults host.new) ws
        (rows_of (scanned_rows kernel.old.database (H.disk host.old) session) table.0) kernel.new.database result }
    ensures later { H.faults host.old ≤ H.faults host.new }
    ensures say_cause { HasCause (H.say_faults host.old) (H.say_faults host.new) result }
{
    let (rows, reply) = say_rows(kernel, host, text, session, table)?;
    say_end(host, text, rows, &reply)
}
