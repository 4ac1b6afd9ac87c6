//! The text of replies.
ghost use Rattle.std.specs.Prelude.{◌≡◌, ◌≤◌, ◌+◌, [], ◌∷◌, ◌++◌, length, codes};
ghost use Rattle.mdb_model.specs.declared.script.Refusal.TheVariants.{Damaged};
ghost use Rattle.mdb_model.specs.Answers.{Row, MediumRow};
ghost use Rattle.mdb_model.specs.Text.{device_word, item_words, line_of, refusal_words, reply_words, rule_word, shown};

use crate::writing::{LineBuf, finish, line, put, put_bytes, put_decimal, put_numbers};
use mdb_model::bytes::{KeyBuf, ValueBuf};
use mdb_model::fault::{Damage, Device, Rule};
use mdb_model::name::State;
use mdb_model::script::{MediumLine, MediumState, PageKind, Refusal, Reply};

// The word for a rule.
fn rule_text(rule: Rule) -> &'static [u8]
    ensures text { result.now ≡ rule_word rule }
    ensures short { length result.now ≤ 8 }
{
    match rule {
        Rule::Missing => b"MISSING",
        Rule::Size => b"SIZE",
        Rule::NoSlot => b"NOSLOT",
        Rule::ConverterRoot => b"CONVROOT",
        Rule::ConverterLeaf => b"CONVLEAF",
        Rule::Page => b"PAGE",
        Rule::Block => b"BLOCK",
        Rule::Tree => b"TREE",
        Rule::Undo => b"UNDO",
        Rule::Group => b"GROUP",
        Rule::Header => b"HEADER",
        Rule::Content => b"CONTENT",
        Rule::Room => b"ROOM",
    }
}

// The word for a device.
fn put_device(into: &mut LineBuf, device: Device)
    requires { length into.old.items ≤ 100 }
    ensures text { into.new.items ≡ into.old.items ++ device_word device }
    ensures len { length into.new.items ≤ length into.old.items + 26 }
{
    match device {
        Device::Data(number) => {
            put(into, b"DATA");
            put_decimal(into, u64::from(number));
        }
        Device::Log => put(into, b"LOG"),
        Device::Medium(number) => {
            put(into, b"MEDIUM");
            put_decimal(into, u64::from(number));
        }
    }
}

fn damage_text(damage: Damage, into: &mut LineBuf)
    ensures { into.new.items ≡ line_of (codes "ERR" ∷ refusal_words (Damaged damage)) }
{
    into.clear();
    put(into, b"ERR 20 DAMAGED ");
    put_device(into, damage.device);
    put_numbers(into, &[u64::from(damage.page)]);
    put(into, b" ");
    finish(into, rule_text(damage.rule), &[]);
}

fn refusal_text(refusal: &Refusal, into: &mut LineBuf)
    ensures { into.new.items ≡ line_of (codes "ERR" ∷ refusal_words refusal.now) }
{
    match refusal {
        Refusal::Syntax => line(into, b"ERR 1 SYNTAX", &[]),
        Refusal::WrongState(State::Offline) => line(into, b"ERR 2 STATE OFFLINE", &[]),
        Refusal::WrongState(State::Admin) => line(into, b"ERR 2 STATE ADMIN", &[]),
        Refusal::WrongState(State::Online) => line(into, b"ERR 2 STATE ONLINE", &[]),
        Refusal::Locked(session) => line(into, b"ERR 3 LOCKED", &[u64::from(session.0)]),
        Refusal::DataFull { want, blocks } => line(into, b"ERR 4 DATAFULL", &[*want, *blocks]),
        Refusal::LogFull { unsaved, size } => line(into, b"ERR 5 LOGFULL", &[*unsaved, *size]),
        Refusal::TransactionLarge(bytes) => line(into, b"ERR 6 TRANSLARGE", &[*bytes]),
        Refusal::NoMedium => line(into, b"ERR 7 NOMEDIUM", &[]),
        Refusal::MediumUsed => line(into, b"ERR 8 MEDIUMUSED", &[]),
        Refusal::MediumFull(pages) => line(into, b"ERR 9 MEDIUMFULL", &[*pages]),
        Refusal::MediumEmpty => line(into, b"ERR 10 MEDIUMEMPTY", &[]),
        Refusal::NeedData => line(into, b"ERR 11 NEEDDATA", &[]),
        Refusal::ChainGap(link) => line(into, b"ERR 12 CHAINGAP", &[*link]),
        Refusal::UntilOutside { lo, hi } => line(into, b"ERR 13 UNTIL", &[*lo, *hi]),
        Refusal::AreaSmall { have, want } => line(into, b"ERR 14 AREASMALL", &[*have, *want]),
        Refusal::NoSnapshot => line(into, b"ERR 15 NOSNAPSHOT", &[]),
        Refusal::SnapshotsFull => line(into, b"ERR 16 SNAPSHOTS", &[]),
        Refusal::TaskBusy => line(into, b"ERR 17 TASKBUSY", &[]),
        Refusal::NoTask => line(into, b"ERR 18 NOTASK", &[]),
        Refusal::RestoreOpen => line(into, b"ERR 19 RESTOREOPEN", &[]),
        Refusal::Damaged(damage) => damage_text(*damage, into),
        Refusal::NumberEnd => line(into, b"ERR 21 NUMBEREND", &[]),
        Refusal::DeviceFailed => line(into, b"ERR 22 DEVICE", &[]),
        Refusal::MemoryWanting => line(into, b"ERR 23 MEMORY", &[]),
    }
}

fn found_text(value: &[u8], into: &mut LineBuf)
    requires { length value.now ≤ 1500 }
    ensures { into.new.items ≡ line_of (codes "VALUE" ∷ shown value.now ∷ []) }
{
    into.clear();
    put(into, b"VALUE ");
    put_bytes(into, value);
    finish(into, b"", &[]);
}

/// The text of a reply, after so many items of a scan or a list of media. It replaces what
/// stood in `into`.
pub fn reply_text(items: u64, reply: &Reply, into: &mut LineBuf)
    ensures { into.new.items ≡ line_of (reply_words items reply.now) }
{
    match reply {
        Reply::Found(value) => found_text(value.bytes(), into),
        Reply::NoRow => line(into, b"NONE", &[]),
        Reply::PutDone => line(into, b"OK PUT", &[]),
        Reply::DelDone => line(into, b"OK DEL", &[]),
        Reply::ScanOpen => line(into, b"OK SCAN", &[items]),
        Reply::Committed(number) => line(into, b"COMMIT", &[*number]),
        Reply::NothingToCommit => line(into, b"OK EMPTY", &[]),
        Reply::RolledBack => line(into, b"OK ROLLBACK", &[]),
        Reply::AdminAt(number) => line(into, b"OK ADMIN", &[*number]),
        Reply::OnlineAt(number) => line(into, b"OK ONLINE", &[*number]),
        Reply::OfflineNow => line(into, b"OK OFFLINE", &[]),
        Reply::StateIs(State::Offline) => line(into, b"OK STATE OFFLINE", &[]),
        Reply::StateIs(State::Admin) => line(into, b"OK STATE ADMIN", &[]),
        Reply::StateIs(State::Online) => line(into, b"OK STATE ONLINE", &[]),
        Reply::SavepointDone => line(into, b"OK SAVEPOINT", &[]),
        Reply::TaskBegun => line(into, b"OK TASK", &[]),
        Reply::Running(left) => line(into, b"RUNNING", &[*left]),
        Reply::PagesSaved(PageKind::Complete, number) => line(into, b"OK BACKUP DATA", &[*number]),
        Reply::PagesSaved(PageKind::Incremental, number) => line(
            into,
            b"OK BACKUP PAGES",
            &[*number],
        ),
        Reply::LogSaved { first, last } => line(into, b"OK BACKUP LOG", &[*first, *last]),
        Reply::MediumMade => line(into, b"OK MEDIUM", &[]),
        Reply::MediumDeleted => line(into, b"OK DELETED", &[]),
        Reply::MediaOpen => line(into, b"OK MEDIA", &[items]),
        Reply::Recovered(number) => line(into, b"RECOVERED", &[*number]),
        Reply::SnapshotMade(snapshot, number) => line(
            into,
            b"SNAPSHOT",
            &[u64::from(*snapshot), *number],
        ),
        Reply::SnapshotDropped => line(into, b"OK DROPPED", &[]),
        Reply::Reverted(number) => line(into, b"REVERTED", &[*number]),
        Reply::InfoIs {
            name,
            commit,
            saved,
            blocks,
            need,
        } => line(
            into,
            b"INFO",
            &[name.birth, name.generation, *commit, *saved, *blocks, *need],
        ),
        Reply::Checked => line(into, b"OK CHECK", &[]),
        Reply::Refused(refusal) => refusal_text(refusal, into),
    }
}

/// The text of a row of a scan. It replaces what stood in `into`.
pub fn row_text(key: &KeyBuf, value: &ValueBuf, into: &mut LineBuf)
    ensures { into.new.items ≡ line_of (item_words (Row key.now.items value.now.items)) }
{
    into.clear();
    put(into, b"ROW ");
    put_bytes(into, key.as_slice());
    put(into, b" ");
    put_bytes(into, value.as_slice());
    finish(into, b"", &[]);
}

/// The text of a line of a list of media. It replaces what stood in `into`.
pub fn medium_text(medium: &MediumLine, into: &mut LineBuf)
    ensures { into.new.items ≡ line_of (item_words (MediumRow medium.now)) }
{
    into.clear();
    put(into, b"MEDIUM");
    put_numbers(into, &[u64::from(medium.medium), u64::from(medium.pages)]);
    match medium.holds {
        MediumState::Blank => finish(into, b" BLANK", &[]),
        MediumState::Busy => finish(into, b" BUSY", &[]),
        MediumState::Saved(PageKind::Complete, name, number) => {
            finish(into, b" DATA", &[name.birth, name.generation, number]);
        }
        MediumState::Saved(PageKind::Incremental, name, number) => {
            finish(into, b" PAGES", &[name.birth, name.generation, number]);
        }
        MediumState::SavedLog(name, first, last) => {
            finish(into, b" LOG", &[name.birth, name.generation, first, last]);
        }
    }
}
