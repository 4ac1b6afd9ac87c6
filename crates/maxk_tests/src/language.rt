// The language of scripts: the lines that are read, and the replies that are printed.
ghost use Rattle.std.specs.Prelude.{Some};

use crate::texts::{Part, text_of};
use arrayvec::ArrayVec;
use dbm_script::{
    LineBuf, medium_text, parse_line, print_end, print_medium, print_reply, print_row, reply_text,
    row_text,
};
use mdb_model::bytes::{FoundValue, KeyBuf, ValueBuf};
use mdb_model::fault::{Damage, Device, Failed, Rule};
use mdb_model::name::{Name, Session, Table};
use mdb_model::say::Say;
use mdb_model::script::{Command, MediumLine, MediumState, PageKind, Refusal, Reply};
use std::alloc::Global;
use std::test::Fail;

// What comes of a line.
#[derive(Clone, Copy, Debug, PartialEq, Eq)]
enum Seen {
    Skipped,
    Read,
    Refused,
}

fn sight_of(alloc: Global, line: &[u8]) -> Seen {
    match parse_line(alloc, line) {
        Ok(None) => Seen::Skipped,
        Ok(Some(_)) => Seen::Read,
        Err(_) => Seen::Refused,
    }
}

fn is_line_end(byte: &u8) -> bool {
    *byte == b'\n'
}

// Lines that are within the limits.
const READ: &[u8] = b"s 1 scan 1\n\
     s\t64  scan 500\t\n\
    s 001 commit\n\
    s 7 rollback\n\
    s 2 get 3 'k'\n\
    s 2 del 3 x'00'\n\
    s 2 put 3 'a b' ''\n\
    s 2 put 3 ' ' x''\n\
    db_admin\n\
    db_online \n\
    db_offline\n\
    db_state\n\
    kill\n\
    savepoint\n\
    task savepoint\n\
    task backup 1 DATA\n\
    task backup 99 PAGES\n\
    turn savepoint\n\
    turn backup\n\
    medium_put 5 2\n\
    medium_put 5 131072\n\
    medium_delete 99\n\
    medium_list\n\
    backup_start 1 LOG\n\
    backup_start 1 DATA\n\
    backup_start 1 PAGES\n\
    recover 1\n\
    recover 1 2 log\n\
    recover 1 until 0\n\
    recover 1 log until 00000000000000000009\n\
    recover 1 until 18446744073709551615\n\
    snapshot_create\n\
    snapshot_drop 8\n\
    snapshot_revert 1\n\
    info\n\
    check";

// Lines that are just outside of them.
const REFUSED: &[u8] = b"s\n\
    s 0 commit\n\
    s 65 commit\n\
    s 1 commit now\n\
    s 1commit\n\
    s 1 Commit\n\
    s -1 commit\n\
    s 1 scan 0\n\
    s 1 scan 501\n\
    s 1 get 1 ''\n\
    s 1 get 1 k\n\
    s 1 get 1 'k\n\
    s 1 get 1 'k'x\n\
    s 1 get 1 'k''k'\n\
    s 1 get 1 x'0'\n\
    s 1 get 1 x'0g'\n\
    s 1 get 1 X'00'\n\
    s 1 get 1 'k' 'v'\n\
    s 1 put 1 'k'\n\
    s 1 put 1 'k' 'v' 'w'\n\
    s 1 put 1 'k' '\x7f'\n\
    s 000000000000000000001 commit\n\
    s 18446744073709551617 commit\n\
    db_admin 1\n\
    DB_ADMIN\n\
    task\n\
    task backup 100 DATA\n\
    task backup 1 LOG\n\
    turn backup 1\n\
    medium_put 0 2\n\
    medium_put 1 1\n\
    medium_put 1 131073\n\
    backup_start 1 log\n\
    recover\n\
    recover log\n\
    recover 100\n\
    recover 1 until 2 log\n\
    recover 1 until\n\
    recover 1 until 18446744073709551616\n\
    recover 1 log 2\n\
    snapshot_drop 9\n\
    snapshot_revert 0";

// Lines that are skipped: an empty one, one of blanks, and a comment.
const SKIPPED: &[u8] = b"\n \t\n\t# s 1 commit";

// The longest key and one byte more, and the longest line and one byte more.
const LIMITS: [(Part, Seen); 4] = [
    ((b"s 1 get 1 x'", 512, b"'", 1), Seen::Read),
    ((b"s 1 get 1 x'", 514, b"'", 1), Seen::Refused),
    ((b"#", 8191, b"", 1), Seen::Skipped),
    ((b"#", 8192, b"", 1), Seen::Refused),
];

#[test]
fn lines_keep_their_limits(rt: HostRuntime) -> Result<(), Fail> {
    for (lines, want) in [
        (READ, Seen::Read),
        (REFUSED, Seen::Refused),
        (SKIPPED, Seen::Skipped),
    ] {
        for line in lines.split(is_line_end) {
            assert_eq!(rt; sight_of(rt.alloc(), line), want, "{line:?}");
        }
    }
    for (part, want) in LIMITS {
        let line = text_of(rt.alloc(), &[part])?;
        assert_eq!(rt; sight_of(rt.alloc(), line.as_slice()), want);
    }
    Ok(())
}

#[test]
fn reads_numbers(rt: HostRuntime) -> Result<(), Fail> {
    let line = parse_line(rt.alloc(), b" s 064\tscan 500 ")?;
    let Some(Command::ScanTable(session, table)) = line else {
        return Err("it is a scan".into());
    };
    assert_eq!(rt; session, Session(64));
    assert_eq!(rt; table, Table(500));
    Ok(())
}

#[test]
fn reads_media(rt: HostRuntime) -> Result<(), Fail> {
    let line = parse_line(rt.alloc(), b"recover 9 10 log until 18446744073709551615")?;
    let Some(Command::Recover { media, log, until }) = &line else {
        return Err("it is a recover".into());
    };
    assert_eq!(rt; media.as_slice(), [9, 10].as_slice());
    assert!(rt; *log);
    assert_eq!(rt; *until, Some(u64::MAX));
    Ok(())
}

#[test]
fn reads_bytes(rt: HostRuntime) -> Result<(), Fail> {
    let line = parse_line(rt.alloc(), b"s 1 put 1 'it is' x'09aFAf00'")?;
    let Some(Command::PutRow(_, _, key, value)) = line else {
        return Err("it is a put".into());
    };
    assert_eq!(rt; key.bytes(), b"it is".as_slice());
    assert_eq!(rt; value.bytes(), [9, 0xaf, 0xaf, 0].as_slice());
    Ok(())
}

// An output that keeps what was said, as long as there is room.
#[derive(Drop)]
struct Output {
    said: ArrayVec<u8, 256>,
    faults: u64,
}

impl Say for Output {
    ghost said = { λ output. Some output.said.items };

    ghost faults = { λ output. output.faults };

    ghost follows = { λ old now. Unit {0} };

    fn say(&mut self, text: &[u8]) -> Result<(), Failed> {
        let Ok(()) = self.said.try_extend_from_slice(text) else {
            self.faults = self.faults.saturating_add(1);
            return Err(Failed);
        };
        Ok(())
    }

    ghost follows_itself = { λ output. tt };

    ghost follows_on = { λ first second third old now. tt };
}

#[test]
fn says_replies(rt: HostRuntime) -> Result<(), Fail> {
    let mut output = Output {
        said: ArrayVec::new(),
        faults: 0,
    };
    let mut key = KeyBuf::new();
    key.push(b'k');
    let mut value = ValueBuf::new();
    value.push(0);
    value.push(0xfa);
    print_row(&key, &value, &mut output)?;
    print_medium(
        &MediumLine {
            medium: 9,
            pages: 131_072,
            holds: MediumState::SavedLog(
                Name {
                    birth: 7,
                    generation: 1,
                },
                5,
                u64::MAX,
            ),
        },
        &mut output,
    )?;
    print_reply(&Reply::ScanOpen, &mut output)?;
    print_end(&Reply::MediaOpen, 99, &mut output)?;
    let said = b"ROW 'k' x'00fa'\nMEDIUM 9 131072 LOG 7 1 5 18446744073709551615\nOK SCAN 0\n\
          OK MEDIA 99\n";
    assert_eq!(rt; output.said.as_slice(), said.as_slice());
    Ok(())
}

#[test]
fn writes_replies(rt: HostRuntime) -> Result<(), Fail> {
    let mut line = LineBuf::new();
    let name = Name {
        birth: 7,
        generation: 2,
    };
    let info = Reply::InfoIs {
        name,
        commit: 3,
        saved: 1,
        blocks: 6,
        need: 20,
    };
    reply_text(0, &info, &mut line);
    assert_eq!(rt; line.as_slice(), b"INFO 7 2 3 1 6 20\n".as_slice());
    let damage = Damage {
        device: Device::Medium(3),
        page: 17,
        rule: Rule::ConverterRoot,
    };
    reply_text(0, &Reply::Refused(Refusal::Damaged(damage)), &mut line);
    assert_eq!(rt;
        line.as_slice(),
        b"ERR 20 DAMAGED MEDIUM3 17 CONVROOT\n".as_slice()
    );
    let empty = FoundValue::new(FoundValue::room(rt.alloc())?);
    reply_text(0, &Reply::Found(empty), &mut line);
    assert_eq!(rt; line.as_slice(), b"VALUE ''\n".as_slice());
    row_text(&KeyBuf::new(), &ValueBuf::new(), &mut line);
    assert_eq!(rt; line.as_slice(), b"ROW '' ''\n".as_slice());
    let medium = MediumLine {
        medium: 1,
        pages: 2,
        holds: MediumState::Saved(PageKind::Incremental, name, 4),
    };
    medium_text(&medium, &mut line);
    assert_eq!(rt; line.as_slice(), b"MEDIUM 1 2 PAGES 7 2 4\n".as_slice());
    Ok(())
}
