// Scripts on new databases, whole and damaged ones: the lines, the states, the limits of the log,
// and a stop at each moment.
use crate::area::{Change, answered, answers, make_change, make_database, new_host};
use crate::texts::{Part, text_of};
use host_tests::{try_read, try_write};
use mdb_host::{Device, FileHost, Host, MemHost, MemSource};
use mdb_model::status::Status;
use script_run::run::run_script;
use std::alloc::Global;
use std::test::Fail;

// A script, and what it is answered on a new database with a log of four pages.
const ROWS: [(&'static [u8], &'static [u8]); 20] = [
    // The smallest restart, and what the database says of itself: two pages of its own, three of a
    // table with one row, and two blocks for the converter, twice.
    (
        b"db_online\ns 1 put 1 'k' 'v'\ns 1 commit\nkill\ndb_online\ns 1 get 1 'k'\ninfo\n",
        b"OK ONLINE 0\nOK PUT\nCOMMIT 1\nOK OFFLINE\nOK ONLINE 1\nVALUE 'v'\n\
          INFO 7 1 1 0 512 9\n",
    ),
    // A savepoint, a commit after it, and a restart from there.
    (
        b"savepoint\ndb_online\ns 1 put 1 'a' '1'\ns 1 commit\nsavepoint\ns 1 put 1 'b' '2'\n\
          s 1 commit\ns 1 del 1 'a'\nkill\ndb_admin\nsavepoint\ndb_online\ns 1 scan 1\n\
          db_offline\ninfo\ndb_online\ns 2 scan 1\n",
        b"ERR 2 STATE OFFLINE\nOK ONLINE 0\nOK PUT\nCOMMIT 1\nOK SAVEPOINT\nOK PUT\nCOMMIT 2\n\
          OK DEL\nOK OFFLINE\nOK ADMIN 2\nOK SAVEPOINT\nOK ONLINE 2\nROW 'a' '1'\nROW 'b' '2'\n\
          OK SCAN 2\nOK OFFLINE\nERR 2 STATE OFFLINE\nOK ONLINE 2\nROW 'a' '1'\nROW 'b' '2'\n\
          OK SCAN 2\n",
    ),
    // A change that is open in a savepoint is not there after a restart.
    (
        b"db_online\ns 1 put 1 'k' 'v'\nsavepoint\nkill\ndb_online\ns 1 get 1 'k'\n",
        b"OK ONLINE 0\nOK PUT\nOK SAVEPOINT\nOK OFFLINE\nOK ONLINE 0\nNONE\n",
    ),
    (
        b"db_online\ns 1 put 1 'k' 'v'\ns 1 commit\nkill\ndb_online\ns 1 get 1 'k'\n",
        b"OK ONLINE 0\nOK PUT\nCOMMIT 1\nOK OFFLINE\nOK ONLINE 1\nVALUE 'v'\n",
    ),
    (
        b"db_online\ns 1 put 1 'k' 'v'\ns 1 get 1 'k'\nkill\ndb_online\ns 1 get 1 'k'\n",
        b"OK ONLINE 0\nOK PUT\nVALUE 'v'\nOK OFFLINE\nOK ONLINE 0\nNONE\n",
    ),
    (
        b"s 1 get 1 'k'\ns 1 commit\nkill\ndb_online\ndb_online\ns 1 commit\n",
        b"ERR 2 STATE OFFLINE\nERR 2 STATE OFFLINE\nOK OFFLINE\nOK ONLINE 0\nERR 2 STATE ONLINE\n\
          OK EMPTY\n",
    ),
    (b"", b""),
    (b"# a comment\n\n   \nkill", b"OK OFFLINE\n"),
    (b"kill\r\n  kill  \r\n", b"OK OFFLINE\nOK OFFLINE\n"),
    (
        b"KILL\nkill kill\n\0\n\xFF\xFE\n",
        b"ERR 1 SYNTAX\nERR 1 SYNTAX\nERR 1 SYNTAX\nERR 1 SYNTAX\n",
    ),
    (
        b"db_online\ns 1 put 1 '' 'v'\ns 1 put 501 'k' 'v'\ns 0 put 1 'k' 'v'\n\
          s 65 put 1 'k' 'v'\ninfo\n",
        b"OK ONLINE 0\nERR 1 SYNTAX\nERR 1 SYNTAX\nERR 1 SYNTAX\nERR 1 SYNTAX\nINFO 7 1 0 0 512 8\n",
    ),
    (
        b"db_online\ns 1 put 1 'b' ''\ns 1 put 1 'a' '1'\ns 1 put 1 'b' '2'\ns 1 commit\n\
          s 1 get 1 'b'\ns 1 get 2 'b'\n",
        b"OK ONLINE 0\nOK PUT\nOK PUT\nOK PUT\nCOMMIT 1\nVALUE '2'\nNONE\n",
    ),
    // Locks: a row that another session changed, a table that another scans, a row that another
    // reads.
    (
        b"db_online\ns 1 put 1 'k' 'a'\ns 2 get 1 'k'\ns 1 commit\ns 3 scan 1\ns 2 get 1 'k'\n\
          s 1 put 1 'k' 'b'\ns 2 put 1 'k' 'b'\n",
        b"OK ONLINE 0\nOK PUT\nERR 3 LOCKED 1\nCOMMIT 1\nROW 'k' 'a'\nOK SCAN 1\nVALUE 'a'\n\
          ERR 3 LOCKED 2\nERR 3 LOCKED 3\n",
    ),
    // Two sessions with open changes, a scan over what both committed, and a rollback.
    (
        b"db_online\ns 1 put 1 'o-0001' 'bolt 10'\ns 2 put 1 'o-0002' 'nut 50'\ns 1 commit\n\
          s 2 commit\ns 1 scan 1\ns 1 commit\ns 2 del 1 'o-0001'\ns 2 rollback\n\
          s 64 get 1 'o-0001'\n",
        b"OK ONLINE 0\nOK PUT\nOK PUT\nCOMMIT 1\nCOMMIT 2\nROW 'o-0001' 'bolt 10'\n\
          ROW 'o-0002' 'nut 50'\nOK SCAN 2\nOK EMPTY\nOK DEL\nOK ROLLBACK\nVALUE 'bolt 10'\n",
    ),
    // A session scans its own changes over the rows, in the order of keys; a shorter key comes
    // first.
    (
        b"db_online\ns 1 put 500 'b' '1'\ns 1 put 500 'c' '2'\ns 1 put 499 'x' '9'\ns 1 commit\n\
          s 7 del 500 'c'\ns 7 put 500 'ab' '3'\ns 7 put 500 'a' ''\ns 7 put 500 x'FF' x'00'\n\
          s 7 scan 500\ns 7 scan 498\ns 7 del 500 'c'\ns 7 rollback\ns 8 scan 500\n",
        b"OK ONLINE 0\nOK PUT\nOK PUT\nOK PUT\nCOMMIT 1\nOK DEL\nOK PUT\nOK PUT\nOK PUT\n\
          ROW 'a' ''\nROW 'ab' '3'\nROW 'b' '1'\nROW x'ff' x'00'\nOK SCAN 4\nOK SCAN 0\nNONE\n\
          OK ROLLBACK\nROW 'b' '1'\nROW 'c' '2'\nOK SCAN 2\n",
    ),
    // A deletion is committed, and found again by a restart. Without a change there is none.
    (
        b"db_online\ns 1 put 1 'k' 'v'\ns 1 commit\ns 1 del 1 'k'\ns 1 del 1 'k'\ns 1 commit\n\
          s 1 commit\nkill\ndb_online\ns 2 get 1 'k'\ns 2 scan 1\ns 2 rollback\ns 2 rollback\n",
        b"OK ONLINE 0\nOK PUT\nCOMMIT 1\nOK DEL\nNONE\nCOMMIT 2\nOK EMPTY\nOK OFFLINE\n\
          OK ONLINE 2\nNONE\nOK SCAN 0\nOK ROLLBACK\nOK ROLLBACK\n",
    ),
    (
        b"s 1 del 1 'k'\ns 1 scan 1\ns 1 rollback\n",
        b"ERR 2 STATE OFFLINE\nERR 2 STATE OFFLINE\nERR 2 STATE OFFLINE\n",
    ),
    // The states, and what each refuses.
    (
        b"db_state\ndb_offline\ndb_admin\ndb_state\ns 1 get 1 'k'\ns 1 put 1 'k' 'v'\n\
          s 1 del 1 'k'\ns 1 scan 1\ns 1 commit\ns 1 rollback\ndb_admin\ndb_online\ndb_state\n\
          db_online\ndb_offline\ndb_offline\ndb_state\n",
        b"OK STATE OFFLINE\nERR 2 STATE OFFLINE\nOK ADMIN 0\nOK STATE ADMIN\nERR 2 STATE ADMIN\n\
          ERR 2 STATE ADMIN\nERR 2 STATE ADMIN\nERR 2 STATE ADMIN\nERR 2 STATE ADMIN\n\
          ERR 2 STATE ADMIN\nERR 2 STATE ADMIN\nOK ONLINE 0\nOK STATE ONLINE\n\
          ERR 2 STATE ONLINE\nOK OFFLINE\nERR 2 STATE OFFLINE\nOK STATE OFFLINE\n",
    ),
    // The administrator's entry gives up what is open, with its locks, and keeps what is committed.
    (
        b"db_online\ns 1 put 1 'k' 'a'\ns 1 commit\ns 1 put 1 'k' 'b'\ns 2 scan 2\ndb_admin\n\
          db_online\ns 3 put 1 'k' 'c'\ns 3 put 2 'k' 'c'\ns 1 commit\ns 3 rollback\n\
          s 2 get 1 'k'\n",
        b"OK ONLINE 0\nOK PUT\nCOMMIT 1\nOK PUT\nOK SCAN 0\nOK ADMIN 1\nOK ONLINE 1\nOK PUT\n\
          OK PUT\nOK EMPTY\nOK ROLLBACK\nVALUE 'a'\n",
    ),
    // So does going off from ONLINE; from ADMIN there is nothing open.
    (
        b"db_online\ns 1 put 1 'k' 'a'\ns 1 commit\ns 1 put 1 'k' 'b'\ndb_offline\ndb_admin\n\
          db_offline\ndb_online\ns 1 get 1 'k'\nDB_STATE\ndb_state now\n  db_state  \n",
        b"OK ONLINE 0\nOK PUT\nCOMMIT 1\nOK PUT\nOK OFFLINE\nOK ADMIN 1\nOK OFFLINE\n\
          OK ONLINE 1\nVALUE 'a'\nERR 1 SYNTAX\nERR 1 SYNTAX\nOK STATE ONLINE\n",
    ),
];

#[test]
fn answers_each_line(rt: HostRuntime) -> Result<(), Fail> {
    for (script, want) in ROWS {
        let mut host = new_host(rt.alloc(), 4)?;
        assert_eq!(rt; answered(rt.alloc(), &mut host, script)?, Status::Done);
        assert_eq!(rt; host.output(), want);
    }
    Ok(())
}

// Commits of 1,000 bytes, one that fills the log to its last byte but one, and the next one.
const FULL_LOG: &[u8] = b"OK ONLINE 0\n\
    OK PUT\nCOMMIT 1\nOK PUT\nCOMMIT 2\nOK PUT\nCOMMIT 3\nOK PUT\nCOMMIT 4\nOK PUT\nCOMMIT 5\n\
    OK PUT\nCOMMIT 6\nOK PUT\nCOMMIT 7\nOK PUT\nCOMMIT 8\nOK PUT\nCOMMIT 9\nOK PUT\nCOMMIT 10\n\
    OK PUT\nCOMMIT 11\nOK PUT\nCOMMIT 12\nOK PUT\nCOMMIT 13\nOK PUT\nCOMMIT 14\n\
    OK PUT\nCOMMIT 15\nOK PUT\nCOMMIT 16\nOK PUT\nCOMMIT 17\n\
    OK PUT\nERR 5 LOGFULL 16383 16384\n";

// What comes of a key or a value that is too long, or of no key.
const NOT_PUT: &[u8] = b"OK ONLINE 0\nERR 1 SYNTAX\nOK EMPTY\nOK OFFLINE\nOK ONLINE 0\nOK SCAN 0\n";

// The lines after a put.
const KEPT: &[u8] = b"'\ns 64 commit\nkill\ndb_online\ns 1 scan 500\n";

// Scripts with long rows on a new database with a log of so many pages, and what they are answered.
const LONG: [(u32, &'static [Part], &'static [Part]); 6] = [
    (
        4,
        &[
            (b"db_online\n", 0, b"", 1),
            (b"s 1 put 1 'k' '", 959, b"'\ns 1 commit\n", 16),
            (b"s 1 put 1 'k' '", 342, b"'\ns 1 commit\n", 1),
            (b"s 1 put 1 'k' '", 0, b"'\ns 1 commit\n", 1),
        ],
        &[(FULL_LOG, 0, b"", 1)],
    ),
    // Eleven changes of 1,508 bytes each, and 33 of their group.
    (
        4,
        &[
            (b"db_online\n", 0, b"", 1),
            (b"s 1 put 1 'a' '", 1500, b"'\n", 1),
            (b"s 1 put 1 'b' '", 1500, b"'\n", 1),
            (b"s 1 put 1 'c' '", 1500, b"'\n", 1),
            (b"s 1 put 1 'd' '", 1500, b"'\n", 1),
            (b"s 1 put 1 'e' '", 1500, b"'\n", 1),
            (b"s 1 put 1 'f' '", 1500, b"'\n", 1),
            (b"s 1 put 1 'g' '", 1500, b"'\n", 1),
            (b"s 1 put 1 'h' '", 1500, b"'\n", 1),
            (b"s 1 put 1 'i' '", 1500, b"'\n", 1),
            (b"s 1 put 1 'j' '", 1500, b"'\n", 1),
            (b"s 1 put 1 'k' '", 1500, b"'\n", 1),
            (b"s 1 rollback\ns 2 get 1 'a'\n", 0, b"", 1),
        ],
        &[
            (b"OK ONLINE 0\n", 0, b"", 1),
            (b"OK PUT\n", 0, b"", 10),
            (b"ERR 6 TRANSLARGE 16621\nOK ROLLBACK\nNONE\n", 0, b"", 1),
        ],
    ),
    (
        8,
        &[
            (b"db_online\ns 64 put 500 '", 256, b"' '", 1),
            (b"", 1500, KEPT, 1),
        ],
        &[
            (
                b"OK ONLINE 0\nOK PUT\nCOMMIT 1\nOK OFFLINE\nOK ONLINE 1\nROW '",
                256,
                b"' '",
                1,
            ),
            (b"", 1500, b"'\nOK SCAN 1\n", 1),
        ],
    ),
    (
        8,
        &[
            (b"db_online\ns 64 put 500 '", 257, b"' '", 1),
            (b"", 1500, KEPT, 1),
        ],
        &[(NOT_PUT, 0, b"", 1)],
    ),
    (
        8,
        &[
            (b"db_online\ns 64 put 500 '", 256, b"' '", 1),
            (b"", 1501, KEPT, 1),
        ],
        &[(NOT_PUT, 0, b"", 1)],
    ),
    (
        8,
        &[
            (b"db_online\ns 64 put 500 '", 0, b"' '", 1),
            (b"", 1, KEPT, 1),
        ],
        &[(NOT_PUT, 0, b"", 1)],
    ),
];

#[test]
fn long_rows_meet_their_limits(rt: HostRuntime) -> Result<(), Fail> {
    for (log_pages, script, want) in LONG {
        let script = text_of(rt.alloc(), script)?;
        let want = text_of(rt.alloc(), want)?;
        let mut host = new_host(rt.alloc(), log_pages)?;
        assert_eq!(rt; answered(rt.alloc(), &mut host, &script)?, Status::Done);
        assert_eq!(rt; host.output(), want.as_slice());
    }
    Ok(())
}

// A page. The second slots of a new database have no other bytes.
const ZEROS: [u8; 8192] = [0; 8192];

// The group of the first commit of a database of birth 7 that puts 'v' under 'k' in table 1.
const GROUP: &[u8] =
    b"\x4F\0\0\0\x2A\0\0\0\0\0\0\0\x07\0\0\0\0\0\0\0\x01\0\0\0\0\0\0\0\x01\0\0\0\x01\0\x01\x01\0\
      \x01\0\x01kv";

// That of one of birth 1.
const OTHER_GROUP: &[u8] =
    b"\x4F\0\0\0\x2A\0\0\0\0\0\0\0\x01\0\0\0\0\0\0\0\x01\0\0\0\0\0\0\0\x01\0\0\0\x01\0\x01\x01\0\
      \x01\0\x01kv";

// What is done to a new database with a log of four pages, and how a restart refuses it.
const DAMAGED: [(Change, &'static [u8]); 21] = [
    (
        Change::Removed(Device::Data(1)),
        b"ERR 20 DAMAGED DATA1 0 MISSING\n",
    ),
    (
        Change::Renewed(Device::Data(1), 3),
        b"ERR 20 DAMAGED DATA1 0 SIZE\n",
    ),
    (
        Change::Renewed(Device::Data(1), 63),
        b"ERR 20 DAMAGED DATA1 0 SIZE\n",
    ),
    (
        Change::Renewed(Device::Data(1), 512),
        b"ERR 20 DAMAGED DATA1 0 NOSLOT\n",
    ),
    (
        Change::Removed(Device::Log),
        b"ERR 20 DAMAGED LOG 0 MISSING\n",
    ),
    (
        Change::Renewed(Device::Log, 3),
        b"ERR 20 DAMAGED LOG 0 SIZE\n",
    ),
    (
        Change::Renewed(Device::Log, 4),
        b"ERR 20 DAMAGED LOG 0 NOSLOT\n",
    ),
    // Zeros in place of the slots.
    (
        Change::Written(Device::Data(1), 0, &ZEROS),
        b"ERR 20 DAMAGED DATA1 0 NOSLOT\n",
    ),
    (
        Change::Written(Device::Log, 0, &ZEROS),
        b"ERR 20 DAMAGED LOG 0 NOSLOT\n",
    ),
    // A closed gate of the slot in force.
    (
        Change::Written(Device::Data(1), 8191, b"\x4E"),
        b"ERR 20 DAMAGED DATA1 0 NOSLOT\n",
    ),
    (
        Change::Written(Device::Log, 8191, b"\0"),
        b"ERR 20 DAMAGED LOG 0 NOSLOT\n",
    ),
    // Another format.
    (
        Change::Written(Device::Data(1), 8, b"\0\0\0\x02"),
        b"ERR 20 DAMAGED DATA1 0 NOSLOT\n",
    ),
    // A restore that is open.
    (
        Change::Written(Device::Data(1), 12, b"\0\0\0\x01"),
        b"ERR 19 RESTOREOPEN\n",
    ),
    // A generation of 2^61, a birth past it, and such a position in the log info.
    (
        Change::Written(Device::Data(1), 32, b"\x20\0\0\0\0\0\0\0"),
        b"ERR 21 NUMBEREND\n",
    ),
    (
        Change::Written(Device::Data(1), 24, b"\x20\0\0\0\0\0\0\x07"),
        b"ERR 21 NUMBEREND\n",
    ),
    (
        Change::Written(Device::Log, 48, b"\x20\0\0\0\0\0\0\0"),
        b"ERR 21 NUMBEREND\n",
    ),
    // Another size of the data volume, and of the log volume, than what is there.
    (
        Change::Written(Device::Data(1), 72, b"\0\0\x02\x01"),
        b"ERR 20 DAMAGED DATA1 0 SIZE\n",
    ),
    (
        Change::Written(Device::Log, 60, b"\0\0\0\x05"),
        b"ERR 20 DAMAGED LOG 0 SIZE\n",
    ),
    // An open gate in the ring, and no group after it, or that of another birth.
    (
        Change::Written(Device::Log, 16384, &[0x4F; 8192]),
        b"ERR 20 DAMAGED LOG 2 GROUP\n",
    ),
    (
        Change::Written(Device::Log, 16384, OTHER_GROUP),
        b"ERR 20 DAMAGED LOG 2 GROUP\n",
    ),
    (
        Change::Written(Device::Log, 16384, b"\x4F\x03\x77\xD0\x4F\xFE\x21\x08\x6B"),
        b"ERR 20 DAMAGED LOG 2 GROUP\n",
    ),
];

// What is done to such a database that a restart takes: a volume that it does not have, a group,
// and a closed gate, after which anything may stand.
const FITTING: [(Change, &'static [u8]); 3] = [
    (Change::Renewed(Device::Data(2), 64), b"OK ONLINE 0\n"),
    (Change::Written(Device::Log, 16384, GROUP), b"OK ONLINE 1\n"),
    (
        Change::Written(Device::Log, 16384, b"\x9A\x03\x77\xD0\x4F\xFE\x21\x08\x6B"),
        b"OK ONLINE 0\n",
    ),
];

// A host with a new database that was changed.
fn changed_host(alloc: Global, change: Change) -> Result<MemHost, Fail> {
    let mut host = new_host(alloc, 4)?;
    make_change(&mut host, change)?;
    Ok(host)
}

// Whether a restart of a host that said nothing yet, in both ways, is refused so.
fn refuses(alloc: Global, host: &mut MemHost, want: &[u8]) -> Result<bool, Fail> {
    let mut both = Vec::new(alloc);
    for text in [want, want, b"OK STATE OFFLINE\n".as_slice()] {
        both.extend_from_slice(text)?;
    }
    answers(alloc, host, b"db_online\ndb_admin\ndb_state\n", &both)
}

#[test]
fn a_restart_names_what_does_not_fit(rt: HostRuntime) -> Result<(), Fail> {
    let mut absent = MemHost::new(rt.alloc(), &[])?;
    assert!(rt; refuses(rt.alloc(), &mut absent, b"ERR 20 DAMAGED DATA1 0 MISSING\n")?);
    for (damage, want) in DAMAGED {
        let mut host = changed_host(rt.alloc(), damage)?;
        assert!(rt; refuses(rt.alloc(), &mut host, want)?);
    }
    Ok(())
}

#[test]
fn a_restart_takes_what_fits(rt: HostRuntime) -> Result<(), Fail> {
    for (change, want) in FITTING {
        let mut host = changed_host(rt.alloc(), change)?;
        assert!(rt; answers(rt.alloc(), &mut host, b"db_online\n", want)?);
    }
    Ok(())
}

// Five commits, and what is asked after them.
const FIVE_COMMITS: &[u8] = b"db_online\n\
    s 1 put 1 'a' 'x'\ns 1 commit\ns 1 put 1 'b' 'x'\ns 1 commit\ns 1 put 1 'c' 'x'\ns 1 commit\n\
    s 1 put 1 'd' 'x'\ns 1 commit\ns 1 put 1 'e' 'x'\ns 1 commit\n\
    s 1 get 1 'k'\n";

// The replies where all go well, and where the fifth fails.
const FIFTH_GOES_WELL: &[u8] =
    b"OK ONLINE 0\nOK PUT\nCOMMIT 1\nOK PUT\nCOMMIT 2\nOK PUT\nCOMMIT 3\nOK PUT\nCOMMIT 4\n\
      OK PUT\nCOMMIT 5\nNONE\n";

const FIFTH_FAILS: &[u8] =
    b"OK ONLINE 0\nOK PUT\nCOMMIT 1\nOK PUT\nCOMMIT 2\nOK PUT\nCOMMIT 3\nOK PUT\nCOMMIT 4\n\
      OK PUT\nERR 22 DEVICE\nERR 2 STATE OFFLINE\n";

const FOUR: &[u8] = b"OK ONLINE 4\nROW 'a' 'x'\nROW 'b' 'x'\nROW 'c' 'x'\nROW 'd' 'x'\nOK SCAN 4\n";

const FIVE: &[u8] =
    b"OK ONLINE 5\nROW 'a' 'x'\nROW 'b' 'x'\nROW 'c' 'x'\nROW 'd' 'x'\nROW 'e' 'x'\nOK SCAN 5\n";

// Which call of a host the second sync of the fifth commit is.
fn second_sync(alloc: Global) -> Result<u64, Fail> {
    let mut host = new_host(alloc, 4)?;
    if !answers(alloc, &mut host, FIVE_COMMITS, FIFTH_GOES_WELL)? {
        return Err(Fail::from("a commit failed"));
    }
    // The last two calls say replies.
    Ok(host.now().saturating_sub(2))
}

// Whether a restart finds the rows of four commits, or those of five.
fn has_four_or_five(alloc: Global, host: &mut MemHost) -> Result<bool, Fail> {
    let status = answered(alloc, host, b"db_online\ns 1 scan 1\n")?;
    let said = host.output();
    Ok(status == Status::Done && (said.ends_with(FOUR) || said.ends_with(FIVE)))
}

#[test]
fn a_commit_whose_sync_fails_is_whole_or_not_at_all(rt: HostRuntime) -> Result<(), Fail> {
    let mut host = MemHost::new(rt.alloc(), &[second_sync(rt.alloc())?])?;
    make_database(rt.alloc(), &mut host, 4)?;
    assert!(rt; answers(rt.alloc(), &mut host, FIVE_COMMITS, FIFTH_FAILS)?);
    for pick in [0, 1, 2, u64::MAX] {
        let now = host.now();
        let mut left = host.image(rt.alloc(), now, pick)?;
        assert!(rt; has_four_or_five(rt.alloc(), &mut left)?);
    }
    assert!(rt; has_four_or_five(rt.alloc(), &mut host)?);
    Ok(())
}

// A commit, and what a restart finds of it.
const COMMIT: &[u8] = b"db_online\ns 1 put 1 'k' 'v'\ns 1 commit\n";

const STORED: &[u8] = b"db_online\ns 1 put 1 'k' 'v'\ns 1 commit\nkill\ndb_online\ns 1 get 1 'k'\n";

const AGAIN: &[u8] = b"db_online\ns 1 get 1 'k'\n";

const BEFORE: &[u8] = b"OK ONLINE 0\nNONE\n";

const AFTER: &[u8] = b"OK ONLINE 1\nVALUE 'v'\n";

#[test]
fn each_stop_leaves_the_commit_whole_or_not_at_all(rt: HostRuntime) -> Result<(), Fail> {
    let mut host = new_host(rt.alloc(), 4)?;
    let made = host.now();
    assert_eq!(rt; answered(rt.alloc(), &mut host, STORED)?, Status::Done);
    let end = host.now();
    for at in made..=end {
        // Two ways to tear at one moment, and two others at the next.
        let picks = if at % 2 == 0 { [0, 1] } else { [2, u64::MAX] };
        for pick in picks {
            let mut left = host.image(rt.alloc(), at, pick)?;
            assert_eq!(rt; answered(rt.alloc(), &mut left, AGAIN)?, Status::Done);
            let found = left.output();
            assert!(rt; found == AFTER || (at < end && found == BEFORE));
        }
    }
    Ok(())
}

// Makes a new database in files with a commit, and takes its volumes away again. Answers the first
// page of its ring, as a second host reads it.
fn page_of_files(rt: &HostRuntime) -> Result<[u8; 8192], Fail> {
    let mut host = FileHost::new(rt, rt.alloc(), "db")?;
    for device in [Device::Data(1), Device::Log] {
        // An earlier run of the test that failed may have left it.
        let _ = make_change(&mut host, Change::Removed(device));
    }
    make_database(rt.alloc(), &mut host, 4)?;
    let _ = answered(rt.alloc(), &mut host, COMMIT)?;
    // Its locks end with it, and let the second view in.
    drop(host);
    let mut second = FileHost::new(rt, rt.alloc(), "db")?;
    let mut page = [0u8; 8192];
    try_read(&mut second, Device::Log, 16384, &mut page)?;
    make_change(&mut second, Change::Removed(Device::Log))?;
    make_change(&mut second, Change::Removed(Device::Data(1)))?;
    Ok(page)
}

#[test]
fn a_second_view_of_the_files_has_the_first_commit(rt: HostRuntime) -> Result<(), Fail> {
    let page = page_of_files(&rt)?;
    assert!(rt; page.starts_with(GROUP));
    assert!(rt; page[GROUP.len()] != 0x4F);
    let mut copy = new_host(rt.alloc(), 4)?;
    try_write(&mut copy, Device::Log, 16384, &page)?;
    assert!(rt; answers(rt.alloc(), &mut copy, AGAIN, AFTER)?);
    Ok(())
}

#[test]
fn a_script_has_an_end(rt: HostRuntime) -> Result<(), Fail> {
    let lines = vec![in rt.alloc(); b'\n'; 16_777_217]?;
    let mut host = MemHost::new(rt.alloc(), &[])?;
    let mut source = MemSource::new(rt.alloc(), &lines, 65_536, &[])?;
    assert_eq!(rt;
        run_script(rt.alloc(), &mut host, &mut source),
        Status::LinesEnd
    );
    assert!(rt; host.output().is_empty());
    Ok(())
}
