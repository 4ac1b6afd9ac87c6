// Savepoints: room that runs out, changes that are open in them, and a stop at each moment, of the
// script and of the restart after it.
use crate::area::{answered, answers, make_area, new_host};
use mdb_host::MemHost;
use mdb_model::status::Status;
use std::alloc::Global;
use std::test::Fail;

// Ways to tear what is not synced: all old, all new, open gates alone, zeros alone.
const TEARINGS: [u64; 4] = [0, 0x5555_5555_5555_5555, 0xAAAA_AAAA_AAAA_AAAA, u64::MAX];

// The keys of 256 bytes, by their number.
fn push_key(text: &mut Vec<u8>, number: u32) -> Result<(), Fail> {
    text.extend_from_slice(b"'")?;
    for place in [100, 10, 1] {
        text.push(b'0' + (number / place % 10) as u8)?;
    }
    text.extend_from_slice(&[b'k'; 253])?;
    text.extend_from_slice(b"'")?;
    Ok(())
}

// A put of the longest key and value.
fn push_put(text: &mut Vec<u8>, number: u32) -> Result<(), Fail> {
    text.extend_from_slice(b"s 1 put 1 ")?;
    push_key(text, number)?;
    text.extend_from_slice(b" '")?;
    text.extend_from_slice(&[b'x'; 1500])?;
    text.extend_from_slice(b"'\n")?;
    Ok(())
}

// So many puts, each with a commit; one more; a deletion, a rollback and a savepoint.
fn filling_script(alloc: Global, rows: u16) -> Result<Vec<u8>, Fail> {
    let mut text = Vec::new(alloc);
    let rows = u32::from(rows);
    text.extend_from_slice(b"db_online\n")?;
    for number in 1..=rows {
        push_put(&mut text, number)?;
        text.extend_from_slice(b"s 1 commit\n")?;
    }
    push_put(&mut text, rows + 1)?;
    text.extend_from_slice(b"s 1 del 1 ")?;
    push_key(&mut text, 1)?;
    text.extend_from_slice(b"\ns 1 rollback\nsavepoint\n")?;
    Ok(text)
}

// What answers it.
fn filling_answers(alloc: Global, rows: u16) -> Result<Vec<u8>, Fail> {
    let mut text = Vec::new(alloc);
    text.extend_from_slice(b"OK ONLINE 0\n")?;
    for number in 1..=rows {
        text.extend_from_slice(b"OK PUT\nCOMMIT ")?;
        text.extend_from_slice(number.to_string(alloc)?.as_bytes())?;
        text.extend_from_slice(b"\n")?;
    }
    text.extend_from_slice(b"ERR 4 DATAFULL 513 512\nOK DEL\nOK ROLLBACK\nOK SAVEPOINT\n")?;
    Ok(text)
}

// 420 rows and one that is open need 288 blocks, and with the 224 that a put leaves just 512; the
// next one a block more. A deletion leaves 160.
#[test]
fn a_put_is_refused_where_a_block_is_wanting(rt: HostRuntime) -> Result<(), Fail> {
    let mut host = new_host(rt.alloc(), 100)?;
    let script = filling_script(rt.alloc(), 420)?;
    let want = filling_answers(rt.alloc(), 420)?;
    assert!(rt; answers(rt.alloc(), &mut host, &script, &want)?);
    Ok(())
}

// Two tables, two sessions, a savepoint among them, and a restart; `info` says before and after it
// what three rows and one commit group need.
const USE: &[u8] = b"db_online\ns 1 put 2 'bolt' '100'\ns 1 put 2 'nut' '250'\ns 1 commit\n\
    s 1 get 2 'bolt'\ns 1 put 1 'o-0001' 'bolt 10'\ns 2 get 2 'nut'\ns 2 put 1 'o-0002' 'nut 50'\n\
    s 1 put 2 'bolt' '90'\ns 2 put 2 'nut' '200'\ns 1 commit\nsavepoint\ns 2 commit\ns 1 scan 1\n\
    s 1 commit\ns 2 del 1 'o-0001'\ns 2 rollback\ninfo\ndb_offline\ndb_online\ns 1 get 2 'nut'\ninfo\n";

const USED: &[u8] = b"OK ONLINE 0\nOK PUT\nOK PUT\nCOMMIT 1\nVALUE '100'\nOK PUT\nVALUE '250'\n\
    OK PUT\nOK PUT\nOK PUT\nCOMMIT 2\nOK SAVEPOINT\nCOMMIT 3\nROW 'o-0001' 'bolt 10'\n\
    ROW 'o-0002' 'nut 50'\nOK SCAN 2\nOK EMPTY\nOK DEL\nOK ROLLBACK\nINFO 7 1 3 0 1024 12\n\
    OK OFFLINE\nOK ONLINE 3\nVALUE '200'\nINFO 7 1 3 0 1024 12\n";

#[test]
fn ordinary_use_is_answered_before_and_after_a_restart(rt: HostRuntime) -> Result<(), Fail> {
    let mut host = MemHost::new(rt.alloc(), &[])?;
    make_area(rt.alloc(), &mut host, 64, 1024)?;
    assert!(rt; answers(rt.alloc(), &mut host, USE, USED)?);
    Ok(())
}

// A commit; a savepoint with a change of its row open, which is given up; a commit of another
// session; a restart.
const ONE_COMMIT: &[u8] = b"db_online\ns 1 put 1 'k' '0'\ns 1 commit\n";

const TWO_COMMITS: &[u8] = b"db_online\ns 1 put 1 'k' '0'\ns 1 commit\ns 1 put 1 'k' '1'\n\
    savepoint\ns 1 rollback\ns 2 put 1 'k' '2'\ns 2 commit\n";

const WHOLE: &[u8] = b"db_online\ns 1 put 1 'k' '0'\ns 1 commit\ns 1 put 1 'k' '1'\n\
    savepoint\ns 1 rollback\ns 2 put 1 'k' '2'\ns 2 commit\nkill\ndb_online\ns 1 get 1 'k'\n";

const REPLIES: &[u8] = b"OK ONLINE 0\nOK PUT\nCOMMIT 1\nOK PUT\nOK SAVEPOINT\nOK ROLLBACK\nOK PUT\n\
    COMMIT 2\nOK OFFLINE\nOK ONLINE 2\nVALUE '2'\n";

const AGAIN: &[u8] = b"db_online\ns 1 get 1 'k'\n";

// What a restart finds of no commit, of one and of both.
const FOUND: [&'static [u8]; 3] = [
    b"OK ONLINE 0\nNONE\n",
    b"OK ONLINE 1\nVALUE '0'\n",
    b"OK ONLINE 2\nVALUE '2'\n",
];

// How many commits a restart of a host finds; none where its answer is none of those.
fn commits_found(alloc: Global, host: &mut MemHost) -> Result<Option<usize>, Fail> {
    let status = answered(alloc, host, AGAIN)?;
    let said = host.output();
    let place = FOUND.iter().position(|found| *found == said);
    Ok(place.filter(|_| status == Status::Done))
}

// The moment at which a script on a new database is answered whole.
fn end_of(alloc: Global, script: &[u8]) -> Result<u64, Fail> {
    let mut host = new_host(alloc, 4)?;
    let _ = answered(alloc, &mut host, script)?;
    Ok(host.now())
}

// Restarts what a restart leaves that is stopped at each of its moments, torn in one way.
fn restarts_again(alloc: Global, host: &MemHost, least: usize, pick: u64) -> Result<bool, Fail> {
    let most = least.saturating_add(1);
    for at in 0..=host.now() {
        let mut left = host.image(alloc, at, pick)?;
        let Some(found) = commits_found(alloc, &mut left)? else {
            return Ok(false);
        };
        if found < least || found > most {
            return Ok(false);
        }
    }
    Ok(true)
}

#[test]
fn each_stop_around_a_savepoint_leaves_whole_commits(rt: HostRuntime) -> Result<(), Fail> {
    let mut host = new_host(rt.alloc(), 4)?;
    let made = host.now();
    let answered_at = [
        end_of(rt.alloc(), ONE_COMMIT)?,
        end_of(rt.alloc(), TWO_COMMITS)?,
    ];
    assert!(rt; answers(rt.alloc(), &mut host, WHOLE, REPLIES)?);
    let end = host.now();
    for at in made..=end {
        let least = answered_at.iter().filter(|end| **end <= at).count();
        let most = least.saturating_add(1);
        for (way, pick) in TEARINGS.iter().enumerate() {
            let mut left = host.image(rt.alloc(), at, *pick)?;
            let found = commits_found(rt.alloc(), &mut left)?;
            assert!(rt; found == Some(least) || found == Some(most));
            // Of each sixteenth restart each stop too, torn as the first one was.
            if at.wrapping_add(way as u64) % 16 == 0 {
                assert!(rt; restarts_again(rt.alloc(), &left, least, *pick)?);
            }
        }
    }
    Ok(())
}
