// The space rule: the needs of worked databases, by calls.
ghost use Rattle.std.specs.Prelude.{◌≡◌, ◌≤◌, length, IfOk, IsTrue};
ghost use Rattle.std.specs.Option.{ForSome};
ghost use Rattle.mdb_bytes.specs.Groups.{change_fits};

use mdb_model::bytes::{Key, Value};
use mdb_model::change::Change;
use mdb_model::name::{Session, Table};
use space_rule::Space;
use std::alloc::Global;
use std::test::Fail;

const SESSION: Session = Session(1);

// A row of a table, with the key first.
fn row(alloc: Global, table: u16, key: &[u8], value: &[u8]) -> Result<Change, Fail>
    requires table { (1 ≤ table) × (table ≤ 500) }
    requires key { (1 ≤ length key.now) × (length key.now ≤ 256) }
    requires value { length value.now ≤ 1500 }
    ensures { IfOk result (λ change. IsTrue (change_fits change)) }
{
    let key = Key::new(alloc, key)?;
    let value = Value::new(alloc, value)?;
    Ok(Change::Put(Table(table), key, value))
}

// Counts a change of the session, and answers the need with it.
fn count(space: &mut Space, change: &Change, before: Option<usize>) -> Result<u64, Fail>
    requires limits { IsTrue (change_fits change.now) }
    requires before { ForSome before (λ n. n ≤ 1500) }
{
    space.prepare(change)?;
    let need = space.would_need(SESSION, change, before);
    if need <= 1 << 32 {
        space.note(SESSION, change, before);
    }
    Ok(need)
}

// A key of 256 bytes for each number.
fn long_key(number: u16) -> [u8; 256]
    ensures { length result ≡ 256 }
{
    let mut key = [b'k'; 256];
    key[0] = (number / 256) as u8;
    key[1] = (number % 256) as u8;
    key
}

#[test]
fn small_rows_of_one_and_of_two_tables(rt: HostRuntime) -> Result<(), Fail> {
    let mut space = Space::new(rt.alloc(), 512);
    let change = row(rt.alloc(), 1, b"k", b"v")?;
    count(&mut space, &change, None)?;
    space.ended(SESSION, true);
    assert_eq!(rt; space.need(), 9);

    let mut space = Space::new(rt.alloc(), 1024);
    for (table, key, value) in [
        (2, "bolt", "90"),
        (2, "nut", "200"),
        (1, "o-0001", "bolt 10"),
    ] {
        let change = row(rt.alloc(), table, key.as_bytes(), value.as_bytes())?;
        count(&mut space, &change, None)?;
    }
    space.ended(SESSION, true);
    assert_eq!(rt; space.need(), 12);
    Ok(())
}

// 420 rows of 1,764 bytes need 288 of 512 blocks, with the last of them still open and with the
// first one deleted; one more needs 289.
#[test]
fn rows_that_fill_an_area(rt: HostRuntime) -> Result<(), Fail> {
    let mut space = Space::new(rt.alloc(), 512);
    let value = [b'x'; 1500];
    let mut need = 0;
    for number in 0..420 {
        let change = row(rt.alloc(), 1, &long_key(number), &value)?;
        need = count(&mut space, &change, None)?;
        space.ended(SESSION, true);
    }
    assert_eq!(rt; need, 288);
    let more = row(rt.alloc(), 1, &long_key(420), &value)?;
    assert_eq!(rt; space.would_need(SESSION, &more, None), 289);
    let first = Change::Del(Table(1), Key::new(rt.alloc(), &long_key(0))?);
    assert_eq!(rt; space.would_need(SESSION, &first, Some(1500)), 288);
    Ok(())
}
