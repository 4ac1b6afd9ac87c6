// Changes of stored tables, with each answer compared with that of a plain vector.
use crate::both::Both;
use mdb_model::name::Table;
use std::alloc::Global;
use std::test::Fail;

// The tables that have rows.
const TABLES: [Table; 4] = [Table(1), Table(2), Table(3), Table(4)];

// The next number of a row of numbers that looks random.
fn next_number(x: u32) -> u32 {
    x.wrapping_mul(1_664_525).wrapping_add(1_013_904_223)
}

// Two lines: a put of a row, and a deletion of the key with the next number.
#[derive(Drop)]
struct Lines {
    table: Table,
    key: String,
    value: String,
    other: String,
}

// The lines that a number tells.
fn lines_of(alloc: Global, x: u32, i: u32) -> Result<Lines, Fail> {
    let table = Table((1 + x / 65536 % 4) as u16);
    let n = x / 256 % 4096;
    let q = (n + 1) % 4096;
    Ok(Lines {
        table,
        key: format!(in alloc; "k{n}")?,
        value: format!(in alloc; "v{i}")?,
        other: format!(in alloc; "k{q}")?,
    })
}

// Carries out two lines; false where the answers differ.
fn change(both: &mut Both, lines: &Lines) -> Result<bool, Fail> {
    both.put(lines.table, lines.key.as_bytes(), lines.value.as_bytes())?;
    both.del_alike(lines.table, lines.other.as_bytes())
}

// Whether all tables have the same rows in both, and the same at these keys.
fn alike(both: &mut Both, keys: [&[u8]; 3]) -> Result<bool, Fail> {
    for table in TABLES {
        if !both.rows_alike(table)? {
            return Ok(false);
        }
        for key in keys {
            if !both.get_alike(table, key)? {
                return Ok(false);
            }
        }
    }
    Ok(true)
}

#[test]
fn twenty_thousand_changes_keep_the_rows(rt: HostRuntime) -> Result<(), Fail> {
    let mut both = Both::new(rt.alloc())?;
    let mut x = 1;
    for i in 1..=10_000u32 {
        x = next_number(x);
        let lines = lines_of(rt.alloc(), x, i)?;
        assert!(rt; change(&mut both, &lines)?, "the deletion of {i}");
        if i % 500 == 0 {
            let keys = [lines.key.as_bytes(), lines.other.as_bytes(), b"k"];
            assert!(rt; alike(&mut both, keys)?, "the tables after {i}");
        }
    }
    // counted apart from this program
    for (table, len) in [(1, 507), (2, 495), (3, 510), (4, 520)] {
        assert_eq!(rt; both.len(Table(table)), len);
    }
    Ok(())
}

// How many long rows there are.
const LONG_ROWS: u32 = 256;

// A long row: its table, its key of 1 to 256 bytes, and its value of up to 1,500 bytes.
#[derive(Drop)]
struct LongRow {
    table: Table,
    key: Vec<u8>,
    value: Vec<u8>,
}

// The row with a number, in one of its rounds.
fn long_row(alloc: Global, n: u32, round: u32) -> Result<LongRow, Fail> {
    let n = n % LONG_ROWS;
    let mut key = vec![in alloc; 7u8; (1 + n * 37 % LONG_ROWS) as usize]?;
    key[0] = n as u8;
    let len = (n * 700 + round % 2 * 300) % 1900;
    Ok(LongRow {
        table: Table((1 + n % 2) as u16),
        key,
        value: vec![in alloc; n as u8; len.min(1500) as usize]?,
    })
}

// Carries out a line of a round: two rounds of puts, and one of deletions. False where the answers
// differ.
fn change_long(both: &mut Both, row: &LongRow, round: u32) -> Result<bool, Fail> {
    if round < 2 {
        both.put(row.table, row.key.as_slice(), row.value.as_slice())?;
        Ok(true)
    } else {
        both.del_alike(row.table, row.key.as_slice())
    }
}

// Carries out a round, with the rows in the order that an odd number tells. False where an answer
// differs, or the rows do, which are compared at each fiftieth line and at the end.
fn change_all(alloc: Global, both: &mut Both, round: u32, odd: u32) -> Result<bool, Fail> {
    for i in 0..LONG_ROWS {
        let row = long_row(alloc, i.wrapping_mul(odd), round)?;
        if !change_long(both, &row, round)? {
            return Ok(false);
        }
        let keys = [row.key.as_slice(), &[3], b"k"];
        if i % 50 == 49 && !alike(both, keys)? {
            return Ok(false);
        }
    }
    alike(both, [&[0], &[3], b"k"])
}

#[test]
fn long_rows_split_and_join(rt: HostRuntime) -> Result<(), Fail> {
    let mut both = Both::new(rt.alloc())?;
    assert!(rt;
        change_all(rt.alloc(), &mut both, 0, 165)?,
        "the first puts"
    );
    assert!(rt;
        change_all(rt.alloc(), &mut both, 1, 77)?,
        "the second puts"
    );
    assert!(rt; 15 < both.pages(Table(1))?, "many leaves");
    assert!(rt; change_all(rt.alloc(), &mut both, 2, 203)?, "the deletions");
    for table in TABLES {
        assert_eq!(rt; both.pages(table)?, 0);
    }
    Ok(())
}
