// Rows in stored tables and in a plain vector, which are to be the same.
use crate::plain::{PlainRows, Row, cost, pages_at_most};
use crate::stored::StoredRows;
use mdb_model::bytes::{KeyBuf, ValueBuf};
use mdb_model::name::Table;
use std::alloc::Global;
use std::mem::swap;
use std::test::Fail;

// The same rows twice.
#[derive(Drop)]
pub(crate) struct Both {
    stored: StoredRows,
    plain: PlainRows,
}

// Whether a scan of a table gives these rows and no more.
fn scans(stored: &mut StoredRows, table: Table, rows: &[Row]) -> Result<bool, Fail> {
    let mut after = KeyBuf::new();
    let mut key = KeyBuf::new();
    let mut value = ValueBuf::new();
    for row in rows {
        if !stored.scan_next(table, &after, &mut key, &mut value)? {
            return Ok(false);
        }
        if key.as_slice() != row.key.as_slice() || value.as_slice() != row.value.as_slice() {
            return Ok(false);
        }
        swap(&mut after, &mut key);
    }
    Ok(!stored.scan_next(table, &after, &mut key, &mut value)?)
}

impl Both {
    // No rows.
    pub(crate) fn new(alloc: Global) -> Result<Both, Fail> {
        Ok(Both {
            stored: StoredRows::new(alloc)?,
            plain: PlainRows::new(alloc),
        })
    }

    // Sets the value of a row in both.
    pub(crate) fn put(&mut self, table: Table, key: &[u8], value: &[u8]) -> Result<(), Fail> {
        self.stored.put(table, key, value)?;
        self.plain.put(table, key, value)
    }

    // Takes a row away in both; false where they answer otherwise.
    pub(crate) fn del_alike(&mut self, table: Table, key: &[u8]) -> Result<bool, Fail> {
        let found = self.stored.del(table, key)?;
        Ok(found == self.plain.del(table, key))
    }

    // Whether both have the same at a key.
    pub(crate) fn get_alike(&mut self, table: Table, key: &[u8]) -> Result<bool, Fail> {
        let mut value = ValueBuf::new();
        let found = self.stored.get(table, key, &mut value)?;
        match self.plain.get(table, key) {
            Some(plain) => Ok(found && value.as_slice() == plain),
            None => Ok(!found),
        }
    }

    // Whether both have the same rows of a table, on no more pages than the space rule lets them.
    pub(crate) fn rows_alike(&mut self, table: Table) -> Result<bool, Fail> {
        let rows = self.plain.rows_of(table);
        let pages = self.stored.pages(table)?;
        Ok(scans(&mut self.stored, table, rows)? && pages as u64 <= pages_at_most(cost(rows)))
    }

    // How many rows a table has.
    pub(crate) fn len(&self, table: Table) -> usize {
        self.plain.rows_of(table).len()
    }

    // How many pages a table has.
    pub(crate) fn pages(&mut self, table: Table) -> Result<u32, Fail> {
        self.stored.pages(table)
    }
}
