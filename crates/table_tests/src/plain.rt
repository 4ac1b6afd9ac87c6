// Rows in a sorted vector, which the tables are compared with.
ghost use Rattle.std.specs.Prelude.{◌<◌, ◌≤◌, IfOk, IfErr, vec_len};

use mdb_model::name::Table;
use std::alloc::Global;
use std::cmp::Ordering;
use std::test::Fail;

// A row of a table.
#[derive(Drop)]
pub(crate) struct Row {
    pub(crate) table: Table,
    pub(crate) key: Vec<u8>,
    pub(crate) value: Vec<u8>,
}

impl Row {
    // How it stands to a place: by table, and then by the bytes of the key.
    fn order(&self, table: Table, key: &[u8]) -> Ordering {
        match self.table.0.cmp(&table.0) {
            Ordering::Equal => self.key.as_slice().cmp(key),
            unequal => unequal,
        }
    }

    // What it adds to the cost of its table.
    fn cost(&self) -> u64 {
        (self.key.len() as u64)
            .saturating_add(self.value.len() as u64)
            .saturating_add(8)
    }
}

// The rows of all tables, in the order of table and key.
#[derive(Drop)]
pub(crate) struct PlainRows {
    alloc: Global,
    rows: Vec<Row>,
}

impl PlainRows {
    // No rows.
    pub(crate) fn new(alloc: Global) -> PlainRows {
        PlainRows {
            alloc,
            rows: Vec::new(alloc),
        }
    }

    // Where a row stands, or where it would go.
    fn search(&self, table: Table, key: &[u8]) -> Result<usize, usize>
        ensures found { IfOk result (λ at. at < vec_len self.now.rows) }
        ensures absent { IfErr result (λ at. at ≤ vec_len self.now.rows) }
    {
        self.rows
            .as_slice()
            .binary_search_by(|row| row.order(table, key))
    }

    // Sets the value of a row.
    pub(crate) fn put(&mut self, table: Table, key: &[u8], value: &[u8]) -> Result<(), Fail> {
        let value = value.to_vec(self.alloc)?;
        match self.search(table, key) {
            Ok(at) => {
                self.rows[at].value = value;
                Ok(())
            }
            Err(at) => {
                let key = key.to_vec(self.alloc)?;
                match self.rows.insert(at, Row { table, key, value }) {
                    Ok(()) => Ok(()),
                    Err(_) => Err(Fail::from("no memory")),
                }
            }
        }
    }

    // Takes a row away; false where there is none.
    pub(crate) fn del(&mut self, table: Table, key: &[u8]) -> bool {
        match self.search(table, key) {
            Ok(at) => {
                self.rows.remove(at);
                true
            }
            Err(_) => false,
        }
    }

    // The value of a row.
    pub(crate) fn get(&self, table: Table, key: &[u8]) -> Option<&[u8]> {
        match self.search(table, key) {
            Ok(at) => Some(self.rows[at].value.as_slice()),
            Err(_) => None,
        }
    }

    // The rows of a table, in order.
    pub(crate) fn rows_of(&self, table: Table) -> &[Row] {
        let rows = self.rows.as_slice();
        let first = rows.partition_point(|row| row.table.0 < table.0);
        let (_, rows) = rows.split_at(first);
        let end = rows.partition_point(|row| row.table.0 == table.0);
        let (rows, _) = rows.split_at(end);
        rows
    }
}

// What the rows cost together.
pub(crate) fn cost(rows: &[Row]) -> u64 {
    let mut cost = 0u64;
    for row in rows {
        cost = cost.saturating_add(row.cost());
    }
    cost
}

// The pages that rows of this cost may have by the space rule.
pub(crate) fn pages_at_most(cost: u64) -> u64 {
    match cost {
        0 => 0,
        1..=8128 => 1,
        _ => cost.saturating_mul(3).div_ceil(8128).saturating_add(4),
    }
}
