// Tables as lists of leaves on a page store.
ghost use Rattle.std.specs.Prelude.{◌≡◌, ◌&&◌};
ghost use Rattle.mdb_model.specs.Script.{is_table, is_key};
ghost use Rattle.mdb_bytes.specs.Firsts.{first_catalogue};

use crate::area::{new_host, open};
use host_tests::MuteHost;
use leaf_runs::Runs;
use mdb_bytes::{Catalogue, CatalogueEntry, Pages, Rows, encode_catalogue};
use mdb_model::bytes::{KeyBuf, ValueBuf};
use mdb_model::name::Table;
use page_store::PageStore;
use std::alloc::Global;
use std::test::Fail;

// The blocks of the area.
const BLOCKS: u32 = 600;

// The rows of all tables, on a store over its devices.
#[derive(Drop)]
pub(crate) struct StoredRows {
    host: MuteHost,
    store: PageStore,
}

// No table has a row.
fn empty_catalogue() -> Catalogue
    ensures { result ≡ first_catalogue }
{
    Catalogue {
        entries: [CatalogueEntry {
            root: 0,
            pages: 0,
            cost: 0,
        }; 500],
    }
}

// Makes the first page.
fn make_first(store: &mut PageStore, host: &mut MuteHost) -> Result<(), Fail> {
    if store.spare() == 0 {
        return Err(Fail::from("no spare page"));
    }
    match store.view(host).new_page()? {
        0 => Ok(()),
        _ => Err(Fail::from("another page")),
    }
}

// Writes the catalogue of no rows to the first page.
fn write_catalogue(store: &mut PageStore, host: &mut MuteHost) -> Result<(), Fail> {
    if store.spare() == 0 {
        return Err(Fail::from("no spare page"));
    }
    let mut view = store.view(host);
    if !view.lives(0) {
        return Err(Fail::from("no first page"));
    }
    let bytes = view.write(0)?;
    encode_catalogue(&empty_catalogue(), bytes);
    Ok(())
}

// Whether a row may stand at a place.
fn is_place(table: Table, key: &[u8]) -> bool
    ensures { result ≡ (is_table table.0 && is_key key.now) }
{
    1 <= table.0 && table.0 <= 500 && 1 <= key.len() && key.len() <= 256
}

impl StoredRows {
    // No rows.
    pub(crate) fn new(alloc: Global) -> Result<StoredRows, Fail> {
        let mut host = new_host(alloc, BLOCKS)?;
        let (mut store, _) = open(alloc, &mut host)?;
        make_first(&mut store, &mut host)?;
        write_catalogue(&mut store, &mut host)?;
        Ok(StoredRows { host, store })
    }

    // Sets the value of a row.
    pub(crate) fn put(&mut self, table: Table, key: &[u8], value: &[u8]) -> Result<(), Fail> {
        if !is_place(table, key) || 1500 < value.len() || self.store.spare() < 40 {
            return Err(Fail::from("no room for a put"));
        }
        Runs::new(self.store.view(&mut self.host)).put(table, key, value)?;
        Ok(())
    }

    // Takes a row away; false where there is none.
    pub(crate) fn del(&mut self, table: Table, key: &[u8]) -> Result<bool, Fail> {
        if !is_place(table, key) || self.store.spare() < 40 {
            return Err(Fail::from("no room for a deletion"));
        }
        let found = Runs::new(self.store.view(&mut self.host)).del(table, key)?;
        Ok(found)
    }

    // The value of a row; false where there is none.
    pub(crate) fn get(
        &mut self,
        table: Table,
        key: &[u8],
        into: &mut ValueBuf,
    ) -> Result<bool, Fail> {
        if !is_place(table, key) {
            return Err(Fail::from("no place"));
        }
        let found = Runs::new(self.store.view(&mut self.host)).get(table, key, into)?;
        Ok(found)
    }

    // The first row of a table after a key; false where there is none.
    pub(crate) fn scan_next(
        &mut self,
        table: Table,
        after: &KeyBuf,
        key: &mut KeyBuf,
        value: &mut ValueBuf,
    ) -> Result<bool, Fail> {
        if table.0 == 0 || 500 < table.0 {
            return Err(Fail::from("no table"));
        }
        let found = Runs::new(self.store.view(&mut self.host)).scan_next(table, after, key, value)?;
        Ok(found)
    }

    // How many pages a table has.
    pub(crate) fn pages(&mut self, table: Table) -> Result<u32, Fail> {
        if table.0 == 0 || 500 < table.0 {
            return Err(Fail::from("no table"));
        }
        let pages = Runs::new(self.store.view(&mut self.host)).pages(table)?;
        Ok(pages)
    }
}
