//! A keeper of rows whose tables are lists of leaves.
ghost use Rattle.std.specs.Prelude.{◌≡◌, ◌^◌, ◌<◌, ◌≤◌, IsTrue, IfOk, OnOk};
ghost use Rattle.mdb_model.specs.Script.{is_table};
ghost use Rattle.mdb_model.specs.Space.{table_cost};
ghost use Rattle.mdb_bytes.specs.Held.{HasPageCause};
ghost use Rattle.leaf_runs.specs.Runs.{rows_in_pages};
ghost use Rattle.leaf_runs.specs.TableAreas.{IsTableArea};
ghost use Rattle.leaf_runs.specs.Holdings.{holding_of};

use crate::{changing, reading};
use mdb_bytes::{Held, Pages, Rows};
use mdb_model::bytes::{KeyBuf, ValueBuf};
use mdb_model::fault::PageFault;
use mdb_model::name::Table;

/// The rows of all tables as lists of leaves, over a keeper of pages. They are known where the
/// bytes of the pages are, and the catalogue and the leaves on them keep their form. Where `put` or
/// `del` fails, its table may have been left half changed.
#[derive(Drop)]
pub struct Runs<P> {
    /// The pages that the tables stand on. A page that is no part of a table is left as it is.
    pub pages: P,
}

impl<P: Pages> Runs<P> {
    /// The tables that stand on these pages.
    pub fn new(pages: P) -> Runs<P>
        ensures { result.pages ≡ pages }
    {
        Runs { pages }
    }

    /// What the rows of a table cost in the space rule, in bytes: 8, the key and the value for each
    /// row, and 0 for a table without rows. It is for the kernel, which gives it to the space rule
    /// when it opens a database. It reads the catalogue's page alone, however many rows there are,
    /// and writes none. What a fault leaves of the rows is not said.
    pub fn cost(&mut self, table: Table) -> Result<u64, PageFault>
        requires { IsTrue (is_table table.0) }
        ensures cost { P.is_known self.old.pages → IsTableArea (P.pages self.old.pages)
            → IfOk result
            (λ cost. cost
            ≡ table_cost (rows_in_pages (P.pages self.old.pages))
            (rows_in_pages (P.pages self.old.pages)) table.0) }
        ensures small { P.is_known self.old.pages → IsTableArea (P.pages self.old.pages)
            → IfOk result (λ cost. cost < 2 ^ 62) }
        ensures same { P.is_known self.old.pages
            → OnOk result (P.is_known self.new.pages
            × (P.pages self.new.pages ≡ P.pages self.old.pages)) }
        ensures spare { P.spare self.old.pages ≤ P.spare self.new.pages }
        ensures cause { HasPageCause
            (P.is_known self.old.pages × IsTableArea (P.pages self.old.pages))
            (P.faults self.old.pages) (P.faults self.new.pages) result }
        ensures follows { P.follows self.old.pages self.new.pages }
    {
        reading::cost(&mut self.pages, table)
    }
}

impl<P: Pages> Held for Runs<P> {
    ghost is_known = { λ s. P.is_known s.pages × IsTableArea (P.pages s.pages) };

    ghost held = { λ s. holding_of (P.pages s.pages) };

    ghost spare = { λ s. P.spare s.pages };

    ghost faults = { λ s. P.faults s.pages };

    ghost reads_devices = { λ s. Unit {0} };

    ghost follows = { λ a b. P.follows a.pages b.pages };

    ghost follows_itself = { λ a. P.follows_itself a.pages };

    ghost follows_on = { λ a b c f g. P.follows_on a.pages b.pages c.pages f g };
}

impl<P: Pages> Rows for Runs<P> {
    fn get(&mut self, table: Table, key: &[u8], into: &mut ValueBuf) -> Result<bool, PageFault> {
        reading::get(&mut self.pages, table, key, into)
    }

    fn put(&mut self, table: Table, key: &[u8], value: &[u8]) -> Result<(), PageFault> {
        changing::put(&mut self.pages, table, key, value)
    }

    fn del(&mut self, table: Table, key: &[u8]) -> Result<bool, PageFault> {
        changing::del(&mut self.pages, table, key)
    }

    fn scan_next(
        &mut self,
        table: Table,
        after: &KeyBuf,
        key: &mut KeyBuf,
        value: &mut ValueBuf,
    ) -> Result<bool, PageFault> {
        reading::scan_next(&mut self.pages, table, after.as_slice(), key, value)
    }

    fn pages(&mut self, table: Table) -> Result<u32, PageFault> {
        reading::pages(&mut self.pages, table)
    }
}
