//! Rows on the pages of a store, and the log on its devices from the next group on.
ghost use Rattle.std.specs.Prelude.{◌≡◌, ◌+◌, ◌-◌, refl};
ghost use Rattle.std.proofs.Common.{◌∙◌};
ghost use Rattle.page_store.specs.Store.{spare_of};
ghost use Rattle.page_store.specs.Steps.{KeepsStore};
ghost use Rattle.page_store.specs.StepLaws.{keeps_itself, keeps_further};
ghost use Rattle.store_rows.specs.StoredRows.{HasRows};
ghost use Rattle.redo_ring.specs.Reading.{IsReader};
ghost use Rattle.page_ground.specs.LogKnown.{held_in, IsLogKnown, ReadsOn};
ghost use Rattle.page_ground.specs.LogLaws.{reads_itself, reads_further, less_left};
ghost use Rattle.page_ground.specs.Readers.{reader_prop};

use crate::set_point::SetPoint;
use mdb_bytes::{GroupBuf, Held, LogRead, Rows};
use mdb_host::Host;
use mdb_model::bytes::{KeyBuf, ValueBuf};
use mdb_model::fault::PageFault;
use mdb_model::name::Table;
use page_store::{PageStore, RecordInForce};
use redo_ring::RingReader;
use store_rows::{del_row, get_row, next_row_of, pages_of_table, put_row};

/// Rows on the pages of a store, and the log on its devices. After a fault of a device in `put` or
/// `del` what is left of the rows is not said.
#[derive(Drop)]
pub struct PageGround<'a, H> {
    pub store: &'a mut PageStore,
    pub host: &'a mut H,
    /// The slots and the restart record of the last savepoint.
    pub in_force: &'a mut RecordInForce,
    /// The log, from the next group on.
    pub reader: RingReader,
    /// How far the log is set on the rows.
    pub set: SetPoint,
    pub ghost order: { IsReader reader } by { reader_prop reader },
}

impl<'a, H: Host> Held for PageGround<'a, H> {
    ghost is_known = { λ s. HasRows H.tells s.store.now (H.disk s.host.now).seen
        × IsLogKnown H.tells s.reader (H.disk s.host.now).seen };

    ghost held = { λ s. held_in s.store.now s.reader (H.disk s.host.now).seen };

    ghost spare = { λ s. spare_of s.store.now };

    ghost faults = { λ s. H.faults s.host.now };

    ghost reads_devices = { λ s. Unit {0} };

    ghost follows = { λ a b. (b.store.ghost_name ≡ a.store.ghost_name)
        × (b.host.ghost_name ≡ a.host.ghost_name)
        × (b.in_force.ghost_name ≡ a.in_force.ghost_name)
        × (b.in_force.now ≡ a.in_force.now)
        × (b.set ≡ a.set)
        × KeepsStore H.tells a.store.now b.store.now (H.disk a.host.now) (H.disk b.host.now)
        × (H.say_faults b.host.now ≡ H.say_faults a.host.now)
        × ReadsOn H.tells a.reader b.reader (H.disk a.host.now).seen (H.disk b.host.now).seen };

    ghost follows_itself = { λ a. (
      refl,
      refl,
      refl,
      refl,
      refl,
      keeps_itself H.tells a.store.now (H.disk a.host.now),
      refl,
      reads_itself H.tells a.reader (H.disk a.host.now).seen,
    ) };

    ghost follows_on = { λ a b c f g. (
      g.0 ∙ f.0,
      g.1 ∙ f.1,
      g.2 ∙ f.2,
      g.3 ∙ f.3,
      g.4 ∙ f.4,
      keeps_further H.tells a.store.now b.store.now c.store.now
          (H.disk a.host.now) (H.disk b.host.now) (H.disk c.host.now) f.5 g.5,
      g.6 ∙ f.6,
      reads_further H.tells a.reader b.reader c.reader
          (H.disk a.host.now).seen (H.disk b.host.now).seen (H.disk c.host.now).seen f.7 g.7,
    ) };
}

impl<'a, H: Host> Rows for PageGround<'a, H> {
    fn get(&mut self, table: Table, key: &[u8], into: &mut ValueBuf) -> Result<bool, PageFault> {
        get_row(self.store, self.host, table, key, into)
    }

    fn put(&mut self, table: Table, key: &[u8], value: &[u8]) -> Result<(), PageFault> {
        put_row(self.store, self.host, table, key, value)
    }

    fn del(&mut self, table: Table, key: &[u8]) -> Result<bool, PageFault> {
        del_row(self.store, self.host, table, key)
    }

    fn scan_next(
        &mut self,
        table: Table,
        after: &KeyBuf,
        key: &mut KeyBuf,
        value: &mut ValueBuf,
    ) -> Result<bool, PageFault> {
        next_row_of(self.store, self.host, table, after, key, value)
    }

    fn pages(&mut self, table: Table) -> Result<u32, PageFault> {
        pages_of_table(self.store, self.host, table)
    }
}

impl<'a, H: Host> LogRead for PageGround<'a, H> {
    ghost left = { λ s. (s.reader.start + s.reader.size) - s.reader.position };

    fn next(&mut self, into: &mut GroupBuf) -> Result<bool, PageFault> {
        self.reader.next_if_there(self.host, into)
    }

    ghost reads_on = { λ a b f. less_left f.7 };
}
