//! The restart record in force: whoever has it makes whole savepoints.
ghost use Rattle.std.specs.Prelude.{◌≡◌, ℕ, ◌+◌, ◌≤◌, ◌<◌, ◌^◌, IfErr, OnOk};
ghost use Rattle.mdb_model.specs.Causes.{HasCause};
ghost use Rattle.mdb_model.specs.declared.fault.Device.TheVariants.{Log};
ghost use Rattle.converter.specs.Maps.{block_of};
ghost use Rattle.page_store.specs.Store.{spare_of, page_block};
ghost use Rattle.page_store.specs.Stamps.{AreStamped};
ghost use Rattle.page_store.specs.LogicalPages.{store_pages};
ghost use Rattle.page_store.specs.SavingStays.{numbers_left};
ghost use Rattle.page_store.specs.WholeSavepoint.{CanSave, Saves, IsSameArea, IsSaved, next_record, saved_page, present_page, spare_after};

use crate::keeping::keep_map;
use crate::store::PageStore;
use gate_slots::Slots;
use mdb_bytes::RestartRecord;
use mdb_host::Host;
use mdb_model::fault::PageFault;
use savepoint::Mark;

/// The restart record of the last savepoint, and the slots that hold it.
#[derive(Drop)]
pub struct RecordInForce {
    /// The two slots, in pages 0 and 1 of the first data volume.
    pub slots: Slots,
    /// The record that counts in them.
    pub record: RestartRecord,
}

impl RecordInForce {
    /// Makes a savepoint of the pages as they are, with all commits up to the number `commit`, after
    /// which the log goes on at `position` (bytes). At each moment each image that a crash may leave
    /// stands for the last record and its map, or for the next ones. After a fault of a device it is
    /// not known for which, and no further savepoint can be made: the caller goes offline.
    pub fn savepoint<H: Host>(
        &mut self,
        store: &mut PageStore,
        host: &mut H,
        commit: u64,
        position: u64,
    ) -> Result<(), PageFault>
        requires ready { CanSave H.tells self.old.slots self.old.record store.old
            (H.disk host.old) }
        requires next { store.old.next + 1 < 2 ^ 62 }
        requires slot { self.old.record.slot + 1 < 2 ^ 62 }
        requires commit { commit < 2 ^ 62 }
        requires position { position < 2 ^ 62 }
        ensures saves { H.tells → Saves store.old self.old.slots self.old.record commit position
            (H.disk host.old) (H.disk host.new) }
        ensures ready { OnOk result (CanSave H.tells self.new.slots self.new.record store.new
            (H.disk host.new)) }
        ensures named { OnOk result (self.new.record
            ≡ next_record self.old.record store.old.next commit position
            (block_of store.new.maps.saved 0)) }
        //
        // The pages are as they were, and the last savepoint has them.
        ensures area { IsSameArea store.old store.new }
        ensures saved { OnOk result (IsSaved store.old store.new) }
        ensures pages { OnOk result (H.tells → store_pages store.new (H.disk host.new).seen
            ≡ store_pages store.old (H.disk host.old).seen) }
        ensures bytes { OnOk result (H.tells → (page : ℕ) → 0 < page_block store.old page
            → saved_page store.new (H.disk host.new).seen page
            ≡ present_page store.old (H.disk host.old).seen page) }
        ensures spare { OnOk result (spare_of store.new ≡ spare_after store.old) }
        ensures stamped { OnOk result (AreStamped store.old → AreStamped store.new) }
        ensures elsewhere { H.tells → (H.disk host.new).seen Log ≡ (H.disk host.old).seen Log }
        ensures numbers { numbers_left self.old.record store.old
            ≤ numbers_left self.new.record store.new + 1 }
        //
        ensures cause { HasCause (H.faults host.old) (H.faults host.new) result }
        ensures fault { IfErr result (λ fault. fault ≡ PageFault.Failed) }
        ensures say_faults { H.say_faults host.new ≡ H.say_faults host.old }
    {
        // Opens the invariant.
        let _old = store.blocks();
        let mark = Mark {
            savepoint: store.next(),
            commit,
            position,
        };
        let state = keep_map(store, host, mark)?;
        // Opens the invariant.
        let _frozen = store.blocks();
        self.record.slot += 1;
        self.record.savepoint = mark.savepoint;
        self.record.commit = commit;
        self.record.position = position;
        self.record.root = state.root();
        match store.switch(host, state, &mut self.slots, &self.record) {
            Ok(state) => {
                store.release(state);
                // Opens the invariant.
                let _blocks = store.blocks();
                Ok(())
            }
            Err(_) => Err(PageFault::Failed),
        }
    }
}
