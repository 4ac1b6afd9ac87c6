//! Room for the commits of a log: savepoints that leave what the devices stand for.
ghost use Rattle.std.specs.Prelude.{◌≡◌, ℕ, ◌+◌, ◌≤◌, ◌<◌, ◌^◌, min, OnOk, IfErr, refl};
ghost use Rattle.std.proofs.Common.{◌∙◌, sym, subst, ap};
ghost use Rattle.mdb_model.specs.Causes.{HasCause};
ghost use Rattle.mdb_model.specs.declared.fault.Device.TheVariants.{Log};
ghost use Rattle.mdb_host.specs.Disk.{Keeps};
ghost use Rattle.mdb_bytes.specs.declared.restart_record.RestartRecord.{RestartRecord};
ghost use Rattle.gate_slots.specs.declared.slots.Slots.{Slots};
ghost use Rattle.page_store.specs.SavingStays.{stays, numbers_left, numbers_same};
ghost use Rattle.page_store.specs.Store.{spare_of, block_count};
ghost use Rattle.page_store.specs.WholeSavepoint.{CanSave, IsSameArea, spare_after};
ghost use Rattle.restart.specs.Redone.{IsOnTheWay};
ghost use Rattle.store_rows.specs.StoredRows.{stored_rows, HasRows};
ghost use Rattle.standing.specs.Looks.{look};
ghost use Rattle.kept_worlds.specs.InService.{HasRoomToSet};
ghost use Rattle.page_ground.specs.LogKnown.{held_in, IsLogKnown, ReadsOn};
ghost use Rattle.page_ground.specs.LogLaws.{reads_itself, reads_further};
ghost use Rattle.page_ground.specs.Aims.{rows_shown, undone_in, StandsForWorld, KeepsWorlds};
ghost use Rattle.page_ground.specs.AimLaws.{calls_keep_all, keeps_further, keeps_through, log_stays, room_rest};

use crate::ground::PageGround;
use crate::set_point::SetPoint;
use mdb_host::Host;
use mdb_model::fault::{Damage, Device, PageFault, Rule};
use restart::Ground;

// The greatest number that a record may have.
const LAST_NUMBER: u64 = (1 << 62) - 1;

// The spare pages that a change of a row may need, with those of a savepoint before it.
const SPARE_PAGES: u32 = 64;

impl<'a, H: Host> PageGround<'a, H> {
    // Makes a savepoint of the rows as they are, with all commits that are set.
    fn save(&mut self) -> Result<(), PageFault>
        requires ready { CanSave H.tells self.old.in_force.now.slots self.old.in_force.now.record
            self.old.store.now (H.disk self.old.host.now) }
        requires numbers { 0 < numbers_left self.old.in_force.now.record self.old.store.now }
        ensures ready { OnOk result (CanSave H.tells self.new.in_force.now.slots
            self.new.in_force.now.record self.new.store.now (H.disk self.new.host.now)) }
        ensures numbers { numbers_left self.old.in_force.now.record self.old.store.now
            ≤ numbers_left self.new.in_force.now.record self.new.store.now + 1 }
        ensures spare { OnOk result (spare_of self.new.store.now ≡ spare_after self.old.store.now) }
        ensures same { HasRows H.tells self.old.store.now (H.disk self.old.host.now).seen
            → IsLogKnown H.tells self.old.reader (H.disk self.old.host.now).seen
            → OnOk result ((HasRows H.tells self.new.store.now (H.disk self.new.host.now).seen
            × IsLogKnown H.tells self.new.reader (H.disk self.new.host.now).seen)
            × (held_in self.new.store.now self.new.reader (H.disk self.new.host.now).seen
            ≡ held_in self.old.store.now self.old.reader (H.disk self.old.host.now).seen)) }
        ensures kept { HasRows H.tells self.old.store.now (H.disk self.old.host.now).seen
            → StandsForWorld H.tells self.old.in_force.now.slots self.old.in_force.now.record
            self.old.reader self.old.set self.old.store.now (H.disk self.old.host.now)
            → IsOnTheWay (HasRoomToSet (block_count self.old.store.now))
            (rows_shown (look (H.disk self.old.host.now).seen))
            (undone_in self.old.reader self.old.set (H.disk self.old.host.now).seen)
            (stored_rows self.old.store.now (H.disk self.old.host.now).seen)
            → KeepsWorlds (H.disk self.old.host.now) (H.disk self.new.host.now)
            × OnOk result (StandsForWorld H.tells self.new.in_force.now.slots
            self.new.in_force.now.record self.new.reader self.new.set self.new.store.now
            (H.disk self.new.host.now)
            × (rows_shown (look (H.disk self.new.host.now).seen)
            ≡ rows_shown (look (H.disk self.old.host.now).seen))
            × (undone_in self.new.reader self.new.set (H.disk self.new.host.now).seen
            ≡ undone_in self.old.reader self.old.set (H.disk self.old.host.now).seen)) }
        ensures reader { self.new.reader ≡ self.old.reader }
        ensures set { self.new.set ≡ self.old.set }
        ensures reads { ReadsOn H.tells self.old.reader self.new.reader
            (H.disk self.old.host.now).seen (H.disk self.new.host.now).seen }
        ensures log { H.tells
            → (H.disk self.new.host.now).seen Log ≡ (H.disk self.old.host.now).seen Log }
        ensures keeps { H.tells
            → Keeps (H.disk self.old.host.now) (H.disk self.new.host.now) }
        ensures area { IsSameArea self.old.store.now self.new.store.now }
        ensures names { (self.new.store.ghost_name ≡ self.old.store.ghost_name)
            × (self.new.host.ghost_name ≡ self.old.host.ghost_name)
            × (self.new.in_force.ghost_name ≡ self.old.in_force.ghost_name) }
        ensures cause { HasCause (H.faults self.old.host.now) (H.faults self.new.host.now) result }
        ensures fault { IfErr result (λ fault. fault ≡ PageFault.Failed) }
        ensures say_faults { H.say_faults self.new.host.now ≡ H.say_faults self.old.host.now }
    {
        // Opens the invariant.
        let _before = self.store.blocks();
        let commit = self.set.commit.min(LAST_NUMBER);
        let position = self.set.position.min(LAST_NUMBER);
        self.in_force
            .savepoint(self.store, self.host, commit, position)?;
        // Opens the invariant.
        let _after = self.store.blocks();
        Ok(())
    }
}

impl<'a, H: Host> Ground for PageGround<'a, H> {
    ghost aim = { λ s. rows_shown (look (H.disk s.host.now).seen) };

    ghost undone = { λ s. undone_in s.reader s.set (H.disk s.host.now).seen };

    ghost stands = { λ s. StandsForWorld H.tells s.in_force.now.slots s.in_force.now.record
        s.reader s.set s.store.now (H.disk s.host.now) };

    ghost last_done = { λ s. s.set.commit };

    ghost numbers = { λ s. numbers_left s.in_force.now.record s.store.now };

    ghost spare_after_savepoint = { λ s. spare_after s.store.now };

    ghost comes_after = { λ a b. (b.store.ghost_name ≡ a.store.ghost_name)
        × (b.host.ghost_name ≡ a.host.ghost_name)
        × (b.in_force.ghost_name ≡ a.in_force.ghost_name)
        × (H.say_faults b.host.now ≡ H.say_faults a.host.now)
        × IsSameArea a.store.now b.store.now
        × ReadsOn H.tells a.reader b.reader (H.disk a.host.now).seen (H.disk b.host.now).seen
        × (H.tells → (H.disk b.host.now).seen Log ≡ (H.disk a.host.now).seen Log)
        × (H.tells → Keeps (H.disk a.host.now) (H.disk b.host.now)) };

    ghost can_save = { λ s. CanSave H.tells s.in_force.now.slots s.in_force.now.record
        s.store.now (H.disk s.host.now) };

    ghost fits = { λ s commits rows. HasRoomToSet (block_count s.store.now) commits rows };

    ghost keeps_aim = { λ a b. KeepsWorlds (H.disk a.host.now) (H.disk b.host.now) };

    ghost keeps_by_calls = { λ a b f stand. calls_keep_all H.tells
        a.in_force.now.slots a.in_force.now.record b.in_force.now.slots b.in_force.now.record
        a.reader b.reader a.set b.set a.store.now b.store.now (H.disk a.host.now)
        (H.disk b.host.now) (H.seen_left a.host.now) (H.seen_left b.host.now)
        (ap (λ x. x.slots) f.3) (ap (λ x. x.record) f.3) f.5 f.7 f.4 stand };

    ghost saves_on = { λ a b f can. subst
        (λ (x : Slots × RestartRecord). CanSave H.tells x.0 x.1 b.store.now (H.disk b.host.now))
        (λ i. ((sym f.3 i).slots, (sym f.3 i).record))
        (stays H.tells a.in_force.now.slots a.in_force.now.record a.store.now b.store.now
        (H.disk a.host.now) (H.disk b.host.now) f.5 can) };

    ghost keeps_numbers = { λ a b f. (λ i. numbers_left (f.3 i).record b.store.now)
        ∙ numbers_same H.tells a.in_force.now.record a.store.now b.store.now (H.disk a.host.now)
        (H.disk b.host.now) f.5 };

    ghost keeps_last = { λ a b f. ap (λ (x : _). x.commit) f.4 };

    ghost kept_on = { λ a b c one aim two. keeps_further (H.disk a.host.now)
        (H.disk b.host.now) (H.disk c.host.now) one two };

    ghost comes_by_calls = { λ a b f. (
      f.0,
      f.1,
      f.2,
      f.6,
      record { sizes = f.5.maps.sizes; conv = f.5.maps.conv; area = f.5.maps.area },
      f.7,
      log_stays H.tells a.store.now b.store.now (H.disk a.host.now) (H.disk b.host.now) f.5,
      λ told. (f.5.goes told).keeps,
    ) };

    ghost comes_on = { λ a b c f g. (
      g.0 ∙ f.0,
      g.1 ∙ f.1,
      g.2 ∙ f.2,
      g.3 ∙ f.3,
      record {
        sizes = g.4.sizes ∙ f.4.sizes;
        conv = g.4.conv ∙ f.4.conv;
        area = g.4.area ∙ f.4.area;
      },
      reads_further H.tells a.reader b.reader c.reader (H.disk a.host.now).seen
          (H.disk b.host.now).seen (H.disk c.host.now).seen f.5 g.5,
      λ told. g.6 told ∙ f.6 told,
      λ told. keeps_through (H.disk a.host.now) (H.disk b.host.now) (H.disk c.host.now)
          (f.7 told) (g.7 told),
    ) };

    ghost fits_on = { λ a b f commits rows room. subst
        (λ n. HasRoomToSet n commits rows) (sym f.4.area) room };

    ghost fits_rest = { λ a commit commits rows room. room_rest (block_count a.store.now) commit
        commits rows room };

    fn room(&mut self) -> Result<(), PageFault> {
        if SPARE_PAGES <= self.store.spare() {
            return Ok(());
        }
        self.save()?;
        if SPARE_PAGES <= self.store.spare() {
            return Ok(());
        }
        Err(PageFault::Damaged(Damage {
            device: Device::Data(1),
            page: 0,
            rule: Rule::Room,
        }))
    }

    fn done(&mut self, commit: u64) {
        self.set = SetPoint {
            commit,
            position: self.reader.position,
        };
    }
}
