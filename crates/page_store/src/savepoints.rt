//! Savepoints of a store: the steps of the states, over what the store has itself.
ghost use Rattle.std.specs.Prelude.{◌≡◌, ◌≢◌, ◌⊎◌, ℕ, ◌+◌, ◌-◌, ◌*◌, ◌<◌, ◌≤◌, ◌^◌, if◌then◌else◌};
ghost use Rattle.std.specs.Prelude.{List, length, get_or, None, Some, Err, IsTrue, IfOk, IfErr};
ghost use Rattle.std.specs.Prelude.{OnOk, OnErr, slice_set, true, false};
ghost use Rattle.mdb_model.specs.Causes.{Rose, HasCause};
ghost use Rattle.mdb_model.specs.Images.{Image};
ghost use Rattle.mdb_host.specs.Disk.{Goes, Agree, Calls, Arrives, IsWithin};
ghost use Rattle.mdb_bytes.specs.declared.converter_pages.ConverterEntry.{ConverterEntry};
ghost use Rattle.mdb_bytes.specs.Parts.{KeepsLimits};
ghost use Rattle.mdb_bytes.specs.SlotRecords.{restart_format};
ghost use Rattle.gate_slots.specs.declared.body.SlotBody.TheVariants.{Restart};
ghost use Rattle.gate_slots.specs.Slots.{IsReady};
ghost use Rattle.gate_slots.specs.Steps.{Switches, HasSwitched};
ghost use Rattle.free_blocks.specs.Free.{IsFree, free_count};
ghost use Rattle.volume_disk.specs.Blocks.{IsArea, Writes, block_at, IsDurable};
ghost use Rattle.converter.specs.Maps.{Maps, IsSoundMaps, block_of, Leaves, FreesLeaving, frozen_as_saved};
ghost use Rattle.converter.specs.Tree.{HasTree};
ghost use Rattle.converter.specs.Own.{OwnOnly, Fewer, TakesForFrozen, SavedLeaves};
ghost use Rattle.savepoint.specs.Calls.{WritesConverter, MaySwitch, SwitchesOver};
ghost use Rattle.savepoint.specs.Stands.{restart_place, HasSavepoint, AtSwitch, IsMapPlaced, HoldsMap};
ghost use Rattle.savepoint.specs.Stands.{KeepsMapBlocks as KeepsImages};
ghost use Rattle.page_store.specs.Store.{Store, IsStore, block_count, frozen_block, frame_of};
ghost use Rattle.page_store.specs.Store.{has_changed, block_bytes, FramesMatch, IsKnown};
ghost use Rattle.page_store.specs.Steps.{KeepsStore, CleansFrames, frozen_now, TurnsPage, OwnAsSaved};
ghost use Rattle.page_store.specs.Steps.{is_unwritten, unwritten, unwritten_below, HasPages};

use crate::store::{FrameState, PageStore};
use gate_slots::Slots;
use mdb_bytes::RestartRecord;
use mdb_host::{Failed, Host};
use mdb_model::fault::PageFault;
use savepoint::{ConverterWritten, Frozen, Mark, PagesWritten, Switched};

impl PageStore {
    /// Freezes the present map for a savepoint. A page that is written from then on has the number
    /// after the savepoint's.
    pub fn begin_savepoint(&mut self, mark: Mark) -> Frozen
        requires none { self.old.maps.frozen_at ≡ None }
        requires next { mark.savepoint ≡ self.old.next }
        requires small { mark.savepoint + 1 < 2 ^ 62 }
        // The result.
        ensures mark { result.mark ≡ mark }
        ensures map { result.map.savepoint ≡ mark.savepoint }
        ensures frozen { self.new ≡ frozen_now self.old }
        ensures own { OwnAsSaved self.new.maps }
        ensures reads { (seen : Image) → FramesMatch self.old seen → FramesMatch self.new seen }
    {
        // Opens the invariant of the store.
        let _blocks = self.blocks();
        let map = self.converter.freeze(mark.savepoint);
        self.next = mark.savepoint + 1;
        Frozen::begin(map, mark)
    }

    // Writes the newer frame of a block to it.
    fn write_frame<H: Host>(&mut self, host: &mut H, block: u32) -> Result<(), Failed>
        requires below { block < block_count self.old }
        requires changed { has_changed self.old block ≡ true }
        requires there { H.tells → IsArea self.old.sizes (H.disk host.old).seen }
        ensures ok { OnOk result
            (self.new ≡ record self.old { changed = slice_set self.old.changed block false }) }
        ensures err { OnErr result (self.new ≡ self.old) }
        ensures calls { H.tells
            → Calls (H.disk host.old) (H.disk host.new) (Writes self.old.sizes (λ c. c ≡ block)) }
        ensures written { OnOk result
            (H.tells
            → frame_of self.old block ≡ Some (block_at self.old.sizes (H.disk host.new).seen block)) }
        ensures cause { HasCause (H.faults host.old) (H.faults host.new) result }
        ensures say_faults { H.say_faults host.new ≡ H.say_faults host.old }
    {
        self.volumes
            .write_block(host, block, &self.frames[block as usize])?;
        self.states[block as usize] = FrameState::Same;
        Ok(())
    }

    // Whether a block has a newer frame.
    fn is_newer(&self, block: u32) -> bool
        requires { block < block_count self.now }
        ensures { result ≡ has_changed self.now block }
    {
        match self.states[block as usize] {
            FrameState::Changed => true,
            FrameState::Same | FrameState::Absent => false,
        }
    }

    // The block of a frozen page, or 0.
    fn frozen_at(&self, page: u32) -> u32
        requires { page < block_count self.now }
        ensures block { result ≡ frozen_block self.now page }
        ensures below { result < block_count self.now }
        ensures sound { IsSoundMaps self.now.maps }
        ensures store { IsStore self.now }
    {
        // Opens the invariant of the store.
        let _blocks = self.blocks();
        self.converter.frozen_block(page)
    }

    // Writes the frozen page of a number where it is not on its block yet and that may be done: how
    // many were written, and how many are left.
    fn turn_page<H: Host>(
        &mut self,
        host: &mut H,
        page: u32,
        may: bool,
    ) -> Result<(u32, u32), PageFault>
        requires below { page < block_count self.old }
        requires there { H.tells → IsArea self.old.sizes (H.disk host.old).seen }
        // The result.
        ensures turns { TurnsPage H.tells self.old self.new (H.disk host.old) (H.disk host.new)
            page }
        ensures done { IfOk result
            (λ r. r.0 + r.1 ≡ (if is_unwritten self.old page then 1 else 0)) }
        ensures left { IfOk result (λ r. r.1 ≡ (if is_unwritten self.new page then 1 else 0)) }
        ensures all { IfOk result (λ r. may ≡ true → r.1 ≡ 0) }
        ensures none { IfOk result (λ r. may ≡ false → r.0 ≡ 0) }
        // The faults.
        ensures cause { HasCause (H.faults host.old) (H.faults host.new) result }
        ensures fault { IfErr result (λ fault. fault ≡ PageFault.Failed) }
        ensures say_faults { H.say_faults host.new ≡ H.say_faults host.old }
    {
        let block = self.frozen_at(page);
        if !self.is_newer(block) {
            return Ok((0, 0));
        }
        if !may {
            return Ok((0, 1));
        }
        match self.write_frame(host, block) {
            Ok(()) => Ok((1, 0)),
            Err(_) => Err(PageFault::Failed),
        }
    }

    /// Writes `most` of the frozen pages that are not on their blocks yet, or all if fewer are
    /// left, and answers how many are left then. They are durable after `pages_done`. After a fault
    /// of a device some of them were written.
    pub fn turn_savepoint<H: Host>(&mut self, host: &mut H, most: u32) -> Result<u32, PageFault>
        requires { H.tells → IsArea self.old.sizes (H.disk host.old).seen }
        // The result.
        ensures turned { CleansFrames self.old self.new }
        ensures keeps { KeepsStore H.tells self.old self.new (H.disk host.old) (H.disk host.new) }
        ensures left { IfOk result (λ n. n ≡ unwritten self.old - most) }
        ensures now { IfOk result (λ n. unwritten self.new ≡ n) }
        ensures done { IfOk result (λ n. n ≡ 0 → (page : ℕ) → is_unwritten self.new page ≡ false) }
        // The faults.
        ensures cause { HasCause (H.faults host.old) (H.faults host.new) result }
        ensures fault { IfErr result (λ fault. fault ≡ PageFault.Failed) }
        ensures say_faults { H.say_faults host.new ≡ H.say_faults host.old }
    {
        let mut written = 0;
        let mut left = 0;
        for page in 0..self.blocks() {
            let (done, kept) = self.turn_page(host, page, written < most)?;
            written += done;
            left += kept;
        }
        // Opens the invariant of the store.
        let _blocks = self.blocks();
        Ok(left)
    }

    /// Makes the devices keep each block, once no frozen page is left to be written.
    pub fn pages_done<H: Host>(
        &mut self,
        host: &mut H,
        state: Frozen,
    ) -> Result<PagesWritten, (Frozen, Failed)>
        requires { H.tells → IsArea self.old.sizes (H.disk host.old).seen }
        // The result.
        ensures same { self.new ≡ self.old }
        ensures goes { H.tells → Goes (H.disk host.old) (H.disk host.new) Agree }
        ensures seen { H.tells → Agree (H.disk host.old).seen (H.disk host.new).seen }
        ensures settled { OnOk result (H.tells → IsDurable self.old.sizes (H.disk host.new)) }
        ensures known { IsKnown H.tells self.old (H.disk host.old).seen
            → IsKnown H.tells self.new (H.disk host.new).seen }
        // Each image has what stands on the frozen pages, where all of them were written.
        ensures pages { OnOk result
            (IsKnown H.tells self.old (H.disk host.old).seen
            → ((page : ℕ) → is_unwritten self.old page ≡ false) → (image : Image)
            → (H.disk host.new).may_leave (H.disk host.new).now image
            → HasPages self.old.sizes self.old.maps.frozen self.old.maps.conv
            (λ page. block_bytes self.old (H.disk host.old).seen (frozen_block self.old page))
            image) }
        ensures next { IfOk result (λ s. (s.map ≡ state.map) × (s.mark ≡ state.mark)) }
        ensures back { IfErr result (λ e. (e.0.map ≡ state.map) × (e.0.mark ≡ state.mark)) }
        // The faults.
        ensures cause { HasCause (H.faults host.old) (H.faults host.new) result }
        ensures say_faults { H.say_faults host.new ≡ H.say_faults host.old }
    {
        // Opens the invariant of the store.
        let _blocks = self.blocks();
        state.pages_done(host, &self.volumes)
    }

    /// Writes the changed leaves and the root of the frozen map to free blocks, durably. After an
    /// error some of these pages have new blocks, which may hold any bytes.
    pub fn write_converter<H: Host>(
        &mut self,
        host: &mut H,
        state: PagesWritten,
    ) -> Result<ConverterWritten, (PagesWritten, Failed)>
        requires frozen { self.old.maps.frozen_at ≡ Some state.map.savepoint }
        requires room { self.old.maps.conv ≤ free_count self.old.free }
        requires later { OwnAsSaved self.old.maps }
        requires there { H.tells → IsArea self.old.sizes (H.disk host.old).seen }
        requires saved { H.tells
            → SavedLeaves self.old.maps (block_at self.old.sizes (H.disk host.old).seen) }
        // The result.
        ensures same { self.new ≡ record self.old { maps = self.new.maps; free = self.new.free } }
        ensures writes { WritesConverter H.tells self.old.sizes self.old.maps self.new.maps
            self.old.free self.new.free (H.disk host.old) (H.disk host.new) result }
        ensures next { IfOk result
            (λ s. (s.map ≡ state.map) × (s.mark ≡ state.mark)
            × (s.root ≡ block_of self.new.maps.frozen 0)) }
        ensures back { IfErr result (λ e. (e.0.map ≡ state.map) × (e.0.mark ≡ state.mark)) }
        ensures known { IsKnown H.tells self.old (H.disk host.old).seen
            → IsKnown H.tells self.new (H.disk host.new).seen }
        ensures held { OnOk result
            (H.tells → (image : Image) → (H.disk host.new).may_leave (H.disk host.new).now image
            → HasTree self.new.maps.frozen self.new.maps.conv (block_at self.old.sizes image)) }
        // Where each image has had what stands on the frozen pages, each holds the whole frozen
        // map.
        ensures holds { OnOk result
            (H.tells → (pages : ℕ → List ℕ)
            → ((image : Image) → (H.disk host.old).may_leave (H.disk host.old).now image
            → HasPages self.old.sizes self.old.maps.frozen self.old.maps.conv pages image)
            → (image : Image) → (H.disk host.new).may_leave (H.disk host.new).now image
            → HoldsMap self.old.sizes self.new.maps.frozen self.new.maps.conv pages image) }
        // At each moment each image has the slots and stands for the map that it stood for, where
        // no block of that is free.
        ensures kept { H.tells
            → Goes (H.disk host.old) (H.disk host.new) (KeepsImages self.old.sizes self.old.free) }
        // The faults.
        ensures cause { HasCause (H.faults host.old) (H.faults host.new) result }
        ensures say_faults { H.say_faults host.new ≡ H.say_faults host.old }
    {
        // Opens the invariant of the store.
        let _blocks = self.blocks();
        let written = state.write_converter(
            host,
            &self.volumes,
            &mut self.converter,
            &mut self.free,
        );
        // Opens the invariant of the maps.
        let _leaves = self.converter.leaves();
        written
    }

    /// Makes the frozen map that of the last savepoint, and frees what the former one alone had,
    /// but for blocks with a mark.
    pub fn release(&mut self, state: Switched) -> Mark
        requires frozen { self.old.maps.frozen_at ≡ Some state.map.savepoint }
        requires written { (page : ℕ) → is_unwritten self.old page ≡ false }
        ensures mark { result ≡ state.mark }
        ensures settled { self.new
            ≡ record self.old { maps = frozen_as_saved self.old.maps; free = self.new.free } }
        ensures given { FreesLeaving (Leaves self.old.maps self.old.marks) 0
            (length self.old.maps.saved) self.old.free self.new.free }
        ensures reads { (seen : Image) → FramesMatch self.old seen → FramesMatch self.new seen }
    {
        // Opens the invariant of the store.
        let _blocks = self.blocks();
        state.release(&mut self.converter, &mut self.free, &self.marks)
    }

    /// Puts the record of the savepoint in force: `ConverterWritten::switch`, as the store does not
    /// change.
    pub fn switch<H: Host>(
        &mut self,
        host: &mut H,
        state: ConverterWritten,
        slots: &mut Slots,
        rec: &RestartRecord,
    ) -> Result<Switched, (ConverterWritten, Failed)>
        requires may { MaySwitch slots.old state.root state.mark rec.now }
        requires within { H.tells
            → IsWithin (H.disk host.old).seen slots.old.place.device (8192 * slots.old.place.page)
            16384 }
        // The result.
        ensures store { self.new ≡ self.old }
        ensures known { 2 ≤ get_or self.old.sizes 0 0
            → IsKnown H.tells self.old (H.disk host.old).seen
            → IsKnown H.tells self.new (H.disk host.new).seen }
        ensures switches { SwitchesOver H.tells (H.disk host.old) (H.disk host.new) slots.old
            slots.new state.root rec.now result }
        ensures next { IfOk result (λ s. (s.map ≡ state.map) × (s.mark ≡ state.mark)) }
        ensures back { IfErr result
            (λ e. (e.0.map ≡ state.map) × (e.0.mark ≡ state.mark) × (e.0.root ≡ state.root)) }
        // The faults.
        ensures cause { HasCause (H.faults host.old) (H.faults host.new) result }
        ensures say_faults { H.say_faults host.new ≡ H.say_faults host.old }
    {
        // Opens the invariant of the store.
        let _blocks = self.blocks();
        state.switch(host, slots, rec)
    }
}
