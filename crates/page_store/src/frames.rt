//! Frames of blocks.
ghost use Rattle.std.specs.Prelude.{◌≡◌, ◌≢◌, ◌+◌, ◌*◌, ◌<◌, ◌≤◌, ℕ};
ghost use Rattle.std.specs.Prelude.{length, List, sum, Some, None, Err, IfOk, IfErr, OnOk, OnErr};
ghost use Rattle.std.specs.Prelude.{IsOk, slice_set, true, false};
ghost use Rattle.std.specs.Borrow.{sem, Lends, Array, u8};
ghost use Rattle.mdb_model.specs.Causes.{Rose};
ghost use Rattle.mdb_host.specs.Disk.{IsWithin};
ghost use Rattle.mdb_host.specs.Reads.{ReadsOnly};
ghost use Rattle.mdb_model.specs.declared.fault.Device.TheVariants.{Data};
ghost use Rattle.volume_disk.specs.Blocks.{place, block_at, IsArea};
ghost use Rattle.page_store.specs.contracts.store.PageStore.{the_row};
ghost use Rattle.page_store.specs.Store.{Store, block_count, frame_of, has_changed};
ghost use Rattle.page_store.specs.Steps.{Fills, EditsBoth, with_frame};

use crate::store::{FrameState, PageStore};
use mdb_bytes::PairEdit;
use mdb_host::{Device, Host};
use mdb_model::fault::{Damage, PageFault, Rule};
use mdb_model::limits::PAGE_BYTES;
use volume_disk::Volumes;

// Where a block lies, if its volume is there and has it: a page can be asked for whatever the host
// has.
fn place_there<H: Host>(volumes: &Volumes, host: &H, block: u32) -> Result<(Device, u64), PageFault>
    requires { block < sum volumes.now }
    ensures place { IfOk result
        (λ at. (at.0 ≡ Data (place 1 volumes.now block).0)
        × (at.1 ≡ 8192 * (place 1 volumes.now block).1)) }
    ensures there { IfOk result (λ at. H.tells → IsWithin (H.disk host.now).seen at.0 at.1 8192) }
    ensures whole { H.tells → IsArea volumes.now (H.disk host.now).seen → IsOk result }
    ensures fault { result ≡ Err PageFault.Failed → ⊥ }
{
    // Opens the invariant of the volumes.
    let _blocks = volumes.blocks();
    let (volume, page) = volumes.place_of(block);
    let device = Device::Data(volume);
    let rule = match host.size(device) {
        None => Rule::Missing,
        Some(pages) => {
            if u64::from(page) < pages {
                return Ok((device, PAGE_BYTES as u64 * u64::from(page)));
            }
            Rule::Size
        }
    };
    Err(PageFault::Damaged(Damage {
        device,
        page: 0,
        rule,
    }))
}

// Reads a block whose volume may be absent or too short. After an error `into` may hold any bytes.
pub(crate) fn read_there<H: Host>(
    volumes: &Volumes,
    host: &mut H,
    block: u32,
    into: &mut [u8; PAGE_BYTES],
) -> Result<(), PageFault>
    requires { block < sum volumes.now }
    // The result.
    ensures bytes { OnOk result
        (H.tells → IsArea volumes.now (H.disk host.old).seen
        → into.new ≡ block_at volumes.now (H.disk host.old).seen block) }
    // The devices.
    ensures reads { ReadsOnly H.Host host.old host.new }
    // The faults.
    ensures cause { result ≡ Err PageFault.Failed → Rose (H.faults host.old) (H.faults host.new) }
    ensures whole { H.tells → IsArea volumes.now (H.disk host.old).seen
        → IfErr result (λ fault. fault ≡ PageFault.Failed) }
{
    let (device, at) = place_there(volumes, host, block)?;
    let Ok(()) = host.read(device, at, into) else {
        return Err(PageFault::Failed);
    };
    Ok(())
}

// Carries an edit of two pages out.
fn edit_pages<E: PairEdit>(
    one: &mut [u8; PAGE_BYTES],
    other: &mut [u8; PAGE_BYTES],
    edit: &E,
) -> bool
    requires { length one.old ≡ 8192 → length other.old ≡ 8192
        → E.may edit.now one.old other.old }
    ensures { E.does edit.now result one.old other.old one.new other.new }
{
    edit.edit(one, other)
}

impl PageStore {
    // Reads the frame of a block that has none. After an error it has none still.
    fn read_frame<H: Host>(&mut self, host: &mut H, block: u32) -> Result<(), PageFault>
        requires below { block < block_count self.old }
        requires none { frame_of self.old block ≡ None }
        // The result.
        ensures ok { OnOk result (Fills H.tells self.old self.new block (H.disk host.old).seen) }
        ensures err { OnErr result (self.new ≡ self.old) }
        // The devices.
        ensures reads { ReadsOnly H.Host host.old host.new }
        // The faults.
        ensures cause { result ≡ Err PageFault.Failed
            → Rose (H.faults host.old) (H.faults host.new) }
        ensures whole { H.tells → IsArea self.old.sizes (H.disk host.old).seen
            → IfErr result (λ fault. fault ≡ PageFault.Failed) }
    {
        read_there(&self.volumes, host, block, &mut self.frames[block as usize])?;
        self.states[block as usize] = FrameState::Same;
        Ok(())
    }

    // Fills the frame of a block where it has none.
    pub(crate) fn fill<H: Host>(&mut self, host: &mut H, block: u32) -> Result<(), PageFault>
        requires { block < block_count self.old }
        // The result.
        ensures ok { OnOk result (Fills H.tells self.old self.new block (H.disk host.old).seen) }
        ensures err { OnErr result (self.new ≡ self.old) }
        // The devices.
        ensures reads { ReadsOnly H.Host host.old host.new }
        // The faults.
        ensures cause { result ≡ Err PageFault.Failed
            → Rose (H.faults host.old) (H.faults host.new) }
        ensures whole { H.tells → IsArea self.old.sizes (H.disk host.old).seen
            → IfErr result (λ fault. fault ≡ PageFault.Failed) }
    {
        if self.has_frame(block) {
            return Ok(());
        }
        self.read_frame(host, block)
    }

    // Whether a block has a frame.
    fn has_frame(&self, block: u32) -> bool
        requires { block < block_count self.now }
        ensures some { result ≡ true → (bytes : List ℕ) × (frame_of self.now block ≡ Some bytes) }
        ensures none { result ≡ false → frame_of self.now block ≡ None }
    {
        match self.states[block as usize] {
            FrameState::Absent => false,
            FrameState::Same | FrameState::Changed => true,
        }
    }

    /// Whether a page lives and its block has a frame, so that reading it calls no device.
    pub fn is_framed(&self, page: u32) -> bool {
        self.lives(page) && self.has_frame(self.block_of(page))
    }

    // The frame of a block that has one.
    pub(crate) fn frame(&self, block: u32) -> &[u8; PAGE_BYTES]
        requires below { block < block_count self.now }
        requires some { (bytes : List ℕ) × (frame_of self.now block ≡ Some bytes) }
        ensures { frame_of self.now block ≡ Some result.now }
    {
        &self.frames[block as usize]
    }

    // Lends the frame of a block that has a newer one.
    pub(crate) fn frame_mut(&mut self, block: u32) -> &mut [u8; PAGE_BYTES]
        requires below { block < block_count self.old }
        requires changed { has_changed self.old block ≡ true }
        ensures* lends { sem 𝓛
            (Lends the_row (Array u8 8192) self.entry result (with_frame self.entry.now block)) }
        ensures value { frame_of self.old block ≡ Some result.now }
    {
        &mut self.frames[block as usize]
    }

    // Edits the frames of two blocks that have newer ones.
    pub(crate) fn edit_both<E: PairEdit>(&mut self, first: u32, other: u32, edit: &E) -> bool
        requires below { (first < block_count self.old) × (other < block_count self.old) }
        requires differ { first ≢ other }
        requires changed { (has_changed self.old first ≡ true)
            × (has_changed self.old other ≡ true) }
        requires may { (one two : List ℕ) → length one ≡ 8192 → length two ≡ 8192
            → frame_of self.old first ≡ Some one → frame_of self.old other ≡ Some two
            → E.may edit.now one two }
        ensures { EditsBoth self.old self.new first other (E.does edit.now result) }
    {
        let mut copy = self.frames[other as usize];
        let answer = edit_pages(&mut self.frames[first as usize], &mut copy, edit);
        self.frames[other as usize] = copy;
        answer
    }
}
