//! The steps of a whole savepoint up to the switch.
ghost use Rattle.std.specs.Prelude.{◌≡◌, ℕ, ◌+◌, ◌<◌, ◌≤◌, ◌^◌, get_or, None, IfOk, IfErr, OnOk, false};
ghost use Rattle.mdb_model.specs.Causes.{HasCause};
ghost use Rattle.mdb_model.specs.Images.{Image};
ghost use Rattle.mdb_host.specs.Disk.{Goes};
ghost use Rattle.free_blocks.specs.Free.{free_count};
ghost use Rattle.volume_disk.specs.Blocks.{IsArea, Writes, block_at};
ghost use Rattle.converter.specs.Maps.{block_of};
ghost use Rattle.converter.specs.Own.{SavedLeaves};
ghost use Rattle.savepoint.specs.Stands.{HoldsMap, IsMapPlaced};
ghost use Rattle.page_store.specs.Store.{IsKnown};
ghost use Rattle.page_store.specs.Steps.{CleansFrames, KeepsStore, is_unwritten};
ghost use Rattle.page_store.specs.WholeSavepoint.{IsBeside, IsSameArea, IsWritten, present_page};

use crate::store::PageStore;
use mdb_host::Host;
use mdb_model::fault::PageFault;
use savepoint::{ConverterWritten, Mark};

// Writes each frozen page that is not on its block yet.
fn write_pages<H: Host>(store: &mut PageStore, host: &mut H) -> Result<(), PageFault>
    requires { H.tells → IsArea store.old.sizes (H.disk host.old).seen }
    ensures turned { CleansFrames store.old store.new }
    ensures keeps { KeepsStore H.tells store.old store.new (H.disk host.old) (H.disk host.new) }
    ensures done { OnOk result ((page : ℕ) → is_unwritten store.new page ≡ false) }
    ensures cause { HasCause (H.faults host.old) (H.faults host.new) result }
    ensures fault { IfErr result (λ fault. fault ≡ PageFault.Failed) }
    ensures say_faults { H.say_faults host.new ≡ H.say_faults host.old }
{
    loop {
        let left = store.turn_savepoint(host, u32::MAX)?;
        if left == 0 {
            return Ok(());
        }
    }
}

// Freezes the present map and writes it whole, beside that of the last savepoint.
pub(crate) fn keep_map<H: Host>(
    store: &mut PageStore,
    host: &mut H,
    mark: Mark,
) -> Result<ConverterWritten, PageFault>
    requires none { store.old.maps.frozen_at ≡ None }
    requires next { mark.savepoint ≡ store.old.next }
    requires small { store.old.next + 1 < 2 ^ 62 }
    requires fits { store.old.maps.conv ≤ free_count store.old.free }
    requires there { H.tells → IsArea store.old.sizes (H.disk host.old).seen }
    requires placed { H.tells → IsMapPlaced store.old.sizes store.old.maps.saved store.old.maps.conv }
    requires leaves { H.tells
        → SavedLeaves store.old.maps (block_at store.old.sizes (H.disk host.old).seen) }
    ensures goes { H.tells
        → Goes (H.disk host.old) (H.disk host.new) (Writes store.old.sizes (IsBeside store.old)) }
    ensures seen { H.tells
        → Writes store.old.sizes (IsBeside store.old) (H.disk host.old).seen (H.disk host.new).seen }
    ensures area { IsSameArea store.old store.new }
    ensures number { store.new.next ≡ store.old.next + 1 }
    ensures written { OnOk result (IsWritten store.old store.new) }
    ensures known { OnOk result (IsKnown H.tells store.old (H.disk host.old).seen
        → IsKnown H.tells store.new (H.disk host.new).seen) }
    ensures holds { OnOk
        result
        (IsKnown H.tells store.old (H.disk host.old).seen → (image : Image)
        → (H.disk host.new).may_leave (H.disk host.new).now image
        → HoldsMap store.old.sizes store.new.maps.frozen store.old.maps.conv
        (present_page store.old (H.disk host.old).seen) image) }
    ensures state { IfOk result (λ s. (s.mark ≡ mark) × (s.map.savepoint ≡ mark.savepoint)
        × (s.root ≡ block_of store.new.maps.frozen 0)) }
    ensures cause { HasCause (H.faults host.old) (H.faults host.new) result }
    ensures fault { IfErr result (λ fault. fault ≡ PageFault.Failed) }
    ensures say_faults { H.say_faults host.new ≡ H.say_faults host.old }
{
    let state = store.begin_savepoint(mark);
    write_pages(store, host)?;
    let Ok(pages) = store.pages_done(host, state) else {
        return Err(PageFault::Failed);
    };
    // Opens the invariant.
    let _old = store.blocks();
    match store.write_converter(host, pages) {
        Ok(state) => Ok(state),
        Err(_) => Err(PageFault::Failed),
    }
}
