// A store on a new area, over a host in memory that tells nothing of what it holds.
ghost use Rattle.std.specs.Prelude.{◌≡◌, IfOk};
ghost use Rattle.mdb_bytes.specs.Parts.{KeepsLimits};
ghost use Rattle.mdb_bytes.specs.SlotRecords.{restart_format};
ghost use Rattle.savepoint.specs.Stands.{restart_place};

use gate_slots::{SlotBody, SlotPlace, Slots};
use host_tests::{MuteHost, new_area};
use mdb_bytes::RestartRecord;
use mdb_host::Device;
use page_store::PageStore;
use std::alloc::Global;
use std::test::Fail;

// A host with a new area of so many blocks, of which one leaf of the converter tells: 600 at most.
pub(crate) fn new_host(alloc: Global, blocks: u32) -> Result<MuteHost, Fail> {
    Ok(new_area(alloc, blocks)?)
}

// What a crash at a moment leaves of the devices of a host.
pub(crate) fn image_of(
    alloc: Global,
    host: &MuteHost,
    at: u64,
    pick: u64,
) -> Result<MuteHost, Fail> {
    let told = host.told();
    if told.now() < at {
        return Err(Fail::from("a moment to come"));
    }
    Ok(MuteHost::new(told.image(alloc, at, pick)?))
}

// The slots of the data area, and the record that is in force there.
pub(crate) fn record_of(host: &mut MuteHost) -> Result<(Slots, RestartRecord), Fail>
    ensures place { IfOk result (λ found. found.0.place ≡ restart_place) }
    ensures keeps { IfOk result (λ found. KeepsLimits restart_format found.1) }
{
    let place = SlotPlace {
        device: Device::Data(1),
        page: 0,
    };
    let Ok((slots, body)) = Slots::read(host, place) else {
        return Err(Fail::from("no record"));
    };
    match body {
        SlotBody::Restart(rec) => Ok((slots, rec)),
        SlotBody::Log(_) => Err(Fail::from("a log info")),
    }
}

// Opens a store on the record in force, and answers the number of its savepoint.
pub(crate) fn open(alloc: Global, host: &mut MuteHost) -> Result<(PageStore, u64), Fail> {
    let (_, rec) = record_of(host)?;
    let [blocks] = rec.volumes.as_slice() else {
        return Err(Fail::from("other volumes"));
    };
    if *blocks == 0 || 600 < *blocks || 1000 < rec.savepoint {
        return Err(Fail::from("another area"));
    }
    let store = PageStore::open(alloc, host, &rec)?;
    Ok((store, rec.savepoint))
}
