//! Making a database.
ghost use Rattle.std.specs.Prelude.{◌≡◌, ◌≢◌, ℕ, ◌≤◌, ◌<◌, List, [], Err, OnOk, None};
ghost use Rattle.mdb_model.specs.Causes.{HasCause, Rose};
ghost use Rattle.mdb_model.specs.Images.{Image};
ghost use Rattle.mdb_host.specs.Disk.{Disk, Goes, Keeps, IsThere};
ghost use Rattle.mdb_host.specs.Places.{device_at};
ghost use Rattle.creation.specs.Devices.{device_count};
ghost use Rattle.creation.specs.Making.{Each, IsEmpty};
ghost use Rattle.creation.specs.Quiet.{AnyHow};
ghost use Rattle.standing.specs.Standing.{IsSite, IsNew, at_rest, creation_at};
ghost use Rattle.standing.specs.WholeStanding.{StandsWhole};

use crate::area::{any_there, make_devices};
use crate::pages::write_pages;
use crate::slots::{open_log_info, open_restart_record};
use arrayvec::ArrayVec;
use mdb_host::{Failed, Host};
use std::alloc::Global;
use volume_disk::Volumes;

/// Why a database was not made.
#[derive(Debug, Drop, thiserror::Error)]
pub enum CreateFault {
    #[error("out of memory")]
    Memory,
    #[error("a device is there already")]
    Exists,
    #[error("a device failed")]
    Failed,
}

// Makes the devices where none is there, and writes on them what a database begins with.
fn make_database<H: Host>(
    host: &mut H,
    birth: u64,
    log_pages: u32,
    volumes: &ArrayVec<u32, 8>,
) -> Result<(), Failed>
    requires site { IsSite (record {
      birth = birth;
      volumes = volumes.now.items;
      log_pages =
          log_pages;
    }) }
    requires empty { H.tells → Each (H.disk host.old) IsEmpty }
    ensures made { OnOk result (H.tells → Each (H.disk host.new)
        (IsNew (record { birth = birth; volumes = volumes.now.items; log_pages = log_pages }))) }
    ensures goes { H.tells → Goes (H.disk host.old) (H.disk host.new) AnyHow }
    ensures cause { HasCause (H.faults host.old) (H.faults host.new) result }
    ensures say_faults { H.say_faults host.new ≡ H.say_faults host.old }
{
    make_devices(host, log_pages, volumes)?;
    let area = Volumes::new(volumes);
    write_pages(host, &area)?;
    open_log_info(host, birth, log_pages)?;
    open_restart_record(host, birth, area.blocks(), volumes)
}

/// Makes a database of this birth: a log volume and data volumes of so many pages of 8,192 bytes,
/// the pages of its first savepoint, and its records, in this order, each kept before the next. No
/// memory of the heap is asked for.
/// After `Failed`, or a crash on the way, devices are there with no promise; they are
/// removed by hand.
pub fn create<H: Host>(
    alloc: Global,
    host: &mut H,
    birth: u64,
    log_pages: u32,
    volumes: &ArrayVec<u32, 8>,
) -> Result<(), CreateFault>
    requires site { IsSite (record {
      birth = birth;
      volumes = volumes.now.items;
      log_pages =
          log_pages;
    }) }
    ensures stands { OnOk result (H.tells → (image : Image)
        → (H.disk host.new).may_leave (H.disk host.new).now image
        → StandsWhole image (at_rest (creation_at
        (record { birth = birth; volumes = volumes.now.items; log_pages = log_pages })) [])) }
    ensures there { result ≡ Err CreateFault.Exists → H.tells
        → (number : ℕ) × (number < device_count)
        × IsThere (H.disk host.old).seen (device_at number) }
    ensures absent { result ≢ Err CreateFault.Exists → H.tells → (number : ℕ)
        → number < device_count → (H.disk host.old).seen (device_at number) ≡ None }
    ensures untouched { result ≡ Err CreateFault.Exists → host.new ≡ host.old }
    ensures ample { result ≢ Err CreateFault.Memory }
    ensures keeps { H.tells → Keeps (H.disk host.old) (H.disk host.new) }
    ensures quiet { H.tells → (t : ℕ) → (H.disk host.old).now ≤ t → t ≤ (H.disk host.new).now
        → (H.disk host.new).said t ≡ (H.disk host.old).said (H.disk host.old).now }
    ensures later { H.faults host.old ≤ H.faults host.new }
    ensures cause { result ≡ Err CreateFault.Failed → Rose (H.faults host.old) (H.faults host.new) }
    ensures say_faults { H.say_faults host.new ≡ H.say_faults host.old }
{
    if any_there(host) {
        return Err(CreateFault::Exists);
    }
    match make_database(host, birth, log_pages, volumes) {
        Ok(()) => Ok(()),
        Err(_) => Err(CreateFault::Failed),
    }
}
