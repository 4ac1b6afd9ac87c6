//! Making a database, with the status that the program ends with.
ghost use Rattle.std.specs.Prelude.{◌≡◌, ◌≢◌, ℕ, ◌<◌, ◌⊎◌, None};
ghost use Rattle.mdb_model.specs.Causes.{Rose};
ghost use Rattle.mdb_host.specs.Disk.{Disk, IsThere, Keeps};
ghost use Rattle.mdb_host.specs.Places.{device_at};
ghost use Rattle.creation.specs.Devices.{device_count};
ghost use Rattle.script_run.specs.Calls.{NewPromise};

use call_words::Measures;
use db_kernel::{CreateFault, create};
use mdb_host::Host;
use mdb_model::status::Status;
use std::alloc::Global;

/// Makes a database on the devices of a host. After `DeviceFault` devices may be there, with
/// no promise of them.
pub fn create_database<H: Host>(alloc: Global, host: &mut H, measures: &Measures) -> Status
    ensures keeps { H.tells → Keeps (H.disk host.old) (H.disk host.new) }
    ensures promise { H.tells → NewPromise (H.disk host.old) (H.disk host.new) result
        measures.now.birth measures.now.log_pages measures.now.volumes.items }
    ensures status { (result ≡ Status.Done)
        ⊎ ((result ≡ Status.Exists) ⊎ (result ≡ Status.DeviceFault)) }
    ensures absent { result ≢ Status.Exists → H.tells → (number : ℕ) → number < device_count
        → (H.disk host.old).seen (device_at number) ≡ None }
    ensures there { result ≡ Status.Exists → H.tells
        → (number : ℕ) × (number < device_count)
        × IsThere (H.disk host.old).seen (device_at number) }
    ensures untouched { result ≡ Status.Exists → host.new ≡ host.old }
    ensures cause { result ≡ Status.DeviceFault → Rose (H.faults host.old) (H.faults host.new) }
{
    let made = create(
        alloc,
        host,
        measures.birth,
        measures.log_pages,
        &measures.volumes,
    );
    match made {
        Ok(()) => Status::Done,
        Err(CreateFault::Memory) => Status::Memory,
        Err(CreateFault::Exists) => Status::Exists,
        Err(CreateFault::Failed) => Status::DeviceFault,
    }
}
