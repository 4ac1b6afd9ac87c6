// Hosts with a new database, which may be changed by hand, and the runs of scripts on them.
use arrayvec::ArrayVec;
use creation::{CreateFault, can_create, create};
use host_tests::{try_make, try_remove, try_write};
use mdb_host::{Device, Failed, Host, MemHost, MemSource};
use mdb_model::status::Status;
use script_run::run::run_script;
use std::alloc::Global;
use std::test::Fail;

// Makes a database of birth 7, with a log of so many pages and one data volume of 512.
pub(crate) fn make_database<H: Host>(
    alloc: Global,
    host: &mut H,
    log_pages: u32,
) -> Result<(), CreateFault> {
    make_area(alloc, host, log_pages, 512)
}

// The same with a data volume of so many.
pub(crate) fn make_area<H: Host>(
    alloc: Global,
    host: &mut H,
    log_pages: u32,
    blocks: u32,
) -> Result<(), CreateFault> {
    let mut volumes = ArrayVec::new();
    volumes.push(blocks);
    if can_create(7, log_pages, &volumes) {
        create(alloc, host, 7, log_pages, &volumes)
    } else {
        Err(CreateFault::Failed)
    }
}

// A host in memory with such a database.
pub(crate) fn new_host(alloc: Global, log_pages: u32) -> Result<MemHost, Fail> {
    let mut host = MemHost::new(alloc, &[])?;
    make_database(alloc, &mut host, log_pages)?;
    Ok(host)
}

// What is done to a database by hand.
#[derive(Clone, Copy)]
pub(crate) enum Change {
    // A device is taken away.
    Removed(Device),
    // A device of so many pages of zeros is there, in place of what was.
    Renewed(Device, u32),
    // Bytes are written over those of a device, from a place on.
    Written(Device, u64, &'static [u8]),
}

// Does it.
pub(crate) fn make_change<H: Host>(host: &mut H, change: Change) -> Result<(), Failed> {
    match change {
        Change::Removed(device) => try_remove(host, device),
        Change::Renewed(device, pages) => {
            let _ = try_remove(host, device);
            try_make(host, device, pages)
        }
        Change::Written(device, at, bytes) => try_write(host, device, at, bytes),
    }
}

// Runs a script, and answers how that ends.
pub(crate) fn answered<H: Host>(
    alloc: Global,
    host: &mut H,
    script: &[u8],
) -> Result<Status, Fail> {
    let mut source = MemSource::new(alloc, script, 7, &[])?;
    Ok(run_script(alloc, host, &mut source))
}

// Whether a host in memory that said nothing yet answers a script so, to its end.
pub(crate) fn answers(
    alloc: Global,
    host: &mut MemHost,
    script: &[u8],
    want: &[u8],
) -> Result<bool, Fail> {
    let status = answered(alloc, host, script)?;
    Ok(status == Status::Done && host.output() == want)
}
