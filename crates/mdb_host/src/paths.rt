//! Where the files of a database lie.
ghost use Rattle.std.specs.Prelude.{◌≡◌, ◌<◌, ◌↔◌, length, IfOk, IfSome, IsSome};
ghost use Rattle.mdb_host.specs.Places.{IsNamed, device_at};

use mdb_model::fault::Device;
use std::alloc::{AllocError, Global};

/// Eight data volumes, the log volume and ninety-nine media.
pub const PLACES: usize = 108;

/// The paths of a folder and of each file that it may have.
#[derive(Drop)]
pub struct Paths {
    pub folder: String,
    /// The folder that it lies in, also where its path is `.` or ends with a slash.
    pub above: String,
    /// Where a file is written before it gets its own name.
    pub fresh: String,
    devices: Vec<String>,
    ghost full: { length devices.items ≡ 108 },
}

/// The place of a device's file among all, or `None` for a number that no database has.
pub fn place_of(device: Device) -> Option<usize>
    ensures below { IfSome result (λ place. place < 108) }
    ensures alone { IfSome result (λ place. device_at place ≡ device) }
    ensures named { IsSome result ↔ IsNamed device }
{
    match device {
        Device::Data(number) if 1 <= number && number <= 8 => Some(usize::from(number) - 1),
        Device::Log => Some(8),
        Device::Medium(number) if 1 <= number && number <= 99 => Some(usize::from(number) + 8),
        Device::Data(_) | Device::Medium(_) => None,
    }
}

fn path_of(alloc: Global, folder: &str, place: usize) -> Result<String, AllocError>
    requires { place < 108 }
{
    if place < 8 {
        let number = place + 1;
        format!(in alloc; "{folder}/data{number}.vol")
    } else if place == 8 {
        format!(in alloc; "{folder}/log.vol")
    } else {
        let number = place - 8;
        format!(in alloc; "{folder}/medium{number:02}.med")
    }
}

impl Paths {
    pub fn new(alloc: Global, folder: &str) -> Result<Paths, AllocError> {
        let mut devices = Vec::with_capacity(alloc, PLACES)?;
        for place in 0..PLACES {
            devices.push(path_of(alloc, folder, place)?)?;
        }
        Ok(Paths {
            folder: String::from_str(alloc, folder)?,
            above: format!(in alloc; "{folder}/..")?,
            fresh: format!(in alloc; "{folder}/device.new")?,
            devices,
        })
    }

    /// The path of the file at a place.
    pub fn device(&self, place: usize) -> &str
        requires { place < 108 }
    {
        self.devices[place].as_str()
    }
}
