//! A host over files and the standard output.
ghost use Rattle.std.specs.Prelude.{◌≡◌, ◌≤◌, [], None, IfOk};
ghost use Rattle.mdb_host.specs.Disk.{Disk};

use crate::faults::rise;
use crate::folder::Folder;
use crate::host::Host;
use crate::lock::TryLock;
use mdb_model::fault::{Device, Failed, Memory};
use std::alloc::Global;
use std::os::unix::fs::FileExt;
use std::rt::Files;

/// The files `data1.vol` to `data8.vol`, `log.vol` and `medium01.med` to `medium99.med` of a
/// folder. It tells nothing of what they hold. After `new` it takes no memory.
#[derive(Drop)]
pub struct FileHost<'a, R: Files + Print> {
    rt: &'a R,
    folder: Folder<'a, R>,
    faults: u64,
    say_faults: u64,
}

impl<'a, R: Files + Print> FileHost<'a, R>
where
    R::File: FileExt + TryLock,
{
    /// No file is looked at yet, and the folder may be absent.
    pub fn new(rt: &'a R, alloc: Global, folder: &str) -> Result<FileHost<'a, R>, Memory>
        ensures faults { IfOk result (λ host. ⟦<FileHost<'a, R> as Host>⟧.faults host ≡ 0) }
        ensures say_faults { IfOk result (λ host. ⟦<FileHost<'a, R> as Host>⟧.say_faults host ≡ 0) }
    {
        match Folder::new(rt, alloc, folder) {
            Ok(folder) => Ok(FileHost {
                rt,
                folder,
                faults: 0,
                say_faults: 0,
            }),
            Err(_) => Err(Memory),
        }
    }
}

impl<'a, R: Files + Print> Host for FileHost<'a, R>
where
    R::File: FileExt + TryLock,
{
    ghost tells = { ⊥ };

    ghost disk = { λ m. record {
      now = 0;
      seen = λ d. None;
      may_leave = λ t image. ⊥;
      said = λ t.
          [];
    } };

    ghost faults = { λ m. m.faults };

    ghost say_faults = { λ m. m.say_faults };

    ghost seen_left = { λ m told. absurd told };

    ghost sizes = { λ m image told left. absurd told };

    fn size(&self, device: Device) -> Option<u64> {
        self.folder.size(device)
    }

    fn read(&mut self, device: Device, at: u64, into: &mut [u8]) -> Result<(), Failed> {
        let Ok(()) = self.folder.read(device, at, into) else {
            return Err(rise(&mut self.faults));
        };
        Ok(())
    }

    fn write(&mut self, device: Device, at: u64, from: &[u8]) -> Result<(), Failed> {
        let Ok(()) = self.folder.write(device, at, from) else {
            return Err(rise(&mut self.faults));
        };
        Ok(())
    }

    fn sync(&mut self, device: Device) -> Result<(), Failed> {
        let Ok(()) = self.folder.sync(device) else {
            return Err(rise(&mut self.faults));
        };
        Ok(())
    }

    fn make(&mut self, device: Device, pages: u32) -> Result<(), Failed> {
        let Ok(()) = self.folder.make(device, pages) else {
            return Err(rise(&mut self.faults));
        };
        Ok(())
    }

    fn remove(&mut self, device: Device) -> Result<(), Failed> {
        let Ok(()) = self.folder.remove(device) else {
            return Err(rise(&mut self.faults));
        };
        Ok(())
    }

    fn say(&mut self, text: &[u8]) -> Result<(), Failed> {
        let Ok(()) = self.rt.write_all(text) else {
            return Err(rise(&mut self.say_faults));
        };
        Ok(())
    }
}
