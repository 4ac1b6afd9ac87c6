//! The files of a database in its folder.
ghost use Rattle.std.specs.Prelude.{◌≡◌, ◌≤◌, ◌<◌, length, IfOk};

use crate::lock::TryLock;
use crate::paths::{PLACES, Paths, place_of};
use mdb_model::fault::Device;
use mdb_model::limits::PAGE_BYTES;
use std::alloc::{AllocError, Global};
use std::fs::{File, OpenFile, OpenOptions};
use std::io::ErrorKind;
use std::os::unix::fs::FileExt;
use std::rt::Files;
use std::{fs, io};

// How many pages of zeros are written at once.
const PIECE: usize = 8;

/// Files, each opened and locked when it is first used, and open from then on.
#[derive(Drop)]
pub struct Folder<'a, R: Files> {
    rt: &'a R,
    paths: Paths,
    // the folder itself, locked before anything in it is used
    held: Option<R::File>,
    // whether the folder was synced since a name in it changed, as far as this process knows
    names_last: bool,
    files: Vec<Option<R::File>>,
    // Whether a sync has failed. The system may have dropped what was written then, and the cache
    // may show it all the same, so nothing of the device is believed from there on.
    is_lost: [bool; PLACES],
    ghost full: { length files.items ≡ 108 },
}

fn place(device: Device) -> io::Result<usize>
    ensures { IfOk result (λ place. place < 108) }
{
    match place_of(device) {
        Some(place) => Ok(place),
        None => Err(ErrorKind::NotFound.into()),
    }
}

// Makes the folder's own name last, also where an earlier call made it and failed before.
fn make_folder<R: Files>(rt: &R, paths: &Paths) -> io::Result<()> {
    match fs::create_dir(rt, &paths.folder) {
        Ok(()) => {}
        Err(error) if error.kind() == ErrorKind::AlreadyExists => {}
        Err(error) => return Err(error),
    }
    File::open(rt, &paths.above)?.sync_all()
}

// Whether anything, a link too, has the name.
fn is_taken<R: Files>(rt: &R, path: &str) -> io::Result<bool> {
    match fs::symlink_metadata(rt, path) {
        Ok(_) => Ok(true),
        Err(error) if error.kind() == ErrorKind::NotFound => Ok(false),
        Err(error) => Err(error),
    }
}

// Keeps other programs out. Where a standard stream is closed, a file that is opened gets its
// descriptor, and what is said would be written into the file. A clone gets none of those three,
// and has the lock.
fn owned<F: OpenFile + TryLock + Drop>(file: F) -> io::Result<F> {
    file.try_lock()?;
    file.try_clone()
}

fn open_file<R: Files>(rt: &R, path: &str) -> io::Result<R::File>
where
    R::File: TryLock,
{
    let mut options = OpenOptions::new();
    options.read(true).write(true);
    let file = options.open(rt, path)?;
    if file.metadata()?.is_file() {
        owned(file)
    } else {
        Err(ErrorKind::InvalidInput.into())
    }
}

// An empty file in place of one that a crash may have left. No link is followed.
fn new_file<R: Files>(rt: &R, path: &str) -> io::Result<R::File>
where
    R::File: TryLock,
{
    match fs::remove_file(rt, path) {
        Ok(()) => {}
        Err(error) if error.kind() == ErrorKind::NotFound => {}
        Err(error) => return Err(error),
    }
    owned(File::create_new(rt, path)?)
}

// The zeros are written, so that a later write within them does not fail for want of room.
fn write_zeros<F: FileExt + OpenFile>(file: &F, pages: u32) -> io::Result<()> {
    let zeros = [0u8; PIECE * PAGE_BYTES];
    for first in (0..pages).step_by(PIECE) {
        let count = PIECE.min((pages - first) as usize);
        file.write_all_at(
            &zeros[..count * PAGE_BYTES],
            u64::from(first) * PAGE_BYTES as u64,
        )?;
    }
    file.sync_all()
}

// A file of zeros gets its name when they are all there.
fn make_file<R: Files>(rt: &R, paths: &Paths, place: usize, pages: u32) -> io::Result<R::File>
where
    R::File: FileExt + TryLock,
    requires { place < 108 }
{
    let path = paths.device(place);
    if is_taken(rt, path)? {
        return Err(ErrorKind::AlreadyExists.into());
    }
    let file = new_file(rt, &paths.fresh)?;
    let mut made = write_zeros(&file, pages);
    if made.is_ok() {
        made = fs::rename(rt, &paths.fresh, path);
    }
    if let Err(error) = made {
        let _ = fs::remove_file(rt, &paths.fresh);
        return Err(error);
    }
    Ok(file)
}

impl<'a, R: Files> Folder<'a, R> {
    pub fn new(rt: &'a R, alloc: Global, folder: &str) -> Result<Folder<'a, R>, AllocError> {
        let paths = Paths::new(alloc, folder)?;
        let mut files = Vec::with_capacity(alloc, PLACES)?;
        for _ in 0..PLACES {
            files.push(None)?;
        }
        Ok(Folder {
            rt,
            paths,
            held: None,
            names_last: false,
            files,
            is_lost: [false; PLACES],
        })
    }

    /// The whole pages of a device, or `None` where its place has no regular file.
    pub fn size(&self, device: Device) -> Option<u64> {
        let place = place_of(device)?;
        match fs::metadata(self.rt, self.paths.device(place)) {
            Ok(found) if found.is_file() => Some(found.len() / PAGE_BYTES as u64),
            Ok(_) | Err(_) => None,
        }
    }
}

impl<'a, R: Files> Folder<'a, R>
where
    R::File: FileExt + TryLock,
{
    // The folder itself, which no other program has then.
    fn held(&mut self) -> io::Result<&R::File> {
        if self.held.is_none() {
            self.held = Some(owned(File::open(self.rt, &self.paths.folder)?)?);
        }
        match &self.held {
            Some(folder) => Ok(folder),
            None => Err(ErrorKind::NotFound.into()),
        }
    }

    // Makes what was made, renamed or removed in the folder last.
    fn sync_names(&mut self) -> io::Result<()> {
        if !self.names_last {
            self.held()?.sync_all()?;
            self.names_last = true;
        }
        Ok(())
    }

    fn opened(&mut self, device: Device) -> io::Result<&R::File> {
        let place = place(device)?;
        if self.is_lost[place] {
            return Err(ErrorKind::Other.into());
        }
        if self.files[place].is_none() {
            self.held()?;
            self.files[place] = Some(open_file(self.rt, self.paths.device(place))?);
        }
        match &self.files[place] {
            Some(file) => Ok(file),
            None => Err(ErrorKind::NotFound.into()),
        }
    }

    pub fn read(&mut self, device: Device, at: u64, into: &mut [u8]) -> io::Result<()> {
        self.opened(device)?.read_exact_at(into, at)
    }

    pub fn write(&mut self, device: Device, at: u64, from: &[u8]) -> io::Result<()> {
        self.opened(device)?.write_all_at(from, at)
    }

    fn sync_opened(&mut self, device: Device) -> io::Result<()> {
        self.sync_names()?;
        self.opened(device)?.sync_data()
    }

    /// Makes the file's name last and what was written to it. Once that has failed, each later
    /// read, write and sync of the device fails.
    pub fn sync(&mut self, device: Device) -> io::Result<()> {
        let place = place(device)?;
        self.opened(device)?;
        let synced = self.sync_opened(device);
        self.is_lost[place] = synced.is_err();
        synced
    }

    /// Makes a file of so many pages of zeros. A crash leaves no file, or the whole of it.
    pub fn make(&mut self, device: Device, pages: u32) -> io::Result<()> {
        let place = place(device)?;
        make_folder(self.rt, &self.paths)?;
        self.held()?;
        self.names_last = false;
        self.files[place] = Some(make_file(self.rt, &self.paths, place, pages)?);
        self.sync_names()
    }

    pub fn remove(&mut self, device: Device) -> io::Result<()> {
        let place = place(device)?;
        self.held()?;
        self.names_last = false;
        fs::remove_file(self.rt, self.paths.device(place))?;
        self.files[place] = None;
        self.sync_names()
    }
}
