//! Files that are not there: a runtime that records each call, and fails one that is named.
ghost use Rattle.std.specs.Prelude.{◌≤◌};

use mdb_host::TryLock;
use std::alloc::{AllocError, Allocator, Global};
use std::cell::{Cell, RefCell};
use std::fmt::Display;
use std::fs::{Metadata, OpenFile, OpenOptions};
use std::io;
use std::io::{ErrorKind, Read, Seek, SeekFrom, Write};
use std::os::unix::fs::FileExt;
use std::rt::Files;

/// A name that something may have here.
#[derive(Clone, Copy, Debug, PartialEq, Eq)]
pub(crate) enum Name {
    Above,
    Folder,
    Fresh,
    Log,
    Volume,
}

/// A call. Reads and writes that follow one another are one.
#[derive(Clone, Copy, Debug, PartialEq, Eq)]
pub(crate) enum Event {
    MakeFolder,
    Open(Name),
    /// Opened in a way that changes what is there, or follows a link.
    Overwrite(Name),
    Create(Name),
    Lock(Name),
    Read(Name, u64, usize),
    Write(Name, u64, usize),
    SetLength(Name),
    SyncData(Name),
    SyncAll(Name),
    Rename(Name, Name),
    Remove(Name),
    Say,
}

// How many bytes of each file are kept.
const KEPT: usize = 64;

/// What was called.
#[derive(Drop)]
pub(crate) struct Recorder {
    events: RefCell<Vec<Event>>,
    there: RefCell<Vec<Name>>,
    // the call that is to fail once
    fault: Cell<Option<Event>>,
    // the first bytes of all files together
    bytes: RefCell<[u8; KEPT]>,
    said: RefCell<Vec<u8>>,
}

/// A runtime over what was called.
#[derive(Clone, Copy)]
pub(crate) struct FakeRuntime<'a> {
    pub(crate) recorder: &'a Recorder,
}

/// A file under the name that it was opened by.
#[derive(Drop)]
pub(crate) struct FakeFile<'a> {
    recorder: &'a Recorder,
    name: Name,
}

fn name_of(path: &str) -> io::Result<Name> {
    match path {
        "db/.." => Ok(Name::Above),
        "db" => Ok(Name::Folder),
        "db/device.new" => Ok(Name::Fresh),
        "db/log.vol" => Ok(Name::Log),
        "db/data1.vol" => Ok(Name::Volume),
        _ => Err(ErrorKind::NotFound.into()),
    }
}

// Two calls as one, where the second goes on where the first ended.
fn joined(first: Event, second: Event) -> Option<Event> {
    match (first, second) {
        (Event::Read(name, at, len), Event::Read(next, from, more))
            if name == next && at.checked_add(len as u64) == Some(from) => {
            Some(Event::Read(name, at, len.checked_add(more)?))
        }
        (Event::Write(name, at, len), Event::Write(next, from, more))
            if name == next && at.checked_add(len as u64) == Some(from) => {
            Some(Event::Write(name, at, len.checked_add(more)?))
        }
        _ => None,
    }
}

// Whether the calls are these lists, one after the other.
fn is_joined(events: &[Event], want: &[&[Event]]) -> bool {
    let mut left = events;
    for part in want {
        match left.strip_prefix(*part) {
            Some(rest) => left = rest,
            None => return false,
        }
    }
    left.is_empty()
}

impl Recorder {
    /// So much is there, and nothing is called yet.
    pub(crate) fn new(alloc: Global, there: &[Name]) -> Result<Recorder, AllocError> {
        Ok(Recorder {
            events: RefCell::new(Vec::new(alloc)),
            there: RefCell::new(Vec::from_slice(alloc, there)?),
            fault: Cell::new(None),
            bytes: RefCell::new([0; KEPT]),
            said: RefCell::new(Vec::new(alloc)),
        })
    }

    /// From now on the next such call fails.
    pub(crate) fn fail(&self, event: Option<Event>) {
        self.fault.set(event);
    }

    /// Whether these, one list after the other, were the calls since the last time.
    pub(crate) fn were(&self, want: &[&[Event]]) -> bool {
        let Ok(mut events) = self.events.try_borrow_mut() else {
            return false;
        };
        let is_same = is_joined(&events, want);
        events.clear();
        is_same
    }

    /// Whether just this was said.
    pub(crate) fn has_said(&self, want: &[u8]) -> bool {
        match self.said.try_borrow() {
            Ok(said) => said.as_slice() == want,
            Err(_) => false,
        }
    }

    // Keeps a call. It fails where it is to fail, or where there is no memory.
    fn call(&self, event: Event) -> io::Result<()> {
        let Ok(mut events) = self.events.try_borrow_mut() else {
            return Err(ErrorKind::ResourceBusy.into());
        };
        let last = events.last().copied();
        match last.and_then(|last| joined(last, event)) {
            Some(both) => {
                events.pop();
                events.push(both)?;
            }
            None => events.push(event)?,
        }
        if self.fault.get() == Some(event) {
            self.fault.set(None);
            return Err(ErrorKind::Other.into());
        }
        Ok(())
    }

    fn is_there(&self, name: Name) -> bool {
        match self.there.try_borrow() {
            Ok(there) => there.contains(&name),
            Err(_) => false,
        }
    }

    fn put(&self, name: Name) -> io::Result<()> {
        let Ok(mut there) = self.there.try_borrow_mut() else {
            return Err(ErrorKind::ResourceBusy.into());
        };
        there.push(name)?;
        Ok(())
    }

    fn take(&self, name: Name) -> io::Result<()> {
        if !self.is_there(name) {
            return Err(ErrorKind::NotFound.into());
        }
        if let Ok(mut there) = self.there.try_borrow_mut() {
            there.retain(|other| *other != name);
        }
        Ok(())
    }

    fn found(&self, path: &str) -> io::Result<Metadata> {
        let name = name_of(path)?;
        if !self.is_there(name) {
            return Err(ErrorKind::NotFound.into());
        }
        match name {
            Name::Above | Name::Folder => Ok(Metadata::of_dir()),
            Name::Fresh | Name::Log | Name::Volume => Ok(Metadata::of_file(8192)),
        }
    }
}

impl<'a> Files for FakeRuntime<'a> {
    type File = FakeFile<'a>;

    type Dir = io::Empty;

    fn open_file(&self, how: &OpenOptions, path: &str) -> io::Result<FakeFile<'a>> {
        let recorder = self.recorder;
        let name = name_of(path)?;
        if how.asks_create_new() {
            recorder.call(Event::Create(name))?;
            if recorder.is_there(name) {
                return Err(ErrorKind::AlreadyExists.into());
            }
            recorder.put(name)?;
        } else if how.asks_truncate() || how.asks_create() || how.asks_append() {
            recorder.call(Event::Overwrite(name))?;
        } else {
            recorder.call(Event::Open(name))?;
            recorder.found(path)?;
        }
        Ok(FakeFile { recorder, name })
    }

    fn open_dir(&self, _path: &str) -> io::Result<io::Empty> {
        Err(ErrorKind::Unsupported.into())
    }

    fn metadata(&self, path: &str) -> io::Result<Metadata> {
        self.recorder.found(path)
    }

    fn symlink_metadata(&self, path: &str) -> io::Result<Metadata> {
        self.recorder.found(path)
    }

    fn copy(&self, _from: &str, _to: &str) -> io::Result<u64> {
        Err(ErrorKind::Unsupported.into())
    }

    fn rename(&self, from: &str, to: &str) -> io::Result<()> {
        let (from, to) = (name_of(from)?, name_of(to)?);
        self.recorder.call(Event::Rename(from, to))?;
        self.recorder.take(from)?;
        self.recorder.put(to)
    }

    fn remove_file(&self, path: &str) -> io::Result<()> {
        let name = name_of(path)?;
        self.recorder.call(Event::Remove(name))?;
        self.recorder.take(name)
    }

    fn create_dir(&self, path: &str) -> io::Result<()> {
        let name = name_of(path)?;
        self.recorder.call(Event::MakeFolder)?;
        if self.recorder.is_there(name) {
            return Err(ErrorKind::AlreadyExists.into());
        }
        self.recorder.put(name)
    }

    fn remove_dir(&self, _path: &str) -> io::Result<()> {
        Err(ErrorKind::Unsupported.into())
    }

    fn remove_dir_all<B: Allocator>(&self, _alloc: B, _path: &str) -> io::Result<()> {
        Err(ErrorKind::Unsupported.into())
    }
}

// A write takes the first half of its bytes, a read gives the first half of what is wanted.
fn half(len: usize) -> usize
    ensures { result ≤ len }
{
    len - len / 2
}

impl<'a> FileExt for FakeFile<'a> {
    fn read_at(&self, buf: &mut [u8], offset: u64) -> io::Result<usize> {
        let count = half(buf.len());
        self.recorder.call(Event::Read(self.name, offset, count))?;
        if let Ok(bytes) = self.recorder.bytes.try_borrow() {
            for (byte, kept) in buf[..count]
                .iter_mut()
                .zip(bytes.iter().skip(offset as usize))
            {
                *byte = *kept;
            }
        }
        Ok(count)
    }

    fn write_at(&self, buf: &[u8], offset: u64) -> io::Result<usize> {
        let count = half(buf.len());
        self.recorder.call(Event::Write(self.name, offset, count))?;
        if let Ok(mut bytes) = self.recorder.bytes.try_borrow_mut() {
            for (kept, byte) in bytes.iter_mut().skip(offset as usize).zip(&buf[..count]) {
                *kept = *byte;
            }
        }
        Ok(count)
    }
}

impl<'a> TryLock for FakeFile<'a> {
    fn try_lock(&self) -> io::Result<()> {
        self.recorder.call(Event::Lock(self.name))
    }
}

impl<'a> OpenFile for FakeFile<'a> {
    fn metadata(&self) -> io::Result<Metadata> {
        match self.name {
            Name::Above | Name::Folder => Ok(Metadata::of_dir()),
            Name::Fresh | Name::Log | Name::Volume => Ok(Metadata::of_file(8192)),
        }
    }

    fn set_len(&self, _size: u64) -> io::Result<()> {
        self.recorder.call(Event::SetLength(self.name))
    }

    fn sync_all(&self) -> io::Result<()> {
        self.recorder.call(Event::SyncAll(self.name))
    }

    fn sync_data(&self) -> io::Result<()> {
        self.recorder.call(Event::SyncData(self.name))
    }

    fn try_clone(&self) -> io::Result<FakeFile<'a>> {
        Ok(FakeFile {
            recorder: self.recorder,
            name: self.name,
        })
    }
}

// No call of the edge uses the position of a file.
impl<'a> Read for FakeFile<'a> {
    fn read(&mut self, _buf: &mut [u8]) -> io::Result<usize> {
        Err(ErrorKind::Unsupported.into())
    }
}

impl<'a> Write for FakeFile<'a> {
    fn write(&mut self, _buf: &[u8]) -> io::Result<usize> {
        Err(ErrorKind::Unsupported.into())
    }

    fn flush(&mut self) -> io::Result<()> {
        Ok(())
    }
}

impl<'a> Seek for FakeFile<'a> {
    fn seek(&mut self, _to: SeekFrom) -> io::Result<u64> {
        Err(ErrorKind::Unsupported.into())
    }
}

impl<'a> Print for FakeRuntime<'a> {
    fn print<D: Display + Drop>(&self, _value: D) -> io::Result<()> {
        Err(ErrorKind::Unsupported.into())
    }

    fn println<D: Display + Drop>(&self, _value: D) -> io::Result<()> {
        Err(ErrorKind::Unsupported.into())
    }

    fn write_all(&self, bytes: &[u8]) -> io::Result<()> {
        self.recorder.call(Event::Say)?;
        let Ok(mut said) = self.recorder.said.try_borrow_mut() else {
            return Err(ErrorKind::ResourceBusy.into());
        };
        said.extend_from_slice(bytes)?;
        Ok(())
    }

    // Takes a byte at a time.
    fn write_some(&self, bytes: &[u8]) -> io::Result<usize> {
        let count = bytes.len().min(1);
        self.write_all(&bytes[..count])?;
        Ok(count)
    }
}
