//! An input that gives what a test says.
use std::alloc::Allocator;
use std::cell::Cell;
use std::io;
use std::io::{BufRead, ErrorKind, Lines, Read};

/// What one read gives.
#[derive(Clone, Copy)]
pub(crate) enum Heard {
    Bytes(&'static [u8]),
    Interrupted,
    Broken,
}

/// An input whose reads give one thing after the other, and then its end.
#[derive(Clone, Copy)]
pub(crate) struct FakeInput<'a> {
    pub(crate) heard: &'static [Heard],
    pub(crate) reads: &'a Cell<usize>,
}

#[derive(Drop)]
pub(crate) struct FakeReader<'a> {
    input: FakeInput<'a>,
}

impl<'a> Input for FakeInput<'a> {
    type Reader = FakeReader<'a>;

    fn read_line<A: Allocator + Clone>(&self, _buf: &mut String<A>) -> io::Result<usize> {
        Err(ErrorKind::Unsupported.into())
    }

    fn lines<A: Allocator>(&self, alloc: A) -> Lines<FakeReader<'a>, A> {
        self.reader().lines(alloc)
    }

    fn reader(&self) -> FakeReader<'a> {
        FakeReader { input: *self }
    }
}

impl<'a> Read for FakeReader<'a> {
    fn read(&mut self, buf: &mut [u8]) -> io::Result<usize> {
        let at = self.input.reads.get();
        self.input.reads.set(at.saturating_add(1));
        match self.input.heard.get(at) {
            Some(Heard::Bytes(bytes)) => {
                let count = bytes.len().min(buf.len());
                buf[..count].copy_from_slice(&bytes[..count]);
                Ok(count)
            }
            Some(Heard::Interrupted) => Err(ErrorKind::Interrupted.into()),
            Some(Heard::Broken) => Err(ErrorKind::Other.into()),
            None => Ok(0),
        }
    }
}

impl<'a> BufRead for FakeReader<'a> {
    fn fill_buf(&mut self) -> io::Result<&[u8]> {
        Err(ErrorKind::Unsupported.into())
    }

    fn consume(&mut self, _amount: usize) {}
}
