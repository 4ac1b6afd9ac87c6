//! A script from the standard input.
ghost use Rattle.std.specs.Prelude.{◌≡◌, ◌≤◌, ℕ, length, List, None, IfOk};

use crate::faults::rise;
use crate::source::Source;
use mdb_model::fault::Failed;
use std::io;
use std::io::{ErrorKind, Read};

// How often a read that a signal cut short is tried again.
const TRIES: usize = 64;

/// The bytes of the standard input. It does not tell which they are.
#[derive(Drop)]
pub struct StdSource<'a, R: Input> {
    rt: &'a R,
    faults: u64,
}

// Nothing is read ahead, so nothing is lost with the reader.
fn read_once<R: Input>(rt: &R, into: &mut [u8]) -> io::Result<usize>
    ensures { IfOk result (λ n. n ≤ length into.new) }
{
    let mut reader = rt.reader();
    reader.read(into)
}

fn read_some<R: Input>(rt: &R, into: &mut [u8]) -> io::Result<usize>
    ensures { IfOk result (λ n. n ≤ length into.new) }
{
    for _ in 0..TRIES {
        match read_once(rt, into) {
            Err(error) if error.kind() == ErrorKind::Interrupted => {}
            answer => return answer,
        }
    }
    Err(ErrorKind::Interrupted.into())
}

impl<'a, R: Input> StdSource<'a, R> {
    pub fn new(rt: &'a R) -> StdSource<'a, R>
        ensures { ⟦<StdSource<'a, R> as Source>⟧.faults result ≡ 0 }
    {
        StdSource { rt, faults: 0 }
    }
}

impl<'a, R: Input> Source for StdSource<'a, R> {
    ghost left = { λ m. None };

    ghost faults = { λ m. m.faults };

    fn next(&mut self, into: &mut [u8]) -> Result<usize, Failed> {
        match read_some(self.rt, into) {
            Ok(count) => Ok(count),
            Err(_) => Err(rise(&mut self.faults)),
        }
    }
}
