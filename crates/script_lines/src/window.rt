// Bytes of a source that were read and not yet used.
ghost use Rattle.std.specs.Prelude.{◌≡◌, ℕ, ◌+◌, ◌-◌, ◌≤◌, ◌<◌, List, [], ◌++◌, length, take, drop, IfOk, IfSome, OnErr, vec_len};
ghost use Rattle.mdb_model.specs.Causes.{HasCause};
ghost use Rattle.mdb_host.specs.Script.{TakesFrom};
ghost use Rattle.script_lines.specs.Reading.{Pulls};

use mdb_host::Source;
use mdb_model::fault::{Failed, Memory};
use std::alloc::Global;
use std::marker::Model;

/// How many bytes a window holds.
pub const CAPACITY: usize = 16_384;

/// A part of a buffer, which grows at its end by reading and shrinks from its front.
#[derive(Drop)]
pub struct Window {
    buffer: Vec<u8>,
    start: usize,
    end: usize,
}

impl Model for Window {
    ghost Value = { List ℕ };

    ghost view = { λ w. take (w.end - w.start) (drop w.start w.buffer.items) };

    ghost invariant = { λ w. (w.start ≤ w.end) × (w.end ≤ 16384) × (vec_len w.buffer ≡ 16384) };
}

impl Window {
    pub fn new(alloc: Global) -> Result<Window, Memory>
        ensures { IfOk result (λ w. w ≡ []) }
    {
        let Ok(buffer) = vec![in alloc; 0u8; CAPACITY] else {
            return Err(Memory);
        };
        Ok(Window {
            buffer,
            start: 0,
            end: 0,
        })
    }

    pub fn bytes(&self) -> &[u8]
        ensures value { result.now ≡ self.now }
        ensures bound { length self.now ≤ 16384 }
    {
        &self.buffer[self.start..self.end]
    }

    /// Takes the first bytes off.
    pub fn skip(&mut self, count: usize)
        requires { count ≤ length self.old }
        ensures { self.new ≡ drop count self.old }
    {
        self.start += count;
    }

    /// Adds what one call of the source gives, and answers how many bytes that is: none only at the
    /// end.
    pub fn fill<S: Source>(&mut self, source: &mut S) -> Result<usize, Failed>
        requires { length self.old < 16384 }
        ensures pulls { Pulls (S.left source.old) (S.left source.new) self.old self.new }
        ensures count { IfOk result (λ n. length self.new ≡ length self.old + n) }
        ensures end { IfOk result (λ n. n ≡ 0 → IfSome (S.left source.new) (λ left. left ≡ [])) }
        ensures kept { OnErr result (self.new ≡ self.old) }
        ensures cause { HasCause (S.faults source.old) (S.faults source.new) result }
    {
        let start = make_room(&mut self.buffer, self.start, self.end);
        self.end -= self.start - start;
        self.start = start;
        let Ok(count) = read_behind(&mut self.buffer, self.end, source) else {
            return Err(Failed);
        };
        self.end += count;
        Ok(count)
    }
}

// Moves a part that ends with its buffer to the front. Answers where the part begins.
fn make_room(buffer: &mut Vec<u8>, start: usize, end: usize) -> usize
    requires low { start ≤ end }
    requires high { end ≤ vec_len buffer.old }
    ensures part { take (end - start) (drop result buffer.new.items)
        ≡ take (end - start) (drop start buffer.old.items) }
    ensures bound { result ≤ start }
    ensures room { end - start < vec_len buffer.old → result + (end - start) < vec_len buffer.old }
    ensures len { vec_len buffer.new ≡ vec_len buffer.old }
{
    if end < buffer.len() {
        return start;
    }
    buffer.copy_within(start..end, 0);
    0
}

// Reads into the part of a buffer from a place on.
fn read_behind<S: Source>(buffer: &mut Vec<u8>, end: usize, source: &mut S) -> Result<usize, Failed>
    requires { end ≤ vec_len buffer.old }
    ensures len { vec_len buffer.new ≡ vec_len buffer.old }
    ensures read { (into : List ℕ) × (buffer.new.items ≡ take end buffer.old.items ++ into)
        × (length into ≡ vec_len buffer.old - end)
        × IfOk result (λ n. (n ≤ length into)
        × TakesFrom (S.left source.old) (S.left source.new) n into) }
    ensures kept { OnErr result (S.left source.new ≡ S.left source.old) }
    ensures cause { HasCause (S.faults source.old) (S.faults source.new) result }
{
    source.next(&mut buffer[end..])
}
