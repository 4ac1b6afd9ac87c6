// The lines of a script, read in pieces.
ghost use Rattle.std.specs.Prelude.{◌≡◌, ◌⊎◌, ℕ, ◌+◌, ◌-◌, ◌^◌, ◌≤◌, ◌<◌, ◌==◌, Option, List, [], ◌++◌, length, take, drop, IfOk, IfSome, OnOk, OnErr, MatchResult, true, false};
ghost use Rattle.std.specs.List.{position};
ghost use Rattle.std.specs.Str.Lines.{strip_carriage_return};
ghost use Rattle.mdb_model.specs.Causes.{HasCause};
ghost use Rattle.script_lines.specs.Reading.{Reading, HasRead, Advances, Pulls, IsNewlineScanned, HasNoNewline, Drops, PullsNoNewline, IsKind, IsLastKind, IsLineFound};

use crate::window::Window;
use mdb_host::Source;
use mdb_model::fault::{Failed, Memory};
use mdb_model::limits::LONGEST_LINE;
use std::alloc::Global;
use std::marker::Model;
/// The most lines that a line is said to count as.
const MOST_WEIGHT: u64 = 4_294_967_296;

/// A line of so many bytes counts as the most lines, whatever follows.
const MOST_BYTES: u64 = 35_184_372_088_832;

/// What stands next in a script.
#[derive(Clone, Copy, Debug, PartialEq, Eq)]
pub enum LineKind {
    /// A line of at most 8,192 bytes.
    Text,
    /// A longer one, which counts as so many lines, or as 2^32 where it counts as more.
    TooLong(u64),
    /// No line is left.
    End,
}

// What the bytes that were read have.
#[derive(Clone, Copy, PartialEq)]
enum Scanned {
    // An LF at this place, and none before it.
    Newline(usize),
    // No LF, and the source has no more.
    AtEnd,
    // No LF, and more bytes than a line that is kept can have.
    Unended,
}

// What stands ahead, after so many bytes of a line that were dropped.
#[derive(Clone, Copy)]
struct Ahead {
    dropped: u64,
    scanned: Scanned,
}

// What the bytes in front are: so many of a line, so many with its end, and whether nothing
// follows.
#[derive(Clone, Copy)]
struct Found {
    kind: LineKind,
    text: usize,
    taken: usize,
    at_end: bool,
}

/// Reads a script in pieces, and finds its lines one by one. A reader whose source failed, or that
/// met a line of 2^32 lines and more, is not to be asked again.
#[derive(Drop)]
pub struct LineReader {
    // Begins with the line that was found last.
    window: Window,
    // How many bytes that line has.
    text: usize,
    // And with its end.
    taken: usize,
    at_end: bool,
}

impl Model for LineReader {
    ghost Value = { Reading };

    ghost view = { λ r. record {
      rest = drop r.taken r.window;
      text = take r.text r.window;
      at_end =
          r.at_end;
    } };

    ghost invariant = { λ r. (r.text ≤ length r.window) × (r.taken ≤ length r.window) };
}

impl LineReader {
    /// Takes the memory for all that is read.
    pub fn new(alloc: Global) -> Result<LineReader, Memory>
        ensures { IfOk result (λ r. (left : List ℕ) → HasRead r [] left []) }
    {
        let Ok(window) = Window::new(alloc) else {
            return Err(Memory);
        };
        Ok(LineReader {
            window,
            text: 0,
            taken: 0,
            at_end: false,
        })
    }

    /// The line that was found last, without its end.
    pub fn text(&self) -> &[u8]
        ensures { result.now ≡ self.now.text }
    {
        &self.window.bytes()[..self.text]
    }

    /// Finds the next line.
    pub fn advance<S: Source>(&mut self, source: &mut S) -> Result<LineKind, Failed>
        ensures advances { Advances (S.left source.old) (S.left source.new) self.old self.new
            result }
        ensures text { IfOk result (λ kind. kind ≡ LineKind.Text → length self.new.text ≤ 8192) }
        ensures cause { HasCause (S.faults source.old) (S.faults source.new) result }
    {
        self.window.skip(self.taken);
        self.text = 0;
        self.taken = 0;
        if self.at_end {
            return Ok(LineKind::End);
        }
        let Ok(ahead) = look_ahead(&mut self.window, source) else {
            return Err(Failed);
        };
        let found = find(self.window.bytes(), ahead.dropped, ahead.scanned);
        self.text = found.text;
        self.taken = found.taken;
        self.at_end = found.at_end;
        Ok(found.kind)
    }
}

// Looks for the end of the line that begins here. Of a line that is too long the bytes are counted
// and dropped, but for the last one, which may be the CR of its end.
fn look_ahead<S: Source>(window: &mut Window, source: &mut S) -> Result<Ahead, Failed>
    ensures drops { IfOk result (λ a. Drops (S.left source.old) (S.left source.new) window.old
        a.dropped window.new) }
    ensures failed { OnErr result (PullsNoNewline (S.left source.old) (S.left source.new) window.old
        window.new) }
    ensures scanned { IfOk result (λ a. IsNewlineScanned window.new a.scanned) }
    ensures end { IfOk result (λ a. a.scanned ≡ Scanned.AtEnd
        → IfSome (S.left source.new) (λ left. left ≡ [])) }
    ensures endless { IfOk result (λ a. a.scanned ≡ Scanned.Unended → 2 ^ 45 ≤ a.dropped) }
    ensures few { IfOk result (λ a. a.dropped ≤ 2 ^ 46) }
    ensures cause { HasCause (S.faults source.old) (S.faults source.new) result }
{
    let mut dropped = 0;
    while dropped < MOST_BYTES {
        let Ok(scanned) = scan(window, source) else {
            return Err(Failed);
        };
        if scanned != Scanned::Unended {
            return Ok(Ahead { dropped, scanned });
        }
        dropped += shorten(window);
    }
    Ok(Ahead {
        dropped,
        scanned: Scanned::Unended,
    })
}

// Drops all bytes but the last one, and answers how many.
fn shorten(window: &mut Window) -> u64
    requires { 0 < length window.old }
    ensures count { result + 1 ≡ length window.old }
    ensures after { window.new ≡ drop result window.old }
    ensures few { result ≤ 16384 }
{
    let count = window.bytes().len() - 1;
    window.skip(count);
    count as u64
}

// Reads until there is an LF, or until there are more bytes than a line that is kept can have with
// its CR.
fn scan<S: Source>(window: &mut Window, source: &mut S) -> Result<Scanned, Failed>
    ensures pulls { Pulls (S.left source.old) (S.left source.new) window.old window.new }
    ensures scanned { IfOk result (λ s. IsNewlineScanned window.new s) }
    ensures failed { OnErr result (HasNoNewline window.new) }
    ensures end { IfOk result (λ s. s ≡ Scanned.AtEnd
        → IfSome (S.left source.new) (λ left. left ≡ [])) }
    ensures long { IfOk result (λ s. s ≡ Scanned.Unended → 8193 < length window.new) }
    ensures cause { HasCause (S.faults source.old) (S.faults source.new) result }
{
    let mut searched = 0;
    loop {
        if let Some(place) = newline_in(&window.bytes()[searched..]) {
            return Ok(Scanned::Newline(searched + place));
        }
        searched = window.bytes().len();
        if searched > LONGEST_LINE + 1 {
            return Ok(Scanned::Unended);
        }
        let Ok(count) = window.fill(source) else {
            return Err(Failed);
        };
        if count == 0 {
            return Ok(Scanned::AtEnd);
        }
    }
}

// What the line is whose end stands ahead.
fn find(bytes: &[u8], dropped: u64, scanned: Scanned) -> Found
    requires scanned { IsNewlineScanned bytes.now scanned }
    requires few { dropped ≤ 2 ^ 46 }
    requires short { length bytes.now ≤ 2 ^ 46 }
    ensures { IsLineFound bytes.now dropped scanned result }
{
    match scanned {
        Scanned::Newline(place) => {
            let text = without_return(&bytes[..place]);
            Found {
                kind: kind_of(dropped + text as u64),
                text,
                taken: place + 1,
                at_end: false,
            }
        }
        Scanned::AtEnd => {
            let text = bytes.len();
            Found {
                kind: last_kind(dropped + text as u64),
                text,
                taken: text,
                at_end: true,
            }
        }
        Scanned::Unended => Found {
            kind: LineKind::TooLong(MOST_WEIGHT),
            text: 0,
            taken: 0,
            at_end: false,
        },
    }
}

fn newline_in(bytes: &[u8]) -> Option<usize>
    ensures { result ≡ position (λ b. b == 10) bytes.now }
{
    bytes.iter().position(|b| *b == b'\n')
}

// How long a line is that ended with an LF, without the one CR before that.
fn without_return(line: &[u8]) -> usize
    ensures { result ≡ length (strip_carriage_return line.now) }
{
    match line.last() {
        Some(b'\r') => line.len() - 1,
        _ => line.len(),
    }
}

fn kind_of(length: u64) -> LineKind
    requires { length ≤ 2 ^ 47 }
    ensures { IsKind length result }
{
    if length <= LONGEST_LINE as u64 {
        LineKind::Text
    } else {
        LineKind::TooLong(length.div_ceil(LONGEST_LINE as u64).min(MOST_WEIGHT))
    }
}

// A line that ends with the source: an empty one is none.
fn last_kind(length: u64) -> LineKind
    requires { length ≤ 2 ^ 47 }
    ensures { IsLastKind length result }
{
    if length == 0 {
        LineKind::End
    } else {
        kind_of(length)
    }
}
