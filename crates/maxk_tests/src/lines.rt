// Lines in pieces of several sizes, and a source that fails.
use crate::texts::{Part, text_of};
use mdb_host::MemSource;
use mdb_model::fault::Failed;
use script_lines::{LineKind, LineReader};
use std::alloc::Global;
use std::test::Fail;

// What is found of a line.
#[derive(Clone, Copy, Debug, PartialEq, Eq)]
enum Found {
    // So many bytes.
    Text(usize),
    // More bytes than a line may have, which count as so many lines.
    TooLong(u64),
}

// What is found of each line, in pieces of at most so many bytes.
fn found_in(alloc: Global, bytes: &[u8], size: usize) -> Result<Vec<Found>, Fail> {
    let mut source = MemSource::new(alloc, bytes, size.max(1), &[])?;
    let mut reader = LineReader::new(alloc)?;
    let mut all = Vec::new(alloc);
    for _ in 0..99 {
        match reader.advance(&mut source)? {
            LineKind::Text => all.push(Found::Text(reader.text().len()))?,
            LineKind::TooLong(weight) => all.push(Found::TooLong(weight))?,
            LineKind::End => return Ok(all),
        }
    }
    Err(Fail::from("too many lines"))
}

// Scripts, and what is found in them. A CR belongs to the end of a line, but not to that of the
// script.
const SCRIPTS: [(&'static [Part], &'static [Found]); 5] = [
    (
        &[
            (b"a\r\n\n\r\nb\rc\n", 8192, b"\r\n", 1),
            (b"", 8193, b"\r\n", 1),
            (b"", 16385, b"\r\n", 1),
            (b"", 20000, b"\r\nlast\r", 1),
        ],
        &[
            Found::Text(1),
            Found::Text(0),
            Found::Text(0),
            Found::Text(3),
            Found::Text(8192),
            Found::TooLong(2),
            Found::TooLong(3),
            Found::TooLong(3),
            Found::Text(5),
        ],
    ),
    (&[(b"", 8192, b"\r", 1)], &[Found::TooLong(2)]),
    (&[(b"\r", 0, b"", 1)], &[Found::Text(1)]),
    (&[], &[]),
    (&[(b"\n", 0, b"", 1)], &[Found::Text(0)]),
];

#[test]
fn finds_lines_of_all_lengths(rt: HostRuntime) -> Result<(), Fail> {
    for (parts, want) in SCRIPTS {
        let bytes = text_of(rt.alloc(), parts)?;
        for size in [1, 3, 8192, 99_999] {
            let found = found_in(rt.alloc(), &bytes, size)?;
            assert_eq!(rt; found.as_slice(), want, "in pieces of {size}");
        }
    }
    Ok(())
}

#[test]
fn gives_no_part_of_a_line(rt: HostRuntime) -> Result<(), Fail> {
    let mut source = MemSource::new(rt.alloc(), b"one\ntwo", 2, &[5])?;
    let mut reader = LineReader::new(rt.alloc())?;
    assert_eq!(rt; reader.advance(&mut source), Ok(LineKind::Text));
    assert_eq!(rt; reader.text(), b"one".as_slice());
    assert_eq!(rt; reader.advance(&mut source), Err(Failed));
    Ok(())
}
