//! Scripts in memory and from an input.
use crate::fake_input::{FakeInput, Heard};
use mdb_host::{Failed, MemSource, Source, StdSource};
use std::cell::Cell;
use std::test::Fail;

#[test]
fn a_source_hands_out_pieces(rt: HostRuntime) -> Result<(), Fail> {
    let mut source = MemSource::new(rt.alloc(), b"abcdefg", 3, &[2])?;
    let mut buffer = [0u8; 4];
    let answers: [(usize, Result<usize, Failed>, &[u8; 4]); 7] = [
        (4, Ok(3), b"abc\0"),
        (4, Err(Failed), b"abc\0"),
        (0, Ok(0), b"abc\0"),
        (2, Ok(2), b"dec\0"),
        (4, Ok(2), b"fgc\0"),
        (4, Ok(0), b"fgc\0"),
        (4, Ok(0), b"fgc\0"),
    ];
    for (room, want, bytes) in answers {
        assert!(&rt; room <= 4);
        assert_eq!(rt; source.next(&mut buffer[..room]), want);
        assert_eq!(rt; &buffer, bytes);
    }
    Ok(())
}

#[test]
fn an_input_that_breaks_is_no_end(rt: HostRuntime) -> Result<(), Fail> {
    let reads = Cell::new(0);
    let input = FakeInput {
        heard: &[
            Heard::Bytes(b"abc"),
            Heard::Interrupted,
            Heard::Bytes(b"de"),
            Heard::Broken,
            Heard::Bytes(b"f"),
        ],
        reads: &reads,
    };
    let mut source = StdSource::new(&input);
    let mut buffer = [0u8; 4];
    // a read that a signal cut short is made again, and another fault is reported
    let answers: [(Result<usize, Failed>, &[u8; 4], usize); 6] = [
        (Ok(3), b"abc\0", 1),
        (Ok(2), b"dec\0", 3),
        (Err(Failed), b"dec\0", 4),
        (Ok(1), b"fec\0", 5),
        (Ok(0), b"fec\0", 6),
        (Ok(0), b"fec\0", 7),
    ];
    for (want, bytes, count) in answers {
        assert_eq!(rt; source.next(&mut buffer), want);
        assert_eq!(rt; &buffer, bytes);
        assert_eq!(rt; reads.get(), count);
    }
    Ok(())
}
