//! The host in memory, and what a crash may leave of it.
use crate::steps::{FAILS, LIFE, LOG, MEDIUM, OK, Step, VOLUME, run};
use host_tests::{MuteHost, new_area, try_read};
use mdb_host::{Failed, Host, MemHost};
use std::test::Fail;

#[test]
fn memory_keeps_what_is_written(rt: HostRuntime) -> Result<(), Fail> {
    let mut host = MemHost::new(rt.alloc(), &[])?;
    run(&rt, &mut host, &LIFE);
    assert_eq!(rt; host.say(b"one\n"), Ok(()));
    assert_eq!(rt; host.say(b"two\n"), Ok(()));
    assert_eq!(rt; host.output(), b"one\ntwo\n".as_slice());
    assert_eq!(rt; host.now(), 18);
    assert_eq!(rt; host.reads(), 5);
    Ok(())
}

// Ranges on two devices, of which the first on the log is synced.
const RANGES: [Step; 7] = [
    Step::Make(LOG, 1, OK),
    Step::Make(VOLUME, 1, OK),
    Step::Write(LOG, 0, b"AAAAAAA", OK),
    Step::Write(VOLUME, 4, b"dd", OK),
    Step::Sync(LOG, OK),
    Step::Write(LOG, 2, b"BBB", OK),
    Step::Write(LOG, 4, b"CCC", OK),
];

#[test]
fn images_follow_the_digits(rt: HostRuntime) -> Result<(), Fail> {
    let mut host = MemHost::new(rt.alloc(), &[])?;
    run(&rt, &mut host, &RANGES);
    // the moment, the pick, then byte 4 of the volume and the first bytes of the log
    let cases: [(u64, u64, &'static [u8], &'static [u8]); 13] = [
        (7, 0, b"\0\0", b"AAAAAAA\0"),
        (7, 0b01_01_01, b"dd", b"AABBCCC\0"),
        (7, 0b10_10_10, b"OO", b"AAOOOOO\0"),
        (7, 0b11_11_11, b"\0\0", b"AA\0\0\0\0\0\0"),
        (7, 0b00_01_00, b"\0\0", b"AABBBAA\0"),
        (7, 0b01_00_11, b"\0\0", b"AAAACCC\0"),
        (7, 0b10_01_01, b"dd", b"AABBOOO\0"),
        (7, 0b11_10_00, b"\0\0", b"AAOO\0\0\0\0"),
        (6, 0b10_01_01, b"dd", b"AABBBAA\0"),
        (5, 0b10_01_01, b"dd", b"AAAAAAA\0"),
        (4, 0b10_01, b"OO", b"AAAAAAA\0"),
        (4, 0b01_11, b"dd", b"\0\0\0\0\0\0\0\0"),
        (2, u64::MAX, b"\0\0", b"\0\0\0\0\0\0\0\0"),
    ];
    for (at, pick, volume, log) in cases {
        assert!(&rt; at <= host.now());
        let mut image = host.image(rt.alloc(), at, pick)?;
        run(
            &rt,
            &mut image,
            &[Step::Read(VOLUME, 4, volume), Step::Read(LOG, 0, log)],
        );
    }
    for (at, log, volume) in [(0, None, None), (1, Some(1), None), (2, Some(1), Some(1))] {
        assert!(&rt; at <= host.now());
        let mut image = host.image(rt.alloc(), at, 0)?;
        run(
            &rt,
            &mut image,
            &[Step::Size(LOG, log), Step::Size(VOLUME, volume)],
        );
    }
    Ok(())
}

// Torn in turn, an image holds nothing of what was there before it was made anew.
const ANEW: [Step; 5] = [
    Step::Read(LOG, 0, b"xO\0"),
    Step::Read(LOG, 30, b"\0xxO\0"),
    Step::Remove(LOG, OK),
    Step::Make(LOG, 2, OK),
    Step::Write(LOG, 8192, b"new", OK),
];

#[test]
fn images_begin_again_after_32_digits(rt: HostRuntime) -> Result<(), Fail> {
    let mut host = MemHost::new(rt.alloc(), &[])?;
    run(&rt, &mut host, &[Step::Make(LOG, 1, OK)]);
    for at in 0..34 {
        run(&rt, &mut host, &[Step::Write(LOG, at, b"x", OK)]);
    }
    // digits 0 and 31 are 1, digit 1 is 2
    let mut image = host.image(rt.alloc(), host.now(), 1 + 2 * 4 + (1 << 62))?;
    run(&rt, &mut image, &ANEW);
    let mut torn = image.image(rt.alloc(), image.now(), 2)?;
    run(
        &rt,
        &mut torn,
        &[Step::Read(LOG, 0, b"\0\0"), Step::Read(LOG, 8192, b"OOO\0")],
    );
    assert_eq!(rt; torn.now(), 2);
    assert_eq!(rt; torn.reads(), 2);
    assert_eq!(rt; torn.output().len(), 0);
    Ok(())
}

// The calls 1, 4, 6, 8 and 11 are to fail, and 9 is the first of two texts.
const LISTED: [Step; 9] = [
    Step::Make(LOG, 1, FAILS),
    Step::Make(LOG, 1, OK),
    Step::Write(LOG, 0, b"old", OK),
    Step::Sync(LOG, FAILS),
    Step::Sync(LOG, OK),
    Step::Write(LOG, 0, b"new", FAILS),
    Step::Read(LOG, 0, b"old"),
    Step::ReadFails(LOG, 0),
    Step::Size(LOG, Some(1)),
];

const AFTERWARDS: [Step; 5] = [
    Step::Remove(LOG, FAILS),
    Step::Size(LOG, Some(1)),
    Step::Read(LOG, 0, b"old"),
    Step::Remove(LOG, OK),
    Step::Size(LOG, None),
];

#[test]
fn listed_calls_fail(rt: HostRuntime) -> Result<(), Fail> {
    let mut host = MemHost::new(rt.alloc(), &[1, 4, 6, 8, 10, 11])?;
    run(&rt, &mut host, &LISTED);
    assert_eq!(rt; host.say(b"whole "), Ok(()));
    assert_eq!(rt; host.say(b"halved"), Err(Failed));
    assert_eq!(rt; host.output(), b"whole hal".as_slice());
    // a failed sync settles nothing, and a failed write leaves its range unsynced
    let cases: [(u64, u64, &'static [u8]); 7] = [
        (4, 0, b"\0\0\0"),
        (4, 1, b"old"),
        (5, 0, b"old"),
        (10, 0, b"old"),
        (10, 1, b"new"),
        (10, 2, b"OOO"),
        (10, 3, b"\0\0\0"),
    ];
    for (at, pick, want) in cases {
        assert!(&rt; at <= host.now());
        let mut image = host.image(rt.alloc(), at, pick)?;
        run(&rt, &mut image, &[Step::Read(LOG, 0, want)]);
    }
    run(&rt, &mut host, &AFTERWARDS);
    assert_eq!(rt; host.now(), 13);
    assert_eq!(rt; host.reads(), 3);
    Ok(())
}

// Without the fit, a call on what is absent, or past the end, fails and counts.
const MISFITS: [Step; 5] = [
    Step::ReadFails(LOG, 0),
    Step::Write(LOG, 0, b"x", FAILS),
    Step::Sync(LOG, FAILS),
    Step::Remove(LOG, FAILS),
    Step::Make(VOLUME, 1, FAILS),
];

#[test]
fn a_mute_host_does_what_memory_does(rt: HostRuntime) -> Result<(), Fail> {
    let mut host = MuteHost::new(MemHost::new(rt.alloc(), &[])?);
    run(&rt, &mut host, &LIFE);
    assert_eq!(rt; host.say(b"one\n"), Ok(()));
    assert_eq!(rt; host.told().output(), b"one\n".as_slice());
    assert_eq!(rt; host.told().reads(), 5);
    let mut area = new_area(rt.alloc(), 600)?;
    run(&rt, &mut area, &MISFITS);
    assert_eq!(rt; area.size(VOLUME), Some(600));
    let mut bytes = [0u8; 9];
    assert_eq!(rt; try_read(&mut area, VOLUME, 67, &mut bytes), OK);
    assert_eq!(rt; &bytes, b"\x03\0\0\0\x01\0\0\x02\x58");
    Ok(())
}
