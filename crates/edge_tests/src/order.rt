//! The calls that a host over files makes, in their order, and what it does where one fails.
use crate::fake_files::{Event, FakeRuntime, Name, Recorder};
use crate::steps::{FAILS, LOG, OK, VOLUME};
use host_tests::{try_make, try_read, try_remove, try_sync, try_write};
use mdb_host::{Device, Failed, FileHost, Host};
use std::process::Abort;
use std::test::Fail;

/// A call of a host. Ranges have 8 bytes from byte 5 on, and a device is made with 19 pages.
#[derive(Clone, Copy)]
enum Call {
    Read(Device),
    Write(Device),
    Sync(Device),
    Make(Device),
    Remove(Device),
}

/// A call, the call of a file that fails in it, its answer, and all calls of files.
type Act<'e> = (Call, Option<Event>, Result<(), Failed>, &'e [&'e [Event]]);

fn answer_of<H: Host>(host: &mut H, call: Call) -> Result<(), Failed> {
    match call {
        Call::Read(device) => try_read(host, device, 5, &mut [0u8; 8]),
        Call::Write(device) => try_write(host, device, 5, b"abcdefgh"),
        Call::Sync(device) => try_sync(host, device),
        Call::Make(device) => try_make(host, device, 19),
        Call::Remove(device) => try_remove(host, device),
    }
}

// Makes the calls, each of which has to answer as it is wanted and make just these calls of files.
fn run<H: Host, R: Abort>(rt: &R, recorder: &Recorder, host: &mut H, acts: &[Act<'_>]) {
    for (number, (call, fault, want, events)) in acts.iter().enumerate() {
        recorder.fail(*fault);
        assert_eq!(rt; answer_of(host, *call), *want, "act {number}");
        assert!(rt; recorder.were(*events), "act {number}");
    }
}

// The same over files of which some are there.
fn run_over<R: Abort + AllocGlobal>(rt: &R, there: &[Name], acts: &[Act<'_>]) -> Result<(), Fail> {
    let recorder = Recorder::new(rt.alloc(), there)?;
    let fake = FakeRuntime {
        recorder: &recorder,
    };
    let mut host = FileHost::new(&fake, rt.alloc(), "db")?;
    run(rt, &recorder, &mut host, acts);
    Ok(())
}

const DATABASE: [Name; 4] = [Name::Above, Name::Folder, Name::Log, Name::Volume];

// The folder is taken for this process.
const HOLDS: [Event; 2] = [Event::Open(Name::Folder), Event::Lock(Name::Folder)];

// The file of the log is.
const OPENS: [Event; 2] = [Event::Open(Name::Log), Event::Lock(Name::Log)];

const OPENS_VOLUME: [Event; 2] = [Event::Open(Name::Volume), Event::Lock(Name::Volume)];

const WRITES: [Event; 1] = [Event::Write(Name::Log, 5, 8)];

const SYNCS_NAMES: [Event; 1] = [Event::SyncAll(Name::Folder)];

const SYNCS: [Event; 1] = [Event::SyncData(Name::Log)];

const SYNCS_VOLUME: [Event; 1] = [Event::SyncData(Name::Volume)];

const IN_ORDER: [Act<'static>; 5] = [
    (
        Call::Sync(LOG),
        None,
        OK,
        &[&HOLDS, &OPENS, &SYNCS_NAMES, &SYNCS],
    ),
    (Call::Write(LOG), None, OK, &[&WRITES]),
    (
        Call::Read(LOG),
        None,
        OK,
        &[&[Event::Read(Name::Log, 5, 8)]],
    ),
    (Call::Sync(LOG), None, OK, &[&SYNCS]),
    (
        Call::Sync(VOLUME),
        None,
        OK,
        &[&OPENS_VOLUME, &SYNCS_VOLUME],
    ),
];

#[test]
fn a_sync_makes_the_name_last_and_then_the_bytes(rt: HostRuntime) -> Result<(), Fail> {
    run_over(&rt, &DATABASE, &IN_ORDER)
}

// The folder above is synced whether the folder was there or not, and so are the zeros before they
// get a name, and the name.
const MAKES_FOLDER: [Event; 3] = [
    Event::MakeFolder,
    Event::Open(Name::Above),
    Event::SyncAll(Name::Above),
];

const MAKES_FRESH: [Event; 3] = [
    Event::Remove(Name::Fresh),
    Event::Create(Name::Fresh),
    Event::Lock(Name::Fresh),
];

const ZEROS: [Event; 2] = [
    Event::Write(Name::Fresh, 0, 155_648),
    Event::SyncAll(Name::Fresh),
];

const NAMES: [Event; 1] = [Event::Rename(Name::Fresh, Name::Log)];

const NAMES_VOLUME: [Event; 1] = [Event::Rename(Name::Fresh, Name::Volume)];

const GIVES_UP: [Event; 1] = [Event::Remove(Name::Fresh)];

// A made file is still open under the name that it was made by.
const WRITES_FRESH: [Event; 1] = [Event::Write(Name::Fresh, 5, 8)];

const SYNCS_FRESH: [Event; 1] = [Event::SyncData(Name::Fresh)];

const MAKES: [Act<'static>; 5] = [
    (
        Call::Make(LOG),
        None,
        OK,
        &[
            &MAKES_FOLDER,
            &HOLDS,
            &MAKES_FRESH,
            &ZEROS,
            &NAMES,
            &SYNCS_NAMES,
        ],
    ),
    (Call::Write(LOG), None, OK, &[&WRITES_FRESH]),
    (Call::Sync(LOG), None, OK, &[&SYNCS_FRESH]),
    (
        Call::Remove(LOG),
        None,
        OK,
        &[&[Event::Remove(Name::Log)], &SYNCS_NAMES],
    ),
    (
        Call::Make(VOLUME),
        None,
        OK,
        &[
            &MAKES_FOLDER,
            &MAKES_FRESH,
            &ZEROS,
            &NAMES_VOLUME,
            &SYNCS_NAMES,
        ],
    ),
];

#[test]
fn a_made_file_has_its_zeros_before_its_name(rt: HostRuntime) -> Result<(), Fail> {
    run_over(&rt, &[Name::Above], &MAKES)?;
    run_over(&rt, &[Name::Above, Name::Folder, Name::Fresh], &MAKES)
}

// A call that fails on the way to a file and its name, and the same call again. The last one leaves
// the file there, and what is missing of its name is made good by the sync.
const MAKES_AGAIN: [Act<'static>; 9] = [
    (
        Call::Make(LOG),
        Some(Event::SyncAll(Name::Above)),
        FAILS,
        &[&MAKES_FOLDER],
    ),
    (
        Call::Make(LOG),
        Some(Event::Lock(Name::Folder)),
        FAILS,
        &[&MAKES_FOLDER, &HOLDS],
    ),
    (
        Call::Make(LOG),
        Some(Event::Lock(Name::Fresh)),
        FAILS,
        &[&MAKES_FOLDER, &HOLDS, &MAKES_FRESH],
    ),
    (
        Call::Make(LOG),
        Some(Event::SyncAll(Name::Fresh)),
        FAILS,
        &[&MAKES_FOLDER, &MAKES_FRESH, &ZEROS, &GIVES_UP],
    ),
    (
        Call::Make(LOG),
        Some(Event::Rename(Name::Fresh, Name::Log)),
        FAILS,
        &[&MAKES_FOLDER, &MAKES_FRESH, &ZEROS, &NAMES, &GIVES_UP],
    ),
    (
        Call::Make(LOG),
        Some(Event::SyncAll(Name::Folder)),
        FAILS,
        &[&MAKES_FOLDER, &MAKES_FRESH, &ZEROS, &NAMES, &SYNCS_NAMES],
    ),
    (Call::Write(LOG), None, OK, &[&WRITES_FRESH]),
    (Call::Sync(LOG), None, OK, &[&SYNCS_NAMES, &SYNCS_FRESH]),
    (Call::Sync(LOG), None, OK, &[&SYNCS_FRESH]),
];

// A name that is taken away, where the sync of that failed.
const REMOVES_AGAIN: [Act<'static>; 3] = [
    (
        Call::Remove(LOG),
        Some(Event::SyncAll(Name::Folder)),
        FAILS,
        &[&HOLDS, &[Event::Remove(Name::Log)], &SYNCS_NAMES],
    ),
    (
        Call::Sync(VOLUME),
        None,
        OK,
        &[&OPENS_VOLUME, &SYNCS_NAMES, &SYNCS_VOLUME],
    ),
    (Call::Sync(VOLUME), None, OK, &[&SYNCS_VOLUME]),
];

#[test]
fn what_failed_on_the_way_to_a_name_is_done_again(rt: HostRuntime) -> Result<(), Fail> {
    run_over(&rt, &[Name::Above], &MAKES_AGAIN)?;
    run_over(&rt, &[Name::Above, Name::Folder], &MAKES_AGAIN)?;
    run_over(&rt, &DATABASE, &REMOVES_AGAIN)
}

const LOSES_BYTES: [Act<'static>; 9] = [
    (Call::Write(LOG), None, OK, &[&HOLDS, &OPENS, &WRITES]),
    (
        Call::Sync(LOG),
        Some(Event::SyncData(Name::Log)),
        FAILS,
        &[&SYNCS_NAMES, &SYNCS],
    ),
    (Call::Sync(LOG), None, FAILS, &[]),
    (Call::Read(LOG), None, FAILS, &[]),
    (Call::Write(LOG), None, FAILS, &[]),
    // another device is as it was
    (
        Call::Sync(VOLUME),
        None,
        OK,
        &[&OPENS_VOLUME, &SYNCS_VOLUME],
    ),
    (
        Call::Remove(LOG),
        None,
        OK,
        &[&[Event::Remove(Name::Log)], &SYNCS_NAMES],
    ),
    (
        Call::Make(LOG),
        None,
        OK,
        &[&MAKES_FOLDER, &MAKES_FRESH, &ZEROS, &NAMES, &SYNCS_NAMES],
    ),
    (Call::Sync(LOG), None, FAILS, &[]),
];

const LOSES_NAMES: [Act<'static>; 3] = [
    (
        Call::Sync(LOG),
        Some(Event::SyncAll(Name::Folder)),
        FAILS,
        &[&HOLDS, &OPENS, &SYNCS_NAMES],
    ),
    (Call::Sync(LOG), None, FAILS, &[]),
    (Call::Read(LOG), None, FAILS, &[]),
];

#[test]
fn after_a_failed_sync_nothing_of_the_device_is_believed(rt: HostRuntime) -> Result<(), Fail> {
    run_over(&rt, &DATABASE, &LOSES_BYTES)?;
    run_over(&rt, &DATABASE, &LOSES_NAMES)
}

// Another process has the folder or the file. Nothing is written, renamed or removed, and no sync was
// tried, so the device may be used once it is free.
const BARRED: [Act<'static>; 6] = [
    (
        Call::Remove(LOG),
        Some(Event::Lock(Name::Folder)),
        FAILS,
        &[&HOLDS],
    ),
    (
        Call::Write(LOG),
        Some(Event::Lock(Name::Folder)),
        FAILS,
        &[&HOLDS],
    ),
    (
        Call::Write(LOG),
        Some(Event::Lock(Name::Log)),
        FAILS,
        &[&HOLDS, &OPENS],
    ),
    (
        Call::Read(LOG),
        Some(Event::Lock(Name::Log)),
        FAILS,
        &[&OPENS],
    ),
    (
        Call::Sync(LOG),
        Some(Event::Lock(Name::Log)),
        FAILS,
        &[&OPENS],
    ),
    (Call::Sync(LOG), None, OK, &[&OPENS, &SYNCS_NAMES, &SYNCS]),
];

#[test]
fn what_another_process_has_is_left_alone(rt: HostRuntime) -> Result<(), Fail> {
    run_over(&rt, &DATABASE, &BARRED)
}

#[test]
fn short_reads_and_writes_are_gone_on_with(rt: HostRuntime) -> Result<(), Fail> {
    let recorder = Recorder::new(rt.alloc(), &DATABASE)?;
    let fake = FakeRuntime {
        recorder: &recorder,
    };
    let mut host = FileHost::new(&fake, rt.alloc(), "db")?;
    assert_eq!(rt; host.write(LOG, 5, b"abcdefgh"), OK);
    let mut into = [0u8; 10];
    assert_eq!(rt; host.read(LOG, 4, &mut into), OK);
    assert_eq!(rt; &into, b"\0abcdefgh\0");
    // a text is said whole, or the fault is reported
    assert_eq!(rt; host.say(b"one\n"), OK);
    recorder.fail(Some(Event::Say));
    assert_eq!(rt; host.say(b"two\n"), FAILS);
    assert_eq!(rt; host.say(b"three\n"), OK);
    assert!(rt; recorder.has_said(b"one\nthree\n"));
    Ok(())
}
