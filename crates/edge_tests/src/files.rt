//! The host over real files.
use crate::steps::{FAILS, LIFE, LOG, OK, Step, VOLUME, run};
use mdb_host::{Device, Failed, FileHost, Host};
use std::fs;
use std::os::unix::fs::symlink;
use std::process::Abort;
use std::rt::Files;
use std::test::Fail;

// The files of a folder, with their lengths.
fn expect_files<R: Abort + Files>(rt: &R, files: &[(&str, Option<u64>)]) {
    for (path, length) in files {
        let found = match fs::metadata(rt, *path) {
            Ok(found) => Some(found.len()),
            Err(_) => None,
        };
        assert_eq!(rt; found, *length, "{path}");
    }
}

#[test]
fn files_keep_what_is_written(rt: HostRuntime) -> Result<(), Fail> {
    let _ = fs::remove_dir_all(&rt, "kept");
    let mut host = FileHost::new(&rt, rt.alloc(), "kept/")?;
    run(&rt, &mut host, &LIFE);
    run(
        &rt,
        &mut host,
        &[
            Step::Make(Device::Medium(7), 1, OK),
            Step::Make(Device::Data(8), 1, OK),
        ],
    );
    let files = [
        ("kept/data1.vol", Some(19 * 8192)),
        ("kept/data8.vol", Some(8192)),
        ("kept/log.vol", Some(2 * 8192)),
        ("kept/medium07.med", Some(8192)),
        ("kept/medium99.med", None),
        ("kept/device.new", None),
    ];
    expect_files(&rt, &files);
    fs::remove_dir_all(&rt, "kept")?;
    Ok(())
}

// What is reported to a host whose files another one has.
const BARRED: [Step; 7] = [
    Step::Size(LOG, Some(2)),
    Step::ReadFails(LOG, 0),
    Step::Write(LOG, 0, b"theirs", FAILS),
    Step::Sync(LOG, FAILS),
    Step::Remove(LOG, FAILS),
    Step::Make(VOLUME, 1, FAILS),
    Step::Size(VOLUME, None),
];

#[test]
fn one_host_at_a_time_has_the_files(rt: HostRuntime) -> Result<(), Fail> {
    let _ = fs::remove_dir_all(&rt, "held");
    let mut first = FileHost::new(&rt, rt.alloc(), "held")?;
    run(
        &rt,
        &mut first,
        &[Step::Make(LOG, 2, OK), Step::Write(LOG, 0, b"ours", OK)],
    );
    let mut second = FileHost::new(&rt, rt.alloc(), "./held/")?;
    run(&rt, &mut second, &BARRED);
    expect_files(&rt, &[("held/device.new", None)]);
    run(
        &rt,
        &mut first,
        &[Step::Read(LOG, 0, b"ours"), Step::Sync(LOG, OK)],
    );
    // a host that fails for another's sake has lost nothing
    drop(first);
    run(
        &rt,
        &mut second,
        &[
            Step::Read(LOG, 0, b"ours"),
            Step::Sync(LOG, OK),
            Step::Remove(LOG, OK),
        ],
    );
    fs::remove_dir_all(&rt, "held")?;
    Ok(())
}

// A link or another name of the same file is locked with it.
#[test]
fn one_file_is_one_device(rt: HostRuntime) -> Result<(), Fail> {
    for folder in ["linked", "other"] {
        let _ = fs::remove_dir_all(&rt, folder);
        fs::create_dir(&rt, folder)?;
    }
    fs::write(&rt, "linked/log.vol", [7u8; 8])?;
    fs::hard_link(&rt, "linked/log.vol", "other/log.vol")?;
    symlink(&rt, "../linked/log.vol", "other/data1.vol")?;
    let mut first = FileHost::new(&rt, rt.alloc(), "linked")?;
    assert_eq!(rt; first.read(LOG, 0, &mut [0u8; 8]), OK);
    let mut second = FileHost::new(&rt, rt.alloc(), "other")?;
    for device in [LOG, VOLUME] {
        assert_eq!(rt; second.write(device, 0, b"theirs"), FAILS);
    }
    for folder in ["linked", "other"] {
        fs::remove_dir_all(&rt, folder)?;
    }
    Ok(())
}

#[test]
fn what_lies_in_the_way_of_a_new_file_goes(rt: HostRuntime) -> Result<(), Fail> {
    let _ = fs::remove_dir_all(&rt, "way");
    fs::create_dir(&rt, "way")?;
    fs::write(&rt, "way/letter", "dear")?;
    let mut host = FileHost::new(&rt, rt.alloc(), "way")?;
    // a link to another file, what a crash left, and a folder, which stays
    symlink(&rt, "letter", "way/device.new")?;
    assert_eq!(rt; host.make(LOG, 1), OK);
    fs::write(&rt, "way/device.new", [9u8; 9000])?;
    assert_eq!(rt; host.make(VOLUME, 1), OK);
    fs::create_dir(&rt, "way/device.new")?;
    assert_eq!(rt; host.make(Device::Data(2), 1), FAILS);
    assert_eq!(rt; fs::read_to_string(&rt, "way/letter")?.as_str(), "dear");
    let files = [
        ("way/log.vol", Some(8192)),
        ("way/data1.vol", Some(8192)),
        ("way/data2.vol", None),
    ];
    expect_files(&rt, &files);
    run(&rt, &mut host, &[Step::Read(VOLUME, 0, &[0; 8])]);
    fs::remove_dir_all(&rt, "way")?;
    Ok(())
}

fn odd_files<R: Files + Alloc>(rt: &R) -> Result<(), Fail> {
    let _ = fs::remove_dir_all(rt, "odd");
    fs::create_dir(rt, "odd")?;
    fs::write(rt, "odd/data1.vol", vec![in rt.alloc(); 1u8; 2 * 8192 + 5]?)?;
    fs::write(rt, "odd/data2.vol", vec![in rt.alloc(); 2u8; 8191]?)?;
    fs::create_dir(rt, "odd/data3.vol")?;
    Ok(())
}

const ODD: [Step; 8] = [
    Step::Size(Device::Data(1), Some(2)),
    Step::Size(Device::Data(2), Some(0)),
    Step::Size(Device::Data(3), None),
    Step::Size(Device::Data(4), None),
    Step::Size(Device::Data(0), None),
    Step::Size(Device::Data(9), None),
    Step::Size(Device::Medium(0), None),
    Step::Size(Device::Medium(100), None),
];

#[test]
fn files_that_fail(rt: HostRuntime) -> Result<(), Fail> {
    odd_files(&rt)?;
    let mut host = FileHost::new(&rt, rt.alloc(), "odd")?;
    run(&rt, &mut host, &ODD);
    // past the end, on a folder, on what is absent, and by a number that no database has
    let (past, folder, absent, none) = (
        Device::Data(1),
        Device::Data(3),
        Device::Data(4),
        Device::Data(9),
    );
    for (device, at) in [(past, 16_386), (folder, 0), (absent, 0), (none, 0)] {
        assert_eq!(rt; host.read(device, at, &mut [0u8; 8]), Err(Failed));
    }
    for device in [folder, absent, none] {
        assert_eq!(rt; host.write(device, 0, b"x"), Err(Failed));
        assert_eq!(rt; host.sync(device), Err(Failed));
        assert_eq!(rt; host.remove(device), Err(Failed));
    }
    // nothing that is there is written over
    for device in [past, folder, none] {
        assert_eq!(rt; host.make(device, 1), Err(Failed));
    }
    expect_files(&rt, &[("odd/data1.vol", Some(2 * 8192 + 5))]);
    fs::remove_dir_all(&rt, "odd")?;
    Ok(())
}

#[test]
fn folders_that_are_made(rt: HostRuntime) -> Result<(), Fail> {
    let _ = fs::remove_dir_all(&rt, "in");
    fs::create_dir(&rt, "in")?;
    fs::write(&rt, "in/file", [0u8; 1])?;
    // a name of any text, a parent that is absent, a file in the folder's place
    for (folder, want) in [
        ("in/Ω % {0}", OK),
        ("in/absent/deep", FAILS),
        ("in/file", FAILS),
    ] {
        let mut host = FileHost::new(&rt, rt.alloc(), folder)?;
        assert_eq!(rt; host.make(LOG, 1), want, "{folder}");
    }
    expect_files(&rt, &[("in/Ω % {0}/log.vol", Some(8192))]);
    fs::remove_dir_all(&rt, "in")?;
    Ok(())
}
