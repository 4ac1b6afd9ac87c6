// Calls by their words: over a host in memory, with faults of the outside, and over files.
use call_words::read_words;
use host_tests::try_make;
use mdb_host::{Device, FileHost, Host, MemHost, MemSource};
use mdb_model::status::Status;
use script_run::again::run_after_crash;
use script_run::call::run;
use std::alloc::Global;
use std::fs;
use std::test::Fail;

// The words of a call, which has a blank between each two.
fn words_of(alloc: Global, call: &str) -> Result<Vec<String>, Fail> {
    let mut words = Vec::new(alloc);
    for word in call.split(' ') {
        words.push(word.to_owned(alloc)?)?;
    }
    Ok(words)
}

// How a call without a script ends.
fn ended<H: Host>(alloc: Global, host: &mut H, call: &str) -> Result<Status, Fail> {
    let words = words_of(alloc, call)?;
    let mut script = MemSource::new(alloc, b"", 7, &[])?;
    Ok(run(alloc, &words, &mut script, host))
}

// Calls, and whether their words keep the rules.
const WORDS: [(&'static str, bool); 36] = [
    ("run db", true),
    ("run", false),
    ("", false),
    ("db", false),
    ("run -db", false),
    ("run db more", false),
    ("Run db", false),
    ("load db", false),
    ("help", false),
    ("help run", false),
    ("create db 7 4 512", true),
    ("create db 007 00000000000000000004 0512", true),
    ("create db 7 000000000000000000004 512", false),
    ("create db 0 4 512", false),
    ("create db 2305843009213693951 4 512", true),
    ("create db 2305843009213693952 4 512", false),
    ("create db 18446744073709551616 4 512", false),
    ("create db 99999999999999999999 4 512", false),
    ("create db 7 3 512", false),
    ("create db 7 65536 512", true),
    ("create db 7 65537 512", false),
    ("create db 7 4294967300 512", false),
    ("create db 7 4 511", false),
    ("create db 7 4 65536", true),
    ("create db 7 4 65537", false),
    ("create db 7 4 64 448", true),
    ("create db 7 4 63 512", false),
    ("create db 7 4 512 65024", true),
    ("create db 7 4 512 65025", false),
    ("create db 7 4 64 64 64 64 64 64 64 64", true),
    ("create db 7 4 64 64 64 64 64 64 64 64 64", false),
    ("create db 7 4", false),
    ("create db +7 4 512", false),
    ("create db 7 4 5l2", false),
    ("create db -7 4 512", false),
    ("create  7 4 512", false),
];

#[test]
fn takes_words_that_keep_the_rules(rt: HostRuntime) -> Result<(), Fail> {
    for (call, is_kept) in WORDS {
        let words = words_of(rt.alloc(), call)?;
        assert_eq!(rt;
            read_words(rt.alloc(), &words).is_ok(),
            is_kept,
            "at {call}"
        );
    }
    Ok(())
}

// Calls on one host, one after another.
const CALLS: [(&'static str, Status); 6] = [
    ("create db 7 4 512", Status::Done),
    ("run db", Status::Done),
    ("create db 7 4 512", Status::Exists),
    ("create db 7 3 512", Status::Usage),
    ("run", Status::Usage),
    ("load 1 2 db", Status::Usage),
];

#[test]
fn each_call_ends_with_its_status_and_says_nothing(rt: HostRuntime) -> Result<(), Fail> {
    let mut host = MemHost::new(rt.alloc(), &[])?;
    for (call, want) in CALLS {
        assert_eq!(rt; ended(rt.alloc(), &mut host, call)?, want, "at {call}");
        assert!(rt; host.output().is_empty());
    }
    assert_eq!(rt; host.size(Device::Log), Some(4));
    assert_eq!(rt; host.size(Device::Data(1)), Some(512));
    Ok(())
}

// Moments of a crash, and what the next call answers: before the first call, and after it.
const CRASHES: [(u64, &'static [u8]); 2] = [
    (0, b"OK ONLINE 0\nNONE\n"),
    (u64::MAX, b"OK ONLINE 1\nVALUE 'v'\n"),
];

#[test]
fn a_second_call_goes_on_from_what_a_crash_left(rt: HostRuntime) -> Result<(), Fail> {
    let create = words_of(rt.alloc(), "create db 7 4 512")?;
    let run_db = words_of(rt.alloc(), "run db")?;
    for (at, want) in CRASHES {
        let mut host = MemHost::new(rt.alloc(), &[])?;
        let mut first = MemSource::new(
            rt.alloc(),
            b"db_online\ns 1 put 1 'k' 'v'\ns 1 commit\n",
            7,
            &[],
        )?;
        let mut second = MemSource::new(rt.alloc(), b"db_online\ns 1 get 1 'k'\n", 7, &[])?;
        let scripts = (&mut first, &mut second);
        let after = run_after_crash(rt.alloc(), &create, &run_db, scripts, &mut host, at, 0);
        let after = after.ok_or("no second call")?;
        assert_eq!(rt; after.first, Status::Done);
        assert_eq!(rt; after.second, Status::Done);
        assert!(rt; after.host.output() == want, "at {at}");
    }
    Ok(())
}

// Devices that a database may have.
const DEVICES: [Device; 5] = [
    Device::Data(1),
    Device::Data(8),
    Device::Log,
    Device::Medium(1),
    Device::Medium(99),
];

#[test]
fn a_device_that_is_there_bars_a_new_database(rt: HostRuntime) -> Result<(), Fail> {
    for device in DEVICES {
        let mut host = MemHost::new(rt.alloc(), &[])?;
        try_make(&mut host, device, 2)?;
        let before = host.now();
        assert_eq!(rt;
            ended(rt.alloc(), &mut host, "create db 7 4 512")?,
            Status::Exists
        );
        assert_eq!(rt; host.now(), before);
        assert_eq!(rt; host.size(device), Some(2));
    }
    Ok(())
}

// A call on a host without devices, the calls of the source of `kill` twice and those of the host
// that fail, how it ends, and what it says.
const FAULTS: [(
    &'static str,
    &'static [u64],
    &'static [u64],
    Status,
    &'static [u8],
); 3] = [
    ("run db", &[2], &[], Status::ScriptFault, b"OK OFFLINE\n"),
    ("run db", &[], &[2], Status::SayFault, b"OK OFFLINE\nOK OF"),
    ("create db 7 4 512", &[], &[1], Status::DeviceFault, b""),
];

#[test]
fn faults_of_the_outside_end_the_call(rt: HostRuntime) -> Result<(), Fail> {
    for (call, source_fails, host_fails, want, said) in FAULTS {
        let words = words_of(rt.alloc(), call)?;
        let mut source = MemSource::new(rt.alloc(), b"kill\nkill\n", 5, source_fails)?;
        let mut host = MemHost::new(rt.alloc(), host_fails)?;
        assert_eq!(rt; run(rt.alloc(), &words, &mut source, &mut host), want);
        assert_eq!(rt; host.output(), said);
    }
    Ok(())
}

// Calls over the files of folders, one after another: `used` has another file, `half` has one of
// the devices, and `file` is a file.
const FOLDERS: [(&'static str, &'static str, Status); 7] = [
    ("new", "create new 7 4 512", Status::Done),
    ("new", "run new", Status::Done),
    ("new", "create new 7 4 512", Status::Exists),
    ("used", "create used 7 4 512", Status::Done),
    ("half", "create half 7 4 512", Status::Exists),
    ("file/db", "create file/db 7 4 512", Status::DeviceFault),
    ("/proc/db", "create /proc/db 7 4 512", Status::DeviceFault),
];

// Files that are no devices of a whole database.
const FILES: [&'static str; 3] = ["used/letter", "half/data8.vol", "file"];

// Makes the folders, and their files.
fn write_files(rt: &HostRuntime) -> Result<(), Fail> {
    for folder in ["new", "used", "half"] {
        // An earlier run of the test that failed may have left it.
        let _ = fs::remove_dir_all(rt, folder);
    }
    fs::create_dir(rt, "used")?;
    fs::create_dir(rt, "half")?;
    for file in FILES {
        fs::write(rt, file, "dear")?;
    }
    Ok(())
}

// Takes the folders and the file away.
fn remove_files(rt: &HostRuntime) -> Result<(), Fail> {
    for folder in ["new", "used", "half"] {
        fs::remove_dir_all(rt, folder)?;
    }
    fs::remove_file(rt, "file")?;
    Ok(())
}

#[test]
fn calls_over_files_leave_others_alone(rt: HostRuntime) -> Result<(), Fail> {
    write_files(&rt)?;
    for (folder, call, want) in FOLDERS {
        let mut host = FileHost::new(&rt, rt.alloc(), folder)?;
        assert_eq!(rt; ended(rt.alloc(), &mut host, call)?, want, "at {call}");
    }
    for file in FILES {
        assert_eq!(rt; fs::read_to_string(&rt, file)?.as_str(), "dear");
    }
    for file in ["half/log.vol", "half/data1.vol"] {
        assert!(rt; fs::metadata(&rt, file).is_err());
    }
    remove_files(&rt)
}
