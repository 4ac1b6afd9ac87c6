//! Calls of a host, with the answers that are wanted.
use host_tests::{try_make, try_read, try_remove, try_sync, try_write};
use mdb_host::{Device, Failed, Host};
use std::process::Abort;

pub(crate) const OK: Result<(), Failed> = Ok(());

pub(crate) const FAILS: Result<(), Failed> = Err(Failed);

pub(crate) const VOLUME: Device = Device::Data(1);

pub(crate) const LOG: Device = Device::Log;

pub(crate) const MEDIUM: Device = Device::Medium(99);

/// A call of a host, with the answer that is wanted.
#[derive(Clone, Copy)]
pub(crate) enum Step {
    Size(Device, Option<u64>),
    Make(Device, u32, Result<(), Failed>),
    Remove(Device, Result<(), Failed>),
    Write(Device, u64, &'static [u8], Result<(), Failed>),
    Read(Device, u64, &'static [u8]),
    ReadFails(Device, u64),
    Sync(Device, Result<(), Failed>),
}

fn answer_of<H: Host>(host: &mut H, step: Step, into: &mut [u8]) -> Result<(), Failed> {
    match step {
        Step::Size(device, pages) if host.size(device) == pages => Ok(()),
        Step::Size(_, _) => Err(Failed),
        Step::Make(device, pages, _) => try_make(host, device, pages),
        Step::Remove(device, _) => try_remove(host, device),
        Step::Write(device, at, bytes, _) => try_write(host, device, at, bytes),
        Step::Read(device, at, _) | Step::ReadFails(device, at) => {
            try_read(host, device, at, into)
        }
        Step::Sync(device, _) => try_sync(host, device),
    }
}

fn wanted(step: Step) -> Result<(), Failed> {
    match step {
        Step::Size(_, _) | Step::Read(_, _, _) => Ok(()),
        Step::ReadFails(_, _) => Err(Failed),
        Step::Make(_, _, want) | Step::Remove(_, want) => want,
        Step::Write(_, _, _, want) | Step::Sync(_, want) => want,
    }
}

// Makes the calls, each of which has to answer as it is wanted.
pub(crate) fn run<H: Host, R: Abort>(rt: &R, host: &mut H, steps: &[Step]) {
    for (number, step) in steps.iter().enumerate() {
        let mut into = [0xEEu8; 8];
        let mut want: &[u8] = &[];
        if let Step::Read(_, _, bytes) = *step {
            want = bytes;
        }
        assert!(rt; want.len() <= 8);
        let into = &mut into[..want.len()];
        assert_eq!(rt;
            answer_of(host, *step, into),
            wanted(*step),
            "step {number}"
        );
        let got: &[u8] = into;
        assert_eq!(rt; got, want, "step {number}");
    }
}

// What every host answers, from none of the devices to none of them.
pub(crate) const LIFE: [Step; 24] = [
    Step::Size(VOLUME, None),
    Step::Size(LOG, None),
    Step::Size(MEDIUM, None),
    Step::Make(VOLUME, 19, OK),
    Step::Make(LOG, 1, OK),
    Step::Make(MEDIUM, 0, OK),
    Step::Size(VOLUME, Some(19)),
    Step::Size(LOG, Some(1)),
    Step::Size(MEDIUM, Some(0)),
    Step::Read(VOLUME, 155_644, &[0; 4]),
    Step::Write(VOLUME, 8190, b"abcd", OK),
    Step::Write(VOLUME, 155_646, b"yz", OK),
    Step::Write(LOG, 8184, &[5; 8], OK),
    Step::Read(VOLUME, 8189, b"\0abcd\0"),
    Step::Read(VOLUME, 155_644, b"\0\0yz"),
    Step::Read(LOG, 8190, &[5, 5]),
    Step::Sync(VOLUME, OK),
    Step::Sync(LOG, OK),
    Step::Remove(LOG, OK),
    Step::Size(LOG, None),
    Step::Make(LOG, 2, OK),
    Step::Read(LOG, 8190, &[0; 4]),
    Step::Remove(MEDIUM, OK),
    Step::Size(MEDIUM, None),
];
