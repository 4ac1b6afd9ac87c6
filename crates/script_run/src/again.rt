//! A call after a crash: what the promise of a call is worth to whoever starts the program again.
ghost use Rattle.std.specs.Prelude.{◌≡◌, ℕ, ◌≤◌, List, IfOk, IfSome, map};
ghost use Rattle.std.specs.String.{string_bytes};
ghost use Rattle.mdb_model.specs.Images.{Image};
ghost use Rattle.mdb_host.specs.Disk.{Disk};
ghost use Rattle.mdb_host.specs.Fresh.{IsFresh};
ghost use Rattle.call_words.specs.Asked.{AskToRun, AskToCreate};
ghost use Rattle.script_run.specs.Again.{RunsAgain, new_world};

use crate::call::run;
use db_kernel::each_image_is_a_start;
use mdb_host::{Host, MemHost, Source};
use mdb_model::fault::Memory;
use mdb_model::status::Status;
use std::alloc::Global;

/// A host that can be stopped.
pub trait Stops: Host {
    /// The clock of the host, in calls.
    fn clock(&self) -> u64
        ensures { Self.tells → result ≡ (Self.disk self.now).now };

    /// A host that holds what a crash at the moment `at` may leave of the devices, by `pick`, and
    /// on which nothing was said yet.
    fn stopped(&self, alloc: Global, at: u64, pick: u64) -> Result<Self, Memory>
        requires { Self.tells → at ≤ (Self.disk self.now).now }
        ensures { Self.tells → IfOk result (λ host.
            (image : Image) × (Self.disk self.now).may_leave at image
            × IsFresh (Self.disk host) image) };
}

impl Stops for MemHost {
    fn clock(&self) -> u64 {
        self.now()
    }

    fn stopped(&self, alloc: Global, at: u64, pick: u64) -> Result<MemHost, Memory> {
        self.image(alloc, at, pick)
    }
}

/// How a call, a crash of it and the next call went.
#[derive(Drop)]
pub struct AfterCrash<H: Host> {
    /// How the first call ended.
    pub first: Status,
    /// The moments of its begin and of the crash, by the clock of the first host.
    pub start: u64,
    pub at: u64,
    /// The host of the second call, as it is at its end.
    pub host: H,
    /// How the second call ended.
    pub second: Status,
}

/// Makes a database, runs a script on it, and runs another one on what a crash at a moment of the
/// first run leaves: the moment `at`, or the nearest one of the run. `None` where the database was
/// not made, or where memory ran out for the second host.
pub fn run_after_crash<S: Source, H: Stops>(
    alloc: Global,
    create_words: &[String],
    run_words: &[String],
    scripts: (&mut S, &mut S),
    host: &mut H,
    at: u64,
    pick: u64,
) -> Option<AfterCrash<H>>
    ensures { H.tells → (birth log_pages : ℕ) (data_pages : List ℕ)
        → AskToCreate (map string_bytes create_words.now) birth log_pages data_pages
        → AskToRun (map string_bytes run_words.now)
        → IfSome result (λ r. RunsAgain (H.disk host.new) (H.disk r.host)
        (new_world birth log_pages data_pages) r.first r.second r.start r.at) }
{
    let (first_script, second_script) = scripts;
    match run(alloc, create_words, first_script, host) {
        Status::Done => {}
        _ => return None,
    }
    each_image_is_a_start(host);
    let start = host.clock();
    let first = run(alloc, run_words, first_script, host);
    let at = at.max(start).min(host.clock());
    let Ok(mut again) = host.stopped(alloc, at, pick) else {
        return None;
    };
    each_image_is_a_start(&again);
    let second = run(alloc, run_words, second_script, &mut again);
    Some(AfterCrash {
        first,
        start,
        at,
        host: again,
        second,
    })
}
