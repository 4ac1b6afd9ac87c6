//! The call of the program.
ghost use Rattle.std.specs.Prelude.{◌≡◌, ◌≢◌, ◌↔◌, ◌⊎◌, ℕ, List, IsTrue, map};
ghost use Rattle.std.specs.String.{string_bytes};
ghost use Rattle.mdb_model.specs.Causes.{Rose};
ghost use Rattle.mdb_host.specs.Disk.{Disk, Keeps};
ghost use Rattle.call_words.specs.Asked.{AskNothing, AskToRun, AskToCreate};
ghost use Rattle.script_run.specs.Calls.{RunPromise, NewPromise, EndsRun, EndsCreate, HasDevice, touches_nothing};

use crate::making::create_database;
use crate::run::run_script;
use call_words::{Asked, WordsFault, read_words};
use mdb_host::{Host, Source};
use mdb_model::status::Status;
use std::alloc::Global;

/// Does what the words behind the program's name ask for: makes a database on the devices of a
/// host, or runs the script of a source on it. After `DeviceFault` devices may be there, with no
/// promise of them. Nor is anything promised of when memory runs out.
pub fn run<S: Source, H: Host>(
    alloc: Global,
    words: &[String],
    script: &mut S,
    host: &mut H,
) -> Status
    ensures keeps { H.tells → Keeps (H.disk host.old) (H.disk host.new) }
    ensures usage { result ≡ Status.Usage → AskNothing (map string_bytes words.now) }
    ensures refused { AskNothing (map string_bytes words.now)
        → (result ≡ Status.Usage) ⊎ (result ≡ Status.Memory) }
    ensures runs { AskToRun (map string_bytes words.now) → H.tells
        → RunPromise (H.disk host.old) (H.disk host.new) (H.faults host.old) (H.faults host.new)
        result (S.left script.old) (S.left script.new) }
    ensures run_ends { AskToRun (map string_bytes words.now) → EndsRun result }
    ensures creates { (birth log_pages : ℕ) (data_pages : List ℕ)
        → AskToCreate (map string_bytes words.now) birth log_pages data_pages → H.tells
        → NewPromise (H.disk host.old) (H.disk host.new) result birth log_pages data_pages }
    ensures create_ends { (birth log_pages : ℕ) (data_pages : List ℕ)
        → AskToCreate (map string_bytes words.now) birth log_pages data_pages
        → EndsCreate result × (script.new ≡ script.old) }
    ensures exists { (birth log_pages : ℕ) (data_pages : List ℕ)
        → AskToCreate (map string_bytes words.now) birth log_pages data_pages → H.tells
        → result ≢ Status.Memory → (result ≡ Status.Exists ↔ HasDevice (H.disk host.old)) }
    ensures untouched { IsTrue (touches_nothing result)
        → (host.new ≡ host.old) × (script.new ≡ script.old) }
    ensures script_cause { result ≡ Status.ScriptFault
        → Rose (S.faults script.old) (S.faults script.new) }
    ensures say_cause { result ≡ Status.SayFault
        → Rose (H.say_faults host.old) (H.say_faults host.new) }
    ensures device_cause { result ≡ Status.DeviceFault
        → Rose (H.faults host.old) (H.faults host.new) }
{
    match read_words(alloc, words) {
        Ok(asked) => match asked {
            Asked::Create(measures) => create_database(alloc, host, &measures),
            Asked::Run => run_script(alloc, host, script),
        },
        Err(fault) => match fault {
            WordsFault::Memory => Status::Memory,
            WordsFault::Usage => Status::Usage,
        },
    }
}
