//! The program: makes a database in a folder, or runs a script from the standard input on it.
#![tactic(auto)]

use mdb_host::{FileHost, StdSource};
use mdb_model::fault::Memory;
use mdb_model::status::Status;
use script_run::call::run;
use std::env;
use std::process::ExitCode;

fn main(rt: HostRuntime) -> ExitCode {
    let Ok(words) = call_words(&rt) else {
        return ExitCode::from(Status::Memory as u8);
    };
    let status = run_over_files(&rt, &words);
    if status == Status::Usage {
        // What cannot be said changes nothing.
        let _ = eprintln!(rt;
            "usage: maxk create FOLDER BIRTH LOGPAGES DATAPAGES.. | maxk run FOLDER"
        );
    }
    ExitCode::from(status as u8)
}

// The words after the program's name.
fn call_words(rt: &HostRuntime) -> Result<Vec<String>, Memory> {
    let Ok(call) = env::args(rt) else {
        return Err(Memory);
    };
    match call.skip(1).collect(rt.alloc()) {
        Ok(words) => Ok(words),
        Err(_) => Err(Memory),
    }
}

// Does what the words ask for, over the files of the folder and the standard input.
fn run_over_files(rt: &HostRuntime, words: &[String]) -> Status {
    let Ok(mut host) = FileHost::new(rt, rt.alloc(), folder_of(words)) else {
        return Status::Memory;
    };
    let mut script = StdSource::new(rt);
    run(rt.alloc(), words, &mut script, &mut host)
}

// The word that names a folder. Where there is none, the words ask for nothing, and no file is looked at.
fn folder_of(words: &[String]) -> &str {
    match words.get(1) {
        Some(folder) => folder.as_str(),
        None => ".",
    }
}
