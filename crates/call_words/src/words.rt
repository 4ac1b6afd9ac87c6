//! The words that the program is called with.
ghost use Rattle.std.specs.Prelude.{◌≡◌, ◌≢◌, ◌+◌, ◌^◌, ◌<◌, ◌≤◌, ℕ, List, [], ◌∷◌, map, not, false, codes, length, None, Some, IfOk, MatchOption, MatchResult};
ghost use Rattle.std.specs.List.{list_all};
ghost use Rattle.std.specs.String.{string_bytes};
ghost use Rattle.clap.specs.Words.{app_of, with_rule, fault_of, found_of, rows_of, subcommand_of, subcommand_rows_of};
ghost use Rattle.clap.specs.declared.Command.TheViews.{out-Command as fields_of};
ghost use Rattle.mdb_model.specs.Script.{is_bad_word as is_bad, create_of, number_of, numbers_of};
ghost use Rattle.call_words.specs.Asked.{asked_by, IsRequest};
ghost use Rattle.call_words.specs.Words.{argument, create_front_words, create_middle_words, create_words, run_words, command_line as line_of_words, counts_in, first_counts, last_counts, number_in, numbers_in, request_in, word_in, Gains, Lacks};

use crate::asked::{Asked, Measures};
use arrayvec::ArrayVec;
use clap::error::ErrorKind;
use clap::{Arg, ArgMatches, Command};
use creation::can_create;
use dbm_script::number;
use std::alloc::{AllocError, Global};

/// Why the words ask for nothing.
#[derive(Debug, Drop, thiserror::Error)]
pub enum WordsFault {
    #[error("out of memory")]
    Memory,
    #[error("the words break the rules")]
    Usage,
}

// The command with one argument more.
fn with_argument<'a>(
    alloc: Global,
    command: Command<'a>,
    name: &'a str,
    is_required: bool,
) -> Result<Command<'a>, AllocError>
    requires { (fields_of command).has_globals ≡ false }
    ensures { IfOk result (λ r. (app_of r
        ≡ with_rule (app_of command.entry) (argument name.now is_required))
        × ((fields_of r).has_globals ≡ false)) }
{
    command.arg(Arg::new(alloc, name).required(is_required))
}

// `create` with the arguments that have to be there.
fn create_front<'a>(alloc: Global) -> Result<Command<'a>, AllocError>
    ensures { IfOk result (λ command. (app_of command ≡ create_front_words)
        × ((fields_of command).has_globals ≡ false)) }
{
    let command = Command::new(alloc, "create");
    let command = with_argument(alloc, command, "FOLDER", true)?;
    let command = with_argument(alloc, command, "BIRTH", true)?;
    let command = with_argument(alloc, command, "LOGPAGES", true)?;
    with_argument(alloc, command, "DATAPAGES", true)
}

// With four of those that may be absent.
fn create_middle<'a>(alloc: Global) -> Result<Command<'a>, AllocError>
    ensures { IfOk result (λ command. (app_of command ≡ create_middle_words)
        × ((fields_of command).has_globals ≡ false)) }
{
    let command = create_front(alloc)?;
    let command = with_argument(alloc, command, "DATAPAGES2", false)?;
    let command = with_argument(alloc, command, "DATAPAGES3", false)?;
    let command = with_argument(alloc, command, "DATAPAGES4", false)?;
    with_argument(alloc, command, "DATAPAGES5", false)
}

// `create FOLDER BIRTH LOGPAGES` and one to eight DATAPAGES.
fn create_command<'a>(alloc: Global) -> Result<Command<'a>, AllocError>
    ensures { IfOk result (λ command. (app_of command ≡ create_words)
        × ((fields_of command).has_globals ≡ false)) }
{
    let command = create_middle(alloc)?;
    let command = with_argument(alloc, command, "DATAPAGES6", false)?;
    let command = with_argument(alloc, command, "DATAPAGES7", false)?;
    with_argument(alloc, command, "DATAPAGES8", false)
}

// `run FOLDER`.
fn run_command<'a>(alloc: Global) -> Result<Command<'a>, AllocError>
    ensures { IfOk result (λ command. (app_of command ≡ run_words)
        × ((fields_of command).has_globals ≡ false)) }
{
    with_argument(alloc, Command::new(alloc, "run"), "FOLDER", true)
}

// The command line of the program, without its name.
fn command_line<'a>(alloc: Global) -> Result<Command<'a>, AllocError>
    ensures { IfOk result (λ command. app_of command ≡ line_of_words) }
{
    let create = create_command(alloc)?;
    let run = run_command(alloc)?;
    Command::new(alloc, "maxk")
        .no_binary_name(true)
        .disable_help_subcommand(true)
        .subcommand_required(true)
        .subcommand(create)?
        .subcommand(run)
}

// What the words match.
fn read_matches(alloc: Global, words: &[String]) -> Result<ArgMatches<'_>, WordsFault>
    ensures { MatchResult result (λ m. (fault_of line_of_words (map string_bytes words.now) ≡ [])
        × (subcommand_rows_of m ≡ subcommand_of line_of_words (map string_bytes words.now)))
        (λ fault. fault ≡ WordsFault.Usage
        → fault_of line_of_words (map string_bytes words.now) ≢ []) }
{
    let Ok(command) = command_line(alloc) else {
        return Err(WordsFault::Memory);
    };
    match command.try_get_matches_from(words) {
        Ok(matches) => Ok(matches),
        Err(error) => match error.kind() {
            ErrorKind::OutOfMemory => Err(WordsFault::Memory),
            _ => Err(WordsFault::Usage),
        },
    }
}

// A word that is empty, or that looks like an option.
fn is_bad_word(word: &str) -> bool
    ensures { result ≡ is_bad word.now }
{
    word.is_empty() || word.starts_with('-')
}

// The number of an argument, where its word is one.
fn read_number(matches: &ArgMatches<'_>, name: &str) -> Option<u64>
    ensures { MatchOption result ((n : ℕ) → n < 2 ^ 64
        → number_in name.now (rows_of (found_of matches.now)) ≢ Some n)
        (λ n. number_in name.now (rows_of (found_of matches.now)) ≡ Some n) }
{
    let word = matches.get_str(name)?;
    number(word.as_bytes())
}

// The pages that a word counts.
fn page_count(word: &str) -> Option<u32>
    ensures { MatchOption result ((n : ℕ) → n < 2 ^ 32
        → number_of word.now ≢ Some n) (λ n. number_of word.now ≡ Some n) }
{
    let count = number(word.as_bytes())?;
    if count <= u64::from(u32::MAX) {
        Some(count as u32)
    } else {
        None
    }
}

// The pages of the log volume.
fn read_log_pages(matches: &ArgMatches<'_>) -> Option<u32>
    ensures { MatchOption result ((n : ℕ) → n < 2 ^ 32
        → number_in (codes "LOGPAGES") (rows_of (found_of matches.now)) ≢ Some n)
        (λ n. number_in (codes "LOGPAGES") (rows_of (found_of matches.now)) ≡ Some n) }
{
    let word = matches.get_str("LOGPAGES")?;
    page_count(word)
}

// Adds the pages of one data volume, where the argument is there.
fn read_volume(matches: &ArgMatches<'_>, name: &str, volumes: &mut ArrayVec<u32, 8>) -> Option<()>
    requires { length volumes.old.items < 8 }
    ensures gains { MatchOption result (Lacks (word_in name.now (rows_of (found_of matches.now))))
        (λ _. Gains (word_in name.now (rows_of (found_of matches.now))) volumes.old.items
        volumes.new.items) }
    ensures room { length volumes.new.items ≤ length volumes.old.items + 1 }
{
    let Some(word) = matches.get_str(name) else {
        return Some(());
    };
    volumes.push(page_count(word)?);
    Some(())
}

// Adds the pages of the first four data volumes.
fn read_first_volumes(matches: &ArgMatches<'_>, volumes: &mut ArrayVec<u32, 8>) -> Option<()>
    requires { length volumes.old.items ≤ 4 }
    ensures gains { MatchOption result (Lacks (first_counts (rows_of (found_of matches.now))))
        (λ _. Gains (first_counts (rows_of (found_of matches.now))) volumes.old.items
        volumes.new.items) }
    ensures room { length volumes.new.items ≤ length volumes.old.items + 4 }
{
    read_volume(matches, "DATAPAGES", volumes)?;
    read_volume(matches, "DATAPAGES2", volumes)?;
    read_volume(matches, "DATAPAGES3", volumes)?;
    read_volume(matches, "DATAPAGES4", volumes)
}

// Adds those of the last four.
fn read_last_volumes(matches: &ArgMatches<'_>, volumes: &mut ArrayVec<u32, 8>) -> Option<()>
    requires { length volumes.old.items ≤ 4 }
    ensures { MatchOption result (Lacks (last_counts (rows_of (found_of matches.now))))
        (λ _. Gains (last_counts (rows_of (found_of matches.now))) volumes.old.items
        volumes.new.items) }
{
    read_volume(matches, "DATAPAGES5", volumes)?;
    read_volume(matches, "DATAPAGES6", volumes)?;
    read_volume(matches, "DATAPAGES7", volumes)?;
    read_volume(matches, "DATAPAGES8", volumes)
}

// The pages of the data volumes, one word for each.
fn read_volumes(matches: &ArgMatches<'_>) -> Option<ArrayVec<u32, 8>>
    ensures { MatchOption result (Lacks (counts_in (rows_of (found_of matches.now))))
        (λ volumes. numbers_of (counts_in (rows_of (found_of matches.now))) ≡ Some volumes.items) }
{
    let mut volumes = ArrayVec::new();
    read_first_volumes(matches, &mut volumes)?;
    read_last_volumes(matches, &mut volumes)?;
    Some(volumes)
}

// What a database is made with, where the words keep the limits.
fn read_measures(matches: &ArgMatches<'_>) -> Option<Measures>
    ensures { MatchOption result ((folder : List ℕ)
        → create_of folder (numbers_in (rows_of (found_of matches.now))) ≡ None)
        (λ m. numbers_in (rows_of (found_of matches.now))
        ≡ Some (m.birth ∷ m.log_pages ∷ m.volumes.items)) }
{
    let birth = read_number(matches, "BIRTH")?;
    let log_pages = read_log_pages(matches)?;
    let volumes = read_volumes(matches)?;
    if can_create(birth, log_pages, &volumes) {
        Some(Measures {
            birth,
            log_pages,
            volumes,
        })
    } else {
        None
    }
}

// What the matches of the whole command line ask for.
fn read_asked(matches: &ArgMatches<'_>) -> Option<Asked>
    ensures { MatchOption result (request_in (subcommand_rows_of matches.now)
        ≡ None) (IsRequest (request_in (subcommand_rows_of matches.now))) }
{
    let (name, found) = matches.subcommand()?;
    if name == "run" {
        return Some(Asked::Run);
    }
    let measures = read_measures(found)?;
    Some(Asked::Create(measures))
}

// Whether no word is empty, nor looks like an option.
fn are_plain(words: &[String]) -> bool
    ensures { result ≡ list_all (λ word. not (is_bad (string_bytes word))) words.now }
{
    words.iter().all(|word| !is_bad_word(word.as_str()))
}

/// What the words after the program's name ask for. `Usage` where they break the rules.
pub fn read_words(alloc: Global, words: &[String]) -> Result<Asked, WordsFault>
    ensures { MatchResult result (IsRequest (asked_by (map string_bytes words.now)))
        (λ fault. fault ≡ WordsFault.Usage → asked_by (map string_bytes words.now) ≡ None) }
{
    if !are_plain(words) {
        return Err(WordsFault::Usage);
    }
    let matches = read_matches(alloc, words)?;
    read_asked(&matches).ok_or(WordsFault::Usage)
}
