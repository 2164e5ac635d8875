//! The words of a command, as `clap` reads them.

ghost use Rattle.std.specs.Prelude.{◌≡◌, ℕ, List, Some, true, map, string_bytes, IfOk};
ghost use Rattle.clap.specs.Words.{app_of, first_of, found_of, kind_of, matches_of, rows_of, takes};
ghost use Rattle.plum.specs.Words.{app_with, ReadsTheGrammar};

use clap::error::ErrorKind;
use clap::{Arg, ArgMatches, Command, Error};
use plum_base::NoMemory;
use std::alloc::{AllocError, Global};

/// What `clap` reads: each list of words that the grammar accepts, and each word under its name.
pub fn clap_reads_the_grammar()
    ensures { ReadsTheGrammar }
{}

/// The simple command with a required word under each of these names.
fn command_with<'a>(
    alloc: Global,
    name: &'a str,
    ids: &[&'a str],
) -> Result<Command<'a>, AllocError>
    ensures { IfOk result (λ command.
        app_of command ≡ app_with name.entry.now (map (λ id. id.now) ids.now)) }
{
    let mut command = Command::new(alloc, name);
    for id in ids {
        command = command.arg(Arg::new(alloc, *id).required(true))?;
    }
    Ok(command)
}

/// What is told of a refusal that is for want of memory.
fn want_of_memory(_refusal: &Error) -> NoMemory
    requires { kind_of _refusal.now ≡ ErrorKind.OutOfMemory }
{
    NoMemory
}

/// What `clap` finds in words that begin with the command's own: it takes them.
pub fn read_with<'a>(
    alloc: Global,
    name: &'a str,
    ids: &[&'a str],
    words: &'a [String],
) -> Result<ArgMatches<'a>, NoMemory>
    requires { takes (app_with name.now (map (λ id. id.now) ids.now))
        (map string_bytes words.now) ≡ true }
    ensures { IfOk result (λ matches. rows_of (found_of matches)
        ≡ matches_of (app_with name.entry.now (map (λ id. id.now) ids.now))
        (map string_bytes words.entry.now)) }
{
    let command = command_with(alloc, name, ids)?;
    match command.try_get_matches_from(words) {
        Ok(matches) => Ok(matches),
        Err(refusal) => Err(want_of_memory(&refusal)),
    }
}

/// The word under a name.
pub fn word<'a>(matches: &ArgMatches<'a>, name: &str) -> &'a str
    ensures { (text : List ℕ) → first_of name.now (rows_of (found_of matches.now)) ≡ Some text
        → result.now ≡ text }
{
    match matches.get_str(name) {
        Some(word) => word,
        None => "",
    }
}
