//! The words of a call.

ghost use Rattle.std.specs.Prelude.{◌≡◌, ℕ, [], map, string_bytes, None, Some, IfOk, IfErr};
ghost use Rattle.std.specs.Prelude.{MatchOption, is_some, true};
ghost use Rattle.std.specs.Option.{option_map};
ghost use Rattle.plum.specs.Asked.{job_in, name_of};
ghost use Rattle.plum.specs.Job.{LAST_CODE, LAST_SEED, number_up_to, count_up_to, job_of, paths_in};

use crate::grammar::{
    CommandName, LAST_CODE, LAST_SEED, MOST_DRILL_SECONDS, MOST_DRILL_STATIONS, command_of,
    read_count, read_number,
};
use crate::words::{clap_reads_the_grammar, read_with, word};
use plum_base::NoMemory;
use plum_host::{PathText, Paths};
use std::alloc::Global;

/// A command and what it works on.
#[derive(Clone, Copy)]
pub enum Job<'a> {
    /// Writes the journal and the predictions of a capture.
    Replay {
        setup: &'a str,
        stations: &'a str,
        targets: &'a str,
        capture: &'a str,
        journal: &'a str,
    },
    /// Writes the values of one station.
    Station {
        setup: &'a str,
        stations: &'a str,
        capture: &'a str,
        code: u16,
    },
    /// Writes what is refused of a capture, and its totals.
    Check {
        setup: &'a str,
        stations: &'a str,
        targets: &'a str,
        capture: &'a str,
    },
    /// Writes the summary of a drill.
    Drill {
        seed: u64,
        stations: u16,
        seconds: u16,
    },
}

/// Under which names `clap` has the words of `replay`.
static REPLAY_IDS: [&str; 5] = ["SETUP", "STATIONS", "TARGETS", "CAPTURE", "JOURNAL"];

/// Those of `station`.
static STATION_IDS: [&str; 4] = ["SETUP", "STATIONS", "CAPTURE", "CODE"];

/// Those of `check`.
static CHECK_IDS: [&str; 4] = ["SETUP", "STATIONS", "TARGETS", "CAPTURE"];

/// Those of `drill`.
static DRILL_IDS: [&str; 3] = ["SEED", "STATIONS", "SECONDS"];

/// What `replay` works on, where the words ask for it.
fn read_replay<'a>(alloc: Global, words: &'a [String]) -> Result<Job<'a>, NoMemory>
    requires { option_map name_of (job_of (map string_bytes words.now))
        ≡ Some CommandName.Replay }
    ensures { IfOk result (λ job. job_of (map string_bytes words.entry.now)
        ≡ Some (job_in job)) }
{
    // For the contract: `clap` takes these words.
    clap_reads_the_grammar();
    let matches = read_with(alloc, "replay", REPLAY_IDS.as_slice(), words)?;
    Ok(Job::Replay {
        setup: word(&matches, "SETUP"),
        stations: word(&matches, "STATIONS"),
        targets: word(&matches, "TARGETS"),
        capture: word(&matches, "CAPTURE"),
        journal: word(&matches, "JOURNAL"),
    })
}

/// The code that the word is, where it is one.
fn code_in(word: &str) -> u16
    ensures { (code : ℕ) → number_up_to LAST_CODE word.now ≡ Some code → result ≡ code }
{
    match read_number(word, LAST_CODE) {
        Some(code) => code as u16,
        None => 0,
    }
}

/// What `station` works on, where the words ask for it.
fn read_station<'a>(alloc: Global, words: &'a [String]) -> Result<Job<'a>, NoMemory>
    requires { option_map name_of (job_of (map string_bytes words.now))
        ≡ Some CommandName.Station }
    ensures { IfOk result (λ job. job_of (map string_bytes words.entry.now)
        ≡ Some (job_in job)) }
{
    // For the contract: `clap` takes these words.
    clap_reads_the_grammar();
    let matches = read_with(alloc, "station", STATION_IDS.as_slice(), words)?;
    Ok(Job::Station {
        setup: word(&matches, "SETUP"),
        stations: word(&matches, "STATIONS"),
        capture: word(&matches, "CAPTURE"),
        code: code_in(word(&matches, "CODE")),
    })
}

/// What `check` works on, where the words ask for it.
fn read_check<'a>(alloc: Global, words: &'a [String]) -> Result<Job<'a>, NoMemory>
    requires { option_map name_of (job_of (map string_bytes words.now))
        ≡ Some CommandName.Check }
    ensures { IfOk result (λ job. job_of (map string_bytes words.entry.now)
        ≡ Some (job_in job)) }
{
    // For the contract: `clap` takes these words.
    clap_reads_the_grammar();
    let matches = read_with(alloc, "check", CHECK_IDS.as_slice(), words)?;
    Ok(Job::Check {
        setup: word(&matches, "SETUP"),
        stations: word(&matches, "STATIONS"),
        targets: word(&matches, "TARGETS"),
        capture: word(&matches, "CAPTURE"),
    })
}

/// The seed that the word is, where it is one.
fn seed_in(word: &str) -> u64
    ensures { (seed : ℕ) → number_up_to LAST_SEED word.now ≡ Some seed → result ≡ seed }
{
    match read_number(word, LAST_SEED) {
        Some(seed) => seed,
        None => 0,
    }
}

/// The number from 1 to `most` that the word is, where it is one.
fn count_in(word: &str, most: u16) -> u16
    ensures { (count : ℕ) → count_up_to most word.now ≡ Some count → result ≡ count }
{
    match read_count(word, most) {
        Some(count) => count,
        None => 0,
    }
}

/// What `drill` works on, where the words ask for it.
fn read_drill<'a>(alloc: Global, words: &'a [String]) -> Result<Job<'a>, NoMemory>
    requires { option_map name_of (job_of (map string_bytes words.now))
        ≡ Some CommandName.Drill }
    ensures { IfOk result (λ job. job_of (map string_bytes words.entry.now)
        ≡ Some (job_in job)) }
{
    // For the contract: `clap` takes these words.
    clap_reads_the_grammar();
    let matches = read_with(alloc, "drill", DRILL_IDS.as_slice(), words)?;
    Ok(Job::Drill {
        seed: seed_in(word(&matches, "SEED")),
        stations: count_in(word(&matches, "STATIONS"), MOST_DRILL_STATIONS),
        seconds: count_in(word(&matches, "SECONDS"), MOST_DRILL_SECONDS),
    })
}

/// What the words ask for, or none where they are not of the grammar. The grammar decides; then
/// `clap` reads the words, and refuses none of them but for want of memory.
pub fn read_words<'a>(alloc: Global, words: &'a [String]) -> Result<Option<Job<'a>>, NoMemory>
    ensures job { IfOk result (λ asked. MatchOption asked
        (job_of (map string_bytes words.entry.now) ≡ None)
        (λ job. job_of (map string_bytes words.entry.now) ≡ Some (job_in job))) }
    ensures err { IfErr result (λ _.
        is_some (job_of (map string_bytes words.entry.now)) ≡ true) }
{
    let job = match command_of(words) {
        None => return Ok(None),
        Some(CommandName::Replay) => read_replay(alloc, words)?,
        Some(CommandName::Station) => read_station(alloc, words)?,
        Some(CommandName::Check) => read_check(alloc, words)?,
        Some(CommandName::Drill) => read_drill(alloc, words)?,
    };
    Ok(Some(job))
}

/// So many paths, as the words name them.
fn paths_from(
    alloc: Global,
    setup: &str,
    stations: &str,
    targets: &str,
    capture: &str,
    journal: &str,
) -> Result<Paths, NoMemory>
    ensures { IfOk result (λ paths. paths ≡ record {
      setup = setup.now;
      stations = stations.now;
      targets = targets.now;
      capture = capture.now;
      journal = journal.now;
      output = [];
    }) }
{
    Ok(Paths {
        setup: PathText::new(alloc, setup)?,
        stations: PathText::new(alloc, stations)?,
        targets: PathText::new(alloc, targets)?,
        capture: PathText::new(alloc, capture)?,
        journal: PathText::new(alloc, journal)?,
        output: PathText::new(alloc, "")?,
    })
}

/// The paths that the words name, each empty where it is not used or the words are not of the
/// grammar.
pub fn paths_of(alloc: Global, words: &[String]) -> Result<Paths, NoMemory>
    ensures { IfOk result (λ paths. paths ≡ paths_in (job_of (map string_bytes words.now))) }
{
    match read_words(alloc, words)? {
        Some(
            Job::Replay {
                setup,
                stations,
                targets,
                capture,
                journal,
            },
        ) => paths_from(alloc, setup, stations, targets, capture, journal),
        Some(
            Job::Station {
                setup,
                stations,
                capture,
                ..
            },
        ) => paths_from(alloc, setup, stations, "", capture, ""),
        Some(
            Job::Check {
                setup,
                stations,
                targets,
                capture,
            },
        ) => paths_from(alloc, setup, stations, targets, capture, ""),
        Some(Job::Drill { .. }) | None => paths_from(alloc, "", "", "", "", ""),
    }
}
