//! The grammar of the words of a call.

ghost use Rattle.std.specs.Prelude.{◌≡◌, ◌≤◌, map, string_bytes, IfSome};
ghost use Rattle.std.specs.List.{list_all};
ghost use Rattle.std.specs.Option.{option_map};
ghost use Rattle.plum.specs.Asked.{name_of};
ghost use Rattle.plum.specs.Job.{is_path, is_digit, is_number, number_up_to, job_of};
ghost use Rattle.plum.specs.Job.{count_up_to, replay_of, station_of, check_of, drill_of};

/// The name of a command.
#[derive(Clone, Copy, Debug, PartialEq, Eq)]
pub enum CommandName {
    Replay,
    Station,
    Check,
    Drill,
}

/// The most digits of a number.
const MOST_DIGITS: usize = 20;

/// The greatest code of a station.
pub const LAST_CODE: u64 = 65_535;

/// The greatest seed of a drill.
pub const LAST_SEED: u64 = u64::MAX;

/// The most stations and seconds of a drill.
pub const MOST_DRILL_STATIONS: u16 = 400;

pub const MOST_DRILL_SECONDS: u16 = 300;

/// Whether the word is a path: not empty, and not beginning with `-`.
fn is_path(word: &str) -> bool
    ensures { result ≡ is_path word.now }
{
    match word.as_bytes() {
        [] => false,
        [first, ..] => *first != b'-',
    }
}

/// Whether the byte is one of `0` to `9`.
fn is_digit(byte: u8) -> bool
    ensures { result ≡ is_digit byte }
{
    b'/' < byte && byte < b':'
}

/// Whether all bytes are digits.
fn are_digits(bytes: &[u8]) -> bool
    ensures { result ≡ list_all is_digit bytes.now }
{
    bytes.iter().all(|byte| is_digit(*byte))
}

/// Whether the word is a number: 1 to 20 digits.
fn is_number(word: &str) -> bool
    ensures { result ≡ is_number word.now }
{
    let bytes = word.as_bytes();
    !bytes.is_empty() && bytes.len() <= MOST_DIGITS && are_digits(bytes)
}

/// The number that the word is, where it is this at most.
pub fn read_number(word: &str, most: u64) -> Option<u64>
    ensures value { result ≡ number_up_to most word.now }
    ensures within { IfSome result (λ number. number ≤ most) }
{
    if !is_number(word) {
        return None;
    }
    match word.parse::<u64>() {
        Ok(number) if number <= most => Some(number),
        _ => None,
    }
}

/// The number that the word is, where it is from 1 to this.
pub fn read_count(word: &str, most: u16) -> Option<u16>
    ensures { result ≡ count_up_to most word.now }
{
    match read_number(word, u64::from(most)) {
        Some(number) if number != 0 => Some(number as u16),
        _ => None,
    }
}

/// `replay`, where these words may stand behind it.
fn name_replay(words: &[String]) -> Option<CommandName>
    ensures { result ≡ option_map name_of (replay_of (map string_bytes words.now)) }
{
    let [setup, stations, targets, capture, journal] = words else {
        return None;
    };
    if is_path(setup.as_str())
        && is_path(stations.as_str())
        && is_path(targets.as_str())
        && is_path(capture.as_str())
        && is_path(journal.as_str())
    {
        Some(CommandName::Replay)
    } else {
        None
    }
}

/// `station`, where these words may stand behind it.
fn name_station(words: &[String]) -> Option<CommandName>
    ensures { result ≡ option_map name_of (station_of (map string_bytes words.now)) }
{
    let [setup, stations, capture, code] = words else {
        return None;
    };
    if is_path(setup.as_str()) && is_path(stations.as_str()) && is_path(capture.as_str()) {
        read_number(code.as_str(), LAST_CODE)?;
        Some(CommandName::Station)
    } else {
        None
    }
}

/// `check`, where these words may stand behind it.
fn name_check(words: &[String]) -> Option<CommandName>
    ensures { result ≡ option_map name_of (check_of (map string_bytes words.now)) }
{
    let [setup, stations, targets, capture] = words else {
        return None;
    };
    if is_path(setup.as_str())
        && is_path(stations.as_str())
        && is_path(targets.as_str())
        && is_path(capture.as_str())
    {
        Some(CommandName::Check)
    } else {
        None
    }
}

/// `drill`, where these words may stand behind it.
fn name_drill(words: &[String]) -> Option<CommandName>
    ensures { result ≡ option_map name_of (drill_of (map string_bytes words.now)) }
{
    let [seed, stations, seconds] = words else {
        return None;
    };
    read_number(seed.as_str(), LAST_SEED)?;
    read_count(stations.as_str(), MOST_DRILL_STATIONS)?;
    read_count(seconds.as_str(), MOST_DRILL_SECONDS)?;
    Some(CommandName::Drill)
}

/// The command that the words ask for, or none where they are not of the grammar.
pub fn command_of(words: &[String]) -> Option<CommandName>
    ensures { result ≡ option_map name_of (job_of (map string_bytes words.now)) }
{
    let [command, behind @ ..] = words else {
        return None;
    };
    if command.as_str() == "replay" {
        name_replay(behind)
    } else if command.as_str() == "station" {
        name_station(behind)
    } else if command.as_str() == "check" {
        name_check(behind)
    } else if command.as_str() == "drill" {
        name_drill(behind)
    } else {
        None
    }
}
