//! A setup file of six stages and 51 thresholds, line by line.

use plum_table::{Field, SetupKey};
use std::alloc::{AllocError, Global};

/// What stands at a key.
#[derive(Clone, Copy)]
pub enum At {
    Table,
    Stage,
    /// A number, and its range.
    Number(i64, i64, i64),
    Text(&'static str),
    Thresholds,
}

/// A line of the file.
#[derive(Clone, Copy)]
pub struct Line {
    pub key: SetupKey,
    pub name: &'static str,
    pub at: At,
}

/// The lines above the stages, and those behind them.
const ABOVE: [(Field, &str, At); 5] = [
    (Field::Lanes, "lanes", At::Number(4, 1, 16)),
    (Field::Queue, "queue", At::Number(256, 1, 65_536)),
    (Field::Gain, "gain", At::Table),
    (Field::GainG, "g", At::Number(1, 1, 2_147_483_648)),
    (Field::GainH, "h", At::Number(0, 0, 31)),
];

const BEHIND: [(Field, &str, At); 7] = [
    (Field::Levels, "levels", At::Table),
    (Field::Base, "base", At::Number(0, -100, 100)),
    (Field::Thresholds, "thresholds", At::Thresholds),
    (Field::Rules, "rules", At::Table),
    (Field::Raise, "raise", At::Text("4")),
    (Field::Cancel, "cancel", At::Text("3")),
    (Field::Calm, "calm", At::Number(5, 1, 1_000)),
];

/// The coefficients of each stage, as multiples of 2^-20, and its rounding.
pub const STAGES: [([i32; 5], &str); 6] = [
    ([1_048_576, -1_048_576, 0, -1_043_333, 0], "nearest"),
    ([262_144, 0, 0, -786_432, 0], "nearest"),
    ([524_288, 524_288, 0, 0, 0], "floor"),
    ([1_048_576, -1_048_576, 0, -1_043_333, 0], "nearest"),
    ([524_288, 0, 0, -524_288, 0], "nearest"),
    ([1_048_576, 0, 0, 0, 0], "nearest"),
];

const COEFFICIENTS: [(Field, &str); 5] = [
    (Field::B0, "b0"),
    (Field::B1, "b1"),
    (Field::B2, "b2"),
    (Field::A1, "a1"),
    (Field::A2, "a2"),
];

/// Lines outside of the stages.
fn add_lines(lines: &mut Vec<Line>, more: &[(Field, &'static str, At)]) -> Result<(), AllocError> {
    for (field, name, at) in more {
        let key = SetupKey::of(*field);
        lines.push(Line {
            key,
            name: *name,
            at: *at,
        })?;
    }
    Ok(())
}

/// The lines of the stage with this number.
fn add_stage(lines: &mut Vec<Line>, number: u8) -> Result<(), AllocError> {
    let (coefficients, round) = STAGES[usize::from(number) % 6];
    lines.push(Line {
        key: SetupKey::of(Field::Stages),
        name: "stage",
        at: At::Stage,
    })?;
    for (i, (field, name)) in COEFFICIENTS.iter().enumerate() {
        let value = i64::from(coefficients[i]);
        lines.push(Line {
            key: SetupKey::of_stage(*field, number),
            name: *name,
            at: At::Number(value, -1_073_741_824, 1_073_741_824),
        })?;
    }
    lines.push(Line {
        key: SetupKey::of_stage(Field::Q, number),
        name: "q",
        at: At::Number(20, 1, 30),
    })?;
    lines.push(Line {
        key: SetupKey::of_stage(Field::Round, number),
        name: "round",
        at: At::Text(round),
    })?;
    Ok(())
}

/// The lines of the file, with this many stages: behind the sixth they begin anew.
pub fn lines_of(alloc: Global, stages: u8) -> Result<Vec<Line>, AllocError> {
    let mut lines = Vec::new(alloc);
    add_lines(&mut lines, &ABOVE)?;
    for number in 0..stages {
        add_stage(&mut lines, number)?;
    }
    add_lines(&mut lines, &BEHIND)?;
    Ok(lines)
}

/// How many thresholds the file has.
pub const THRESHOLDS: u64 = 51;

/// A threshold of the file: 0, and then from 2^6 to 2^55 each twice the one before.
pub fn threshold(i: u64) -> u64 {
    if i == 0 || 50 < i { 0 } else { 1 << (i + 5) }
}

fn write_thresholds(text: &mut String) -> Result<(), AllocError> {
    text.push_str("thresholds = [0")?;
    for i in 1..THRESHOLDS {
        write!(text, ", {}", threshold(i))?;
    }
    text.push_str("]\n")
}

fn write_line(text: &mut String, line: &Line) -> Result<(), AllocError> {
    let name = line.name;
    match line.at {
        At::Table => writeln!(text, "[{name}]"),
        At::Stage => writeln!(text, "[[{name}]]"),
        At::Number(value, _, _) => writeln!(text, "{name} = {value}"),
        At::Text(value) => writeln!(text, "{name} = \"{value}\""),
        At::Thresholds => write_thresholds(text),
    }
}

/// What a file has in place of the line of a key.
#[derive(Clone, Copy)]
pub struct Change<'a> {
    pub key: SetupKey,
    pub text: &'a str,
}

/// What stands in place of the line of this key, if anything does.
fn change_at<'a>(changes: &[Change<'a>], key: SetupKey) -> Option<&'a str> {
    for change in changes {
        if change.key == key {
            return Some(change.text);
        }
    }
    None
}

/// The text of the file with these changes.
pub fn text_of(
    alloc: Global,
    lines: &[Line],
    changes: &[Change<'_>],
) -> Result<String, AllocError> {
    let mut text = String::new(alloc);
    for line in lines {
        match change_at(changes, line.key) {
            Some(other) => writeln!(text, "{other}")?,
            None => write_line(&mut text, line)?,
        }
    }
    Ok(text)
}
