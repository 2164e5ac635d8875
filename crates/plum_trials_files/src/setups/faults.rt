//! Setup files in which a line or two are others.

use crate::setups::expect;
use crate::setups::lines::{Change, Line, lines_of};
use plum_table::{Field, SetupFault, SetupKey};
use std::alloc::{AllocError, Global};
use std::process::Abort;
use std::test::Fail;

/// What becomes of a file, at a key.
#[derive(Clone, Copy)]
enum Want {
    Accepted,
    NotToml,
    Missing,
    Kind,
    Range,
    Order(u16),
}

/// A line in place of that of a key: the field, the stage, and the line.
type Other = (Field, u8, &'static str);

/// Files in which one line is another, and what becomes of them at its key.
const ONE_LINE: [(Other, Want); 15] = [
    ((Field::Lanes, 0, "lanes ="), Want::NotToml),
    ((Field::Lanes, 0, "lanes = 4\nlanes = 4"), Want::NotToml),
    ((Field::Lanes, 0, "\u{feff}lanes = 4"), Want::Accepted),
    ((Field::Queue, 0, "queue = 256.0"), Want::Kind),
    ((Field::Queue, 0, "queue = 256\nmost = 7"), Want::Accepted),
    ((Field::GainH, 0, "h = 0\nk = \"x\""), Want::Accepted),
    ((Field::Q, 2, "q = 20\nb3 = true"), Want::Accepted),
    ((Field::Calm, 0, "calm = 5\n[other]"), Want::Accepted),
    ((Field::Round, 0, "round = \"Floor\""), Want::Range),
    ((Field::Round, 5, "round = \"\""), Want::Range),
    ((Field::Raise, 0, "raise = \"5\""), Want::Range),
    ((Field::Raise, 0, "raise = \"8\""), Want::Range),
    ((Field::Cancel, 0, "cancel = \"4\""), Want::Accepted),
    ((Field::Cancel, 0, "cancel = \"5-\""), Want::Range),
    ((Field::Cancel, 0, "cancel = \"-1\""), Want::Range),
];

/// Lists of thresholds.
const THRESHOLDS: [(&str, Want); 15] = [
    ("[]", Want::Range),
    ("[0]", Want::Accepted),
    ("[1, 2]", Want::Range),
    ("[1, 1]", Want::Range),
    ("[0, -1]", Want::Range),
    ("[0, 3458764513820540928]", Want::Accepted),
    ("[0, 3458764513820540929]", Want::Range),
    ("[0, 9223372036854775808]", Want::NotToml),
    ("[0, 1.5]", Want::Kind),
    ("[-1, \"x\"]", Want::Kind),
    ("[0, 0]", Want::Order(1)),
    ("[0, 100, 100]", Want::Order(2)),
    ("[0, 3, 2, 1]", Want::Order(2)),
    ("[0, 3, 3, -1]", Want::Range),
    ("[0, 1, 2, 3]", Want::Accepted),
];

/// Files with two faults, of which that of the first line is told: its key comes first.
const TWO_LINES: [(Other, Other, Want); 9] = [
    (
        (Field::Lanes, 0, "lanes = true"),
        (Field::Queue, 0, ""),
        Want::Kind,
    ),
    (
        (Field::GainG, 0, "g = 0"),
        (Field::GainH, 0, ""),
        Want::Range,
    ),
    ((Field::GainH, 0, "h = 32"), (Field::B0, 0, ""), Want::Range),
    (
        (Field::Round, 0, "round = \"up\""),
        (Field::B0, 1, ""),
        Want::Range,
    ),
    (
        (Field::Round, 4, ""),
        (Field::B0, 5, "b0 = true"),
        Want::Missing,
    ),
    (
        (Field::Q, 5, "q = 31"),
        (Field::Levels, 0, "[[levels]]"),
        Want::Range,
    ),
    (
        (Field::Base, 0, "base = 101"),
        (Field::Thresholds, 0, ""),
        Want::Range,
    ),
    (
        (Field::Thresholds, 0, "thresholds = [0, 0]"),
        (Field::Rules, 0, ""),
        Want::Order(1),
    ),
    (
        (Field::Raise, 0, "raise = 4"),
        (Field::Cancel, 0, ""),
        Want::Kind,
    ),
];

/// Files with this many stages, and with this line for that of the queue; what becomes of them at
/// `stage`.
const STAGE_COUNTS: [(u8, &str, Want); 7] = [
    (0, "queue = 256", Want::Missing),
    (0, "queue = 256\nstage = 1", Want::Kind),
    (0, "queue = 256\nstage = [1]", Want::Kind),
    (0, "queue = 256\nstage = []", Want::Range),
    (1, "queue = 256", Want::Accepted),
    (8, "queue = 256", Want::Accepted),
    (9, "queue = 256", Want::Range),
];

fn fault_at(want: Want, key: SetupKey) -> Option<SetupFault> {
    match want {
        Want::Accepted => None,
        Want::NotToml => Some(SetupFault::NotToml),
        Want::Missing => Some(SetupFault::Missing(key)),
        Want::Kind => Some(SetupFault::Kind(key)),
        Want::Range => Some(SetupFault::Range(key)),
        Want::Order(i) => Some(SetupFault::Order(i)),
    }
}

fn change_of((field, stage, text): Other) -> Change<'static> {
    Change {
        key: SetupKey { field, stage },
        text,
    }
}

#[test]
fn setup_faults(rt: HostRuntime) -> Result<(), Fail> {
    let lines = lines_of(rt.alloc(), 6)?;
    for (other, want) in ONE_LINE.iter() {
        let change = change_of(*other);
        let fault = fault_at(*want, change.key);
        expect(&rt, rt.alloc(), lines.as_slice(), &[change], fault)?;
    }
    Ok(())
}

#[test]
fn first_of_two_faults(rt: HostRuntime) -> Result<(), Fail> {
    let lines = lines_of(rt.alloc(), 6)?;
    for (first, other, want) in TWO_LINES.iter() {
        let first = change_of(*first);
        let fault = fault_at(*want, first.key);
        expect(
            &rt,
            rt.alloc(),
            lines.as_slice(),
            &[change_of(*other), first],
            fault,
        )?;
    }
    Ok(())
}

/// The file with this list of thresholds.
fn expect_thresholds(
    rt: &impl Abort,
    alloc: Global,
    lines: &[Line],
    list: &str,
    want: Want,
) -> Result<(), Fail> {
    let key = SetupKey::of(Field::Thresholds);
    let line = format!(in alloc; "thresholds = {list}")?;
    let text = line.as_str();
    expect(
        rt,
        alloc,
        lines,
        &[Change { key, text }],
        fault_at(want, key),
    )
}

/// A list of thresholds that rise by one from 0.
fn rising(alloc: Global, count: u64) -> Result<String, AllocError> {
    let mut list = String::from_str(alloc, "[0")?;
    for i in 1..count {
        write!(list, ", {i}")?;
    }
    list.push_str("]")?;
    Ok(list)
}

#[test]
fn lists_of_thresholds(rt: HostRuntime) -> Result<(), Fail> {
    let lines = lines_of(rt.alloc(), 6)?;
    for (list, want) in THRESHOLDS.iter() {
        expect_thresholds(&rt, rt.alloc(), lines.as_slice(), list, *want)?;
    }
    for (count, want) in [(128, Want::Accepted), (129, Want::Range)] {
        let list = rising(rt.alloc(), count)?;
        expect_thresholds(&rt, rt.alloc(), lines.as_slice(), list.as_str(), want)?;
    }
    Ok(())
}

#[test]
fn counts_of_stages(rt: HostRuntime) -> Result<(), Fail> {
    let key = SetupKey::of(Field::Stages);
    for (stages, queue, want) in STAGE_COUNTS.iter() {
        let lines = lines_of(rt.alloc(), *stages)?;
        let change = change_of((Field::Queue, 0, *queue));
        expect(
            &rt,
            rt.alloc(),
            lines.as_slice(),
            &[change],
            fault_at(*want, key),
        )?;
    }
    Ok(())
}
