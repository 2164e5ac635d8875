//! The numbers of a setup file, and its faults.

mod faults;
mod lines;

use lines::{At, Change, Line, STAGES, THRESHOLDS, lines_of, text_of, threshold};
use plum_base::{Class, Gain, Levels, Rounding, Rules, Stage, Tenths};
use plum_table::{Field, SetupFault, SetupKey, TableFault, read_setup};
use std::alloc::{AllocError, Global};
use std::process::Abort;
use std::test::Fail;

/// The stages are those of the file, in its order.
fn expect_stages(rt: &impl Abort, stages: &[Stage]) {
    assert_eq!(rt; stages.len(), STAGES.len());
    for (stage, (coefficients, round)) in stages.iter().zip(STAGES.iter()) {
        let rounding = match *round {
            "floor" => Rounding::Floor,
            _ => Rounding::Nearest,
        };
        assert_eq!(rt;
            [stage.b0, stage.b1, stage.b2, stage.a1, stage.a2],
            *coefficients
        );
        assert_eq!(rt; stage.q, 20);
        assert_eq!(rt; stage.round, rounding);
    }
}

fn expect_levels(rt: &impl Abort, levels: &Levels) {
    assert_eq!(rt; levels.base(), Tenths(0));
    assert_eq!(rt; levels.thresholds().len() as u64, THRESHOLDS);
    for (i, found) in (0..THRESHOLDS).zip(levels.thresholds().iter()) {
        assert_eq!(rt; *found, threshold(i));
    }
}

#[test]
fn numbers_of_a_setup(rt: HostRuntime) -> Result<(), Fail> {
    let lines = lines_of(rt.alloc(), 6)?;
    let text = text_of(rt.alloc(), lines.as_slice(), &[])?;
    let setup = read_setup(rt.alloc(), text.as_bytes())?;
    assert_eq!(rt; (setup.lanes, setup.queue), (4, 256));
    assert_eq!(rt; setup.gain, Gain { g: 1, h: 0 });
    expect_stages(&rt, setup.cascade.stages());
    expect_levels(&rt, &setup.levels);
    let rules = Rules {
        raise: Class::C4,
        cancel: Class::C3,
        calm: 5,
    };
    assert_eq!(rt; setup.rules, rules);
    Ok(())
}

/// Reads the file with these changes: it is accepted, or has this fault.
pub fn expect(
    rt: &impl Abort,
    alloc: Global,
    lines: &[Line],
    changes: &[Change<'_>],
    fault: Option<SetupFault>,
) -> Result<(), Fail> {
    let text = text_of(alloc, lines, changes)?;
    let found = read_setup(alloc, text.as_bytes()).err();
    assert_eq!(rt; found, fault.map(TableFault::Setup), "{text}");
    Ok(())
}

/// The line of a key with a value of another kind.
fn of_another_kind(alloc: Global, line: &Line) -> Result<String, AllocError> {
    let name = line.name;
    match line.at {
        At::Table | At::Stage => format!(in alloc; "[[{name}]]"),
        At::Number(_, _, _) | At::Thresholds => format!(in alloc; "{name} = \"x\""),
        At::Text(_) => format!(in alloc; "{name} = 1"),
    }
}

/// The file with this number at a key.
fn expect_number(
    rt: &impl Abort,
    alloc: Global,
    lines: &[Line],
    line: &Line,
    number: i64,
    fault: Option<SetupFault>,
) -> Result<(), Fail> {
    let name = line.name;
    let other = format!(in alloc; "{name} = {number}")?;
    let change = Change {
        key: line.key,
        text: other.as_str(),
    };
    expect(rt, alloc, lines, &[change], fault)
}

/// The ends of the range of a number, and what is next to them.
fn expect_range(rt: &impl Abort, alloc: Global, lines: &[Line], line: &Line) -> Result<(), Fail> {
    if let At::Number(_, low, high) = line.at {
        let fault = Some(SetupFault::Range(line.key));
        expect_number(rt, alloc, lines, line, low.saturating_sub(1), fault)?;
        expect_number(rt, alloc, lines, line, low, None)?;
        expect_number(rt, alloc, lines, line, high, None)?;
        expect_number(rt, alloc, lines, line, high.saturating_add(1), fault)?;
    }
    Ok(())
}

/// The key is left out, or has a value of another kind.
fn expect_missing_and_kind(
    rt: &impl Abort,
    alloc: Global,
    lines: &[Line],
    line: &Line,
) -> Result<(), Fail> {
    let key = line.key;
    let missing = Some(SetupFault::Missing(key));
    expect(rt, alloc, lines, &[Change { key, text: "" }], missing)?;
    let other = of_another_kind(alloc, line)?;
    let text = other.as_str();
    expect(
        rt,
        alloc,
        lines,
        &[Change { key, text }],
        Some(SetupFault::Kind(key)),
    )
}

#[test]
fn faults_at_each_key(rt: HostRuntime) -> Result<(), Fail> {
    let lines = lines_of(rt.alloc(), 6)?;
    for line in lines.iter() {
        // Where the head of a stage is left out, its keys stand in the table above.
        if line.key.field != Field::Stages {
            expect_missing_and_kind(&rt, rt.alloc(), lines.as_slice(), line)?;
        }
        expect_range(&rt, rt.alloc(), lines.as_slice(), line)?;
    }
    Ok(())
}
