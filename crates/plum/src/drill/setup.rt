//! The setup of a drill, and the text of a setup's file.

ghost use Rattle.std.specs.Prelude.{◌≡◌, ◌++◌, IfOk, OnOk};
ghost use Rattle.plum_base.specs.Setup.{IsLaneCount};
ghost use Rattle.plum_table.specs.Setup.{fields_of};
ghost use Rattle.plum.specs.DrillSetup.{stage, drill_stages, drill_thresholds, drill_setup};
ghost use Rattle.plum.specs.DrillSetup.{natural_line, integer_line, text_line};
ghost use Rattle.plum.specs.DrillSetup.{rounding_text, stage_text, head_text};
ghost use Rattle.plum.specs.DrillSetup.{numbers_text, levels_text, rules_text, setup_text};

use super::numbers::{put_integer, put_natural};
use arrayvec::ArrayVec;
use plum_base::{
    Bytes, Cascade, Class, Gain, Levels, NoMemory, Rounding, Rules, Setup, Stage, Tenths,
};
use plum_scale::class_text;
use std::alloc::Global;

/// A stage without b2 and a2, of 20 bits behind the point.
fn stage(b0: i32, b1: i32, a1: i32, round: Rounding) -> Stage
    ensures { result ≡ stage b0 b1 a1 round }
{
    Stage {
        b0,
        b1,
        b2: 0,
        a1,
        a2: 0,
        q: 20,
        round,
    }
}

/// Two high passes, three low passes, and one that passes all. They are no filter of any standard.
fn drill_stages() -> ArrayVec<Stage, 8>
    ensures { result.items ≡ drill_stages }
{
    let mut stages = ArrayVec::new();
    stages.push(stage(1_048_576, -1_048_576, -1_043_333, Rounding::Nearest));
    stages.push(stage(262_144, 0, -786_432, Rounding::Nearest));
    stages.push(stage(524_288, 524_288, 0, Rounding::Floor));
    stages.push(stage(1_048_576, -1_048_576, -1_043_333, Rounding::Nearest));
    stages.push(stage(524_288, 0, -524_288, Rounding::Nearest));
    stages.push(stage(1_048_576, 0, 0, Rounding::Nearest));
    stages
}

/// 0, and fifty powers of two.
fn drill_thresholds() -> ArrayVec<u64, 128>
    ensures { result.items ≡ drill_thresholds }
{
    let mut thresholds = ArrayVec::new();
    thresholds.push(0);
    for i in 0..50_u32 {
        thresholds.push(1 << (i + 6));
    }
    thresholds
}

/// The setup of a drill, with so many lanes.
pub fn drill_setup(lanes: u16) -> Setup
    requires { IsLaneCount lanes }
    ensures { fields_of result ≡ drill_setup lanes }
{
    Setup {
        cascade: Cascade::new(drill_stages()).unwrap(),
        gain: Gain { g: 1, h: 0 },
        levels: Levels::new(drill_thresholds(), Tenths(0)).unwrap(),
        rules: Rules {
            raise: Class::C4,
            cancel: Class::C3,
            calm: 5,
        },
        lanes,
        queue: 256,
    }
}

/// Appends a line with a number: `key = number`.
fn put_natural_line(text: &mut Bytes, key: &str, n: u64) -> Result<(), NoMemory>
    ensures { OnOk result (text.new ≡ text.old ++ natural_line key.now n) }
{
    text.extend(key.as_bytes())?;
    text.extend(b" = ")?;
    put_natural(text, n)?;
    text.extend(b"\n")
}

/// Appends a line with a signed number.
fn put_integer_line(text: &mut Bytes, key: &str, z: i32) -> Result<(), NoMemory>
    ensures { OnOk result (text.new ≡ text.old ++ integer_line key.now z) }
{
    text.extend(key.as_bytes())?;
    text.extend(b" = ")?;
    put_integer(text, z)?;
    text.extend(b"\n")
}

/// Appends a line with a text: `key = "text"`.
fn put_text_line(text: &mut Bytes, key: &str, value: &str) -> Result<(), NoMemory>
    ensures { OnOk result (text.new ≡ text.old ++ text_line key.now value.now) }
{
    text.extend(key.as_bytes())?;
    text.extend(b" = \"")?;
    text.extend(value.as_bytes())?;
    text.extend(b"\"\n")
}

/// Appends the lanes, the queue and the gain.
fn put_head(text: &mut Bytes, setup: &Setup) -> Result<(), NoMemory>
    ensures { OnOk result (text.new ≡ text.old ++ head_text (fields_of setup.now)) }
{
    put_natural_line(text, "lanes", u64::from(setup.lanes))?;
    put_natural_line(text, "queue", u64::from(setup.queue))?;
    text.extend(b"\n[gain]\n")?;
    put_natural_line(text, "g", u64::from(setup.gain.g))?;
    put_natural_line(text, "h", u64::from(setup.gain.h))
}

fn rounding_text(round: Rounding) -> &'static str
    ensures { result.now ≡ rounding_text round }
{
    match round {
        Rounding::Floor => "floor",
        Rounding::Nearest => "nearest",
    }
}

/// Appends the table of a stage.
fn put_stage(text: &mut Bytes, stage: &Stage) -> Result<(), NoMemory>
    ensures { OnOk result (text.new ≡ text.old ++ stage_text stage.now) }
{
    text.extend(b"\n[[stage]]\n")?;
    put_integer_line(text, "b0", stage.b0)?;
    put_integer_line(text, "b1", stage.b1)?;
    put_integer_line(text, "b2", stage.b2)?;
    put_integer_line(text, "a1", stage.a1)?;
    put_integer_line(text, "a2", stage.a2)?;
    put_natural_line(text, "q", u64::from(stage.q))?;
    put_text_line(text, "round", rounding_text(stage.round))
}

/// Appends numbers with a comma and a space between two.
fn put_numbers(text: &mut Bytes, numbers: &[u64]) -> Result<(), NoMemory>
    ensures { OnOk result (text.new ≡ text.old ++ numbers_text numbers.now) }
{
    let [first, more @ ..] = numbers else {
        return Ok(());
    };
    put_natural(text, *first)?;
    for number in more {
        text.extend(b", ")?;
        put_natural(text, *number)?;
    }
    Ok(())
}

/// Appends the base and the thresholds.
fn put_levels(text: &mut Bytes, levels: &Levels) -> Result<(), NoMemory>
    ensures { OnOk result (text.new ≡ text.old ++ levels_text levels.now) }
{
    text.extend(b"\n[levels]\n")?;
    put_integer_line(text, "base", i32::from(levels.base().0))?;
    text.extend(b"thresholds = [")?;
    put_numbers(text, levels.thresholds())?;
    text.extend(b"]\n")
}

/// Appends the rules of the alerts.
fn put_rules(text: &mut Bytes, rules: &Rules) -> Result<(), NoMemory>
    ensures { OnOk result (text.new ≡ text.old ++ rules_text rules.now) }
{
    text.extend(b"\n[rules]\n")?;
    put_text_line(text, "raise", class_text(rules.raise))?;
    put_text_line(text, "cancel", class_text(rules.cancel))?;
    put_natural_line(text, "calm", u64::from(rules.calm))
}

/// A setup, as the text of its file.
pub fn setup_text(alloc: Global, setup: &Setup) -> Result<Bytes, NoMemory>
    ensures { IfOk result (λ text. text ≡ setup_text (fields_of setup.now)) }
{
    let mut text = Bytes::new(alloc)?;
    put_head(&mut text, setup)?;
    for stage in setup.cascade.stages() {
        put_stage(&mut text, stage)?;
    }
    put_levels(&mut text, &setup.levels)?;
    put_rules(&mut text, &setup.rules)?;
    Ok(text)
}
