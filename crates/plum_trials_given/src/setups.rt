//! The setup of the worked rows, and others of one stage.

ghost use Rattle.std.specs.Prelude.{◌≡◌, IfOk};
ghost use Rattle.plum_base.specs.Setup.{IsGain, IsLaneCount, IsQueueBound};

use arrayvec::ArrayVec;
use plum_base::{Cascade, Class, Gain, Levels, Rounding, Rules, Setup, Stage, Tenths};
use std::test::Fail;

/// The rules of the worked rows.
pub const RULES: Rules = Rules {
    raise: Class::C4,
    cancel: Class::C3,
    calm: 2,
};

/// Their gain.
pub const GAIN: Gain = Gain { g: 1, h: 0 };

/// Their thresholds: 2.0 from the amplitude 0 on, 2.1 from 10, 2.2 from 20 and 2.3 from 30.
const THRESHOLDS: [u64; 4] = [0, 100, 400, 900];

/// Their stage, which passes its input through: it gives floor(2 x / 2).
pub const PASS_THROUGH: Stage = Stage {
    b0: 2,
    b1: 0,
    b2: 0,
    a1: 0,
    a2: 0,
    q: 1,
    round: Rounding::Floor,
};

/// A cascade of one stage.
pub fn cascade_of(stage: Stage) -> Result<Cascade, Fail> {
    let mut stages = ArrayVec::new();
    stages.push(stage);
    Ok(Cascade::new(stages).ok().ok_or("a stage in range")?)
}

/// A setup of one stage whose level 0 stands for 2.0, under the rules of the worked rows.
pub fn setup_with(
    stage: Stage,
    gain: Gain,
    thresholds: &[u64],
    lanes: u16,
    queue: u32,
) -> Result<Setup, Fail>
    requires gain { IsGain gain.g gain.h }
    requires lanes { IsLaneCount lanes }
    requires queue { IsQueueBound queue }
    ensures { IfOk result (λ setup. setup.lanes ≡ lanes) }
{
    let mut table = ArrayVec::new();
    table.try_extend_from_slice(thresholds)?;
    Ok(Setup {
        cascade: cascade_of(stage)?,
        gain,
        levels: Levels::new(table, Tenths(20)).ok().ok_or("a lawful table")?,
        rules: RULES,
        lanes,
        queue,
    })
}

/// The setup of the worked rows, with so many lanes and a queue of so many entries.
pub fn setup_of(lanes: u16, queue: u32) -> Result<Setup, Fail>
    requires lanes { IsLaneCount lanes }
    requires queue { IsQueueBound queue }
    ensures { IfOk result (λ setup. setup.lanes ≡ lanes) }
{
    setup_with(PASS_THROUGH, GAIN, &THRESHOLDS, lanes, queue)
}
