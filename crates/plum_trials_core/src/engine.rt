//! Worked runs of one engine: the greatest amplitude that three components can have, and the two
//! roundings of a stage.

mod filter;

use plum_base::{Gain, Rounding, Sample, Stage, Tenths};
use plum_engine::Engine;
use plum_trials_given::{GAIN, PASS_THROUGH, equal_samples, setup_with};
use std::alloc::Global;
use std::test::Fail;

#[test]
fn greatest_amplitude(rt: HostRuntime) -> Result<(), Fail> {
    let gain = Gain { g: 1 << 31, h: 0 };
    let setup = setup_with(PASS_THROUGH, gain, &[0, 3 << 60], 1, 16)?;
    let mut engine = Engine::new(rt.alloc(), &setup)?;
    let sample = Sample {
        x: i32::MIN,
        y: i32::MAX,
        z: 1,
    };
    let wave = equal_samples(rt.alloc(), 30, sample)?;
    assert_eq!(rt; engine.absorb(true, &wave), Some(Tenths(21)));
    Ok(())
}

/// The value of 30 samples of -1 along x, which a stage of this rounding halves. The amplitude 1 is
/// worth 2.1.
fn value_of_halves(alloc: Global, round: Rounding) -> Result<Option<Tenths>, Fail> {
    let stage = Stage {
        b0: 1,
        q: 1,
        round,
        ..Stage::default()
    };
    let setup = setup_with(stage, GAIN, &[0, 1], 1, 16)?;
    let mut engine = Engine::new(alloc, &setup)?;
    let wave = equal_samples(alloc, 30, Sample { x: -1, y: 0, z: 0 })?;
    Ok(engine.absorb(true, &wave))
}

#[test]
fn two_roundings(rt: HostRuntime) -> Result<(), Fail> {
    let floor = value_of_halves(rt.alloc(), Rounding::Floor)?;
    assert_eq!(rt; floor, Some(Tenths(21)));
    let nearest = value_of_halves(rt.alloc(), Rounding::Nearest)?;
    assert_eq!(rt; nearest, Some(Tenths(20)));
    Ok(())
}
