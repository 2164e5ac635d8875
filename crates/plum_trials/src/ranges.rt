//! What is wrong with a cascade of no stage, and with a table that does not begin at 0.

use arrayvec::ArrayVec;
use plum_base::{Cascade, CascadeFault, LevelFault, Levels, Tenths};

#[test]
fn lines_and_range_faults(rt: HostRuntime) {
    assert_eq!(rt;
        Cascade::new(ArrayVec::new()).err(),
        Some(CascadeFault::Empty)
    );
    let mut thresholds = ArrayVec::new();
    thresholds.push(1);
    assert_eq!(rt;
        Levels::new(thresholds, Tenths(20)).err(),
        Some(LevelFault::First)
    );
}
