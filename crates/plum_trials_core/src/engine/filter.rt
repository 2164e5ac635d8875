//! Worked inputs of a filter.

use plum_base::Stage;
use plum_filter::Filter;
use plum_trials_given::cascade_of;
use std::test::Fail;

/// A stage that adds each input to its last answer, and clamps at the greatest term.
#[test]
fn filter_that_adds_up(rt: HostRuntime) -> Result<(), Fail> {
    let cascade = cascade_of(Stage {
        b0: 2,
        a1: -2,
        q: 1,
        ..Stage::default()
    })?;
    let mut filter = Filter::new(&cascade);
    assert_eq!(rt; [filter.step(5), filter.step(0), filter.step(0)], [5, 5, 5]);
    filter.reset();
    let greatest = 1 << 30;
    let answers = [
        filter.step(greatest),
        filter.step(greatest),
        filter.step(-1),
    ];
    assert_eq!(rt; answers, [greatest, greatest, greatest - 1]);
    Ok(())
}
