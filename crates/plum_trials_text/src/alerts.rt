//! What a desk tells of its area.

use plum_alert::Desk;
use plum_base::{Alert, Answers, Bytes, Class, Name, Reading, Tenths};
use plum_text::{OutLine, write_out};
use plum_trials_given::RULES;
use std::alloc::Global;
use std::test::Fail;

/// What the desk tells of a reading with this greatest answer.
fn told(alloc: Global, desk: &mut Desk, greatest: Option<i16>) -> Result<Option<Alert>, Fail> {
    let mut answers = Answers::new(alloc)?;
    answers.push(None)?;
    answers.push(greatest.map(Tenths))?;
    Ok(desk.next(&Reading { front: 0, answers }))
}

#[test]
fn raise_upgrade_cancel(rt: HostRuntime) -> Result<(), Fail> {
    let mut desk = Desk::new(&RULES);
    let readings = [
        (Some(40), None),
        (Some(47), Some(Alert::Raise(Class::C5Lower))),
        (Some(52), Some(Alert::Upgrade(Class::C5Upper))),
        (Some(20), None),
        (None, Some(Alert::Cancel)),
        (Some(46), None),
        (Some(46), Some(Alert::Raise(Class::C5Lower))),
    ];
    for (greatest, alert) in readings.iter() {
        assert!(rt; told(rt.alloc(), &mut desk, *greatest)? == *alert);
    }
    Ok(())
}

/// Two readings of class 4: the first gives no alert, since no reading stands before it.
#[test]
fn line_of_a_raise(rt: HostRuntime) -> Result<(), Fail> {
    let alloc = rt.alloc();
    let mut desk = Desk::new(&RULES);
    let mut text = Bytes::new(alloc)?;
    for m in 1..3 {
        if let Some(alert) = told(alloc, &mut desk, Some(40))? {
            let area = Name::read(b"a").ok_or("a name")?;
            write_out(&mut text, &OutLine::Alert { m, area, alert })?;
        }
    }
    assert!(rt; text.as_slice() == b"A 2 a raise 4\n".as_slice());
    Ok(())
}
