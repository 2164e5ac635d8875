//! Notes with ample memory.

use plum_base::{Key, Note, Notes, StationNo};
use std::test::Fail;

#[test]
fn notes_of_a_round(rt: HostRuntime) -> Result<(), Fail> {
    let note = Note {
        station: StationNo(0),
        key: Key { boot: 0, number: 0 },
        fresh: true,
        value: None,
    };
    let mut notes = Notes::new(rt.alloc())?;
    notes.push(note)?;
    assert!(rt; notes.as_slice() == [note].as_slice());
    notes.clear();
    assert!(rt; notes.as_slice().is_empty());
    Ok(())
}
