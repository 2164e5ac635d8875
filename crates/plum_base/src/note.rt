//! What the journal tells of a kept packet.

ghost use Rattle.std.specs.Prelude.{◌≡◌, [], ◌∷◌, ◌++◌, OnOk, OnErr, IfOk};
ghost use Rattle.plum_base.specs.Note.{note_of};

use crate::entry::Entry;
use crate::memory::NoMemory;
use crate::numbers::{Key, StationNo, Tenths};
use std::alloc::Global;
use std::marker::Model;

/// An entry of the journal without its samples.
#[derive(Clone, Copy, Debug, PartialEq, Eq)]
pub struct Note {
    pub station: StationNo,
    pub key: Key,
    /// Whether it starts a new run.
    pub fresh: bool,
    /// The station's intensity after it, or none with fewer than 30 samples since the last gap.
    pub value: Option<Tenths>,
}

/// What the journal tells of an entry.
pub fn note_of(entry: &Entry) -> Note
    ensures { result ≡ note_of entry.now }
{
    Note {
        station: entry.station,
        key: entry.key,
        fresh: entry.fresh,
        value: entry.value,
    }
}

/// Notes, in the order of the journal. Contracts see the list of them.
#[derive(Debug, Drop)]
pub struct Notes {
    items: Vec<Note>,
}

impl Model for Notes {
    ghost use Rattle.std.specs.Prelude.{List};
    ghost use Rattle.plum_base.specs.declared.note.Note.{Note};

    ghost Value = { List Note };

    ghost view = { λ n. n.items.items };
}

impl Notes {
    /// No notes.
    pub fn new(alloc: Global) -> Result<Notes, NoMemory>
        ensures { IfOk result (λ n. n ≡ []) }
    {
        Ok(Notes {
            items: Vec::new(alloc),
        })
    }

    /// Appends a note.
    pub fn push(&mut self, note: Note) -> Result<(), NoMemory>
        ensures ok { OnOk result (self.new ≡ self.old ++ note ∷ []) }
        ensures err { OnErr result (self.new ≡ self.old) }
    {
        self.items.push(note)?;
        Ok(())
    }

    /// Empties the list, and keeps its room.
    pub fn clear(&mut self)
        ensures { self.new ≡ [] }
    {
        self.items.clear();
    }

    /// The notes, in the order of the journal.
    pub fn as_slice(&self) -> &[Note]
        ensures { result.now ≡ self.now }
    {
        self.items.as_slice()
    }
}
