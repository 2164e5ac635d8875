//! A host in memory that notes its calls.

ghost use Rattle.plum_host.specs.Memory.{told_by};

use plum_base::{Bytes, NoMemory};
use plum_host::{Failed, Host, In, MemHost, To, WriteRefusal};
use std::alloc::Global;

/// It notes each call before it hands it on, and each piece that was written. A note for which
/// there is no memory is left out, and then the notes are not those that a trial expects.
#[derive(Drop)]
pub struct NotingHost {
    host: MemHost,
    /// A line that begins with `>` for each write, and behind it the piece; one for the reads
    /// between two writes.
    notes: Bytes,
    in_reads: bool,
    reads: u32,
    writes: u32,
}

impl NotingHost {
    pub fn new(alloc: Global, host: MemHost) -> Result<NotingHost, NoMemory> {
        Ok(NotingHost {
            host,
            notes: Bytes::new(alloc)?,
            in_reads: false,
            reads: 0,
            writes: 0,
        })
    }

    pub fn notes(&self) -> &[u8] {
        self.notes.as_slice()
    }

    pub fn reads(&self) -> u32 {
        self.reads
    }

    pub fn writes(&self) -> u32 {
        self.writes
    }
}

impl Host for NotingHost {
    ghost told = { λ h. told_by h.host };

    fn read(&mut self, file: In, buf: &mut [u8]) -> Result<usize, Failed> {
        self.reads = self.reads.saturating_add(1);
        if !self.in_reads {
            let _noted = self.notes.extend(b"> read\n");
        }
        self.in_reads = true;
        self.host.read(file, buf)
    }

    fn write(&mut self, file: To, bytes: &[u8]) -> Result<usize, WriteRefusal> {
        self.writes = self.writes.saturating_add(1);
        self.in_reads = false;
        let written = self.host.write(file, bytes);
        if let Ok(count) = written {
            let _noted = note_write(&mut self.notes, file, &bytes[..count]);
        }
        written
    }
}

/// Notes a piece that was written.
fn note_write(notes: &mut Bytes, file: To, piece: &[u8]) -> Result<(), NoMemory> {
    notes.extend(match file {
        To::Out => b"> out\n".as_slice(),
        To::Journal => b"> journal\n".as_slice(),
    })?;
    notes.extend(piece)
}
