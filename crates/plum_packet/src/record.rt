//! Where a record ends: its length stands in its first bytes.

ghost use Rattle.std.specs.Prelude.{◌≡◌, ◌↔◌, ◌<◌, ◌≤◌, length, IsTrue, IsFalse};
ghost use Rattle.plum_packet.specs.Capture.{HasRecord};
ghost use Rattle.plum_packet.specs.Record.{record_end};

use byteorder::{BigEndian, ByteOrder};

/// The bytes of a length.
pub const LENGTH: usize = 2;

/// The bytes of the longest body.
pub const LONGEST_BODY: usize = 65_535;

/// The bytes of the longest record.
pub const LONGEST_RECORD: usize = LENGTH + LONGEST_BODY;

/// Where the bytes of a record end that come next: first those of its length, then those of its
/// body.
pub fn end_of(taken: &[u8]) -> usize
    ensures length { length taken.now < LENGTH → result ≡ LENGTH }
    ensures body { LENGTH ≤ length taken.now → result ≡ record_end taken.now }
    ensures bound { result ≤ LONGEST_RECORD }
{
    if taken.len() < LENGTH {
        LENGTH
    } else {
        LENGTH + BigEndian::read_u16(taken) as usize
    }
}

/// Whether a whole record stands at the start of the bytes.
pub fn starts_whole(bytes: &[u8]) -> bool
    ensures whole { IsTrue result ↔ HasRecord bytes.now }
    ensures bound { IsFalse result → length bytes.now < LONGEST_RECORD }
{
    end_of(bytes) <= bytes.len()
}
