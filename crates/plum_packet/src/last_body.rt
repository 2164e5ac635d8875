//! The body of a record that was given.

ghost use Rattle.std.specs.Prelude.{◌≡◌, ◌≤◌, [], length, take, IfOk};
ghost use Rattle.plum_packet.specs.Capture.{IsBody};

use crate::record::LONGEST_BODY;
use plum_base::NoMemory;
use std::alloc::Global;
use std::marker::Model;

/// The body of the last record that was given, empty before the first. It is a copy, so that it
/// stays while more is read.
#[derive(Drop)]
pub struct LastBody {
    buffer: Vec<u8>,
    count: usize,
}

impl Model for LastBody {
    ghost use Rattle.std.specs.Prelude.{◌≡◌, ◌≤◌, List, ℕ, take, vec_len};
    ghost use Rattle.plum_packet.specs.Capture.{LONGEST_BODY};

    ghost Value = { List ℕ };

    ghost view = { λ b. take b.count b.buffer.items };

    ghost invariant = { λ b. (vec_len b.buffer ≡ LONGEST_BODY) × (b.count ≤ LONGEST_BODY) };
}

impl LastBody {
    /// No bytes, and room for the longest body.
    pub fn new(alloc: Global) -> Result<LastBody, NoMemory>
        ensures { IfOk result (λ b. b ≡ []) }
    {
        Ok(LastBody {
            buffer: vec![in alloc; 0u8; LONGEST_BODY]?,
            count: 0,
        })
    }

    /// Holds this body from now on.
    pub fn set(&mut self, body: &[u8])
        requires { IsBody body.now }
        ensures { self.new ≡ body.now }
    {
        write_front(&mut self.buffer, body);
        self.count = body.len();
    }

    pub fn as_slice(&self) -> &[u8]
        ensures value { result.now ≡ self.now }
        ensures bound { length result.now ≤ LONGEST_BODY }
    {
        &self.buffer[..self.count]
    }
}

/// Writes the bytes to the front of the buffer.
fn write_front(buffer: &mut [u8], bytes: &[u8])
    requires { length bytes.now ≤ length buffer.old }
    ensures front { take (length bytes.now) buffer.new ≡ bytes.now }
    ensures long { length buffer.new ≡ length buffer.old }
{
    buffer[..bytes.len()].copy_from_slice(bytes);
}
