//! The bytes of a capture that were read and are not given yet.

ghost use Rattle.std.specs.Prelude.{◌≡◌, ◌≤◌, ◌-◌, ◌++◌, [], length, take, drop};
ghost use Rattle.std.specs.Prelude.{IfOk, OnOk, OnSome, OnErr, MatchBool};
ghost use Rattle.plum_host.specs.declared.host.In.TheVariants.{Capture};
ghost use Rattle.plum_host.specs.Faults.{HasRisen};
ghost use Rattle.plum_host.specs.Frames.{OnlyReads};
ghost use Rattle.plum_packet.specs.Capture.{HasRecord, IsBody, record_of};
ghost use Rattle.plum_packet.specs.Record.{MovesFront};

use crate::last_body::LastBody;
use crate::record::{LENGTH, LONGEST_RECORD, end_of, starts_whole};
use plum_base::NoMemory;
use plum_host::{Failed, Host, In};
use std::alloc::Global;
use std::marker::Model;

/// What was taken of an input and is not given yet, in a buffer that has room for the longest
/// record. A read takes as much as there is room for, so that short records come many at a time.
#[derive(Drop)]
pub struct Block {
    buffer: Vec<u8>,
    /// Where what is not given begins.
    start: usize,
    /// Where what was taken ends.
    end: usize,
}

impl Model for Block {
    ghost use Rattle.std.specs.Prelude.{◌≡◌, ◌≤◌, ℕ, List, drop, take, vec_len};
    ghost use Rattle.plum_packet.specs.Capture.{LONGEST_RECORD};

    ghost Value = { List ℕ };

    ghost view = { λ b. drop b.start (take b.end b.buffer.items) };

    ghost invariant = { λ b. (vec_len b.buffer ≡ LONGEST_RECORD)
        × (b.start ≤ b.end) × (b.end ≤ LONGEST_RECORD) };
}

impl Block {
    /// No bytes, and room for the longest record.
    pub fn new(alloc: Global) -> Result<Block, NoMemory>
        ensures { IfOk result (λ b. b ≡ []) }
    {
        Ok(Block {
            buffer: vec![in alloc; 0u8; LONGEST_RECORD]?,
            start: 0,
            end: 0,
        })
    }

    fn as_slice(&self) -> &[u8]
        ensures { result.now ≡ self.now }
    {
        &self.buffer[self.start..self.end]
    }

    /// How many bytes there are.
    pub fn count(&self) -> usize
        ensures count { result ≡ length self.now }
        ensures bound { result ≤ LONGEST_RECORD }
    {
        self.end - self.start
    }

    /// Gives the record at the start: its body is the last one then.
    pub fn give(&mut self, last: &mut LastBody)
        requires { HasRecord self.old }
        ensures given { self.old ≡ record_of last.new ++ self.new }
        ensures body { IsBody last.new }
    {
        let end = end_of(self.as_slice());
        last.set(&self.as_slice()[LENGTH..end]);
        self.start += end;
    }

    /// Reads until a whole record stands at the start. Tells whether one does: else the input
    /// ended.
    pub fn complete<H: Host>(&mut self, host: &mut H) -> Result<bool, Failed>
        ensures taken { MovesFront self.old ((H.told host.old).left Capture)
            self.new ((H.told host.new).left Capture) }
        ensures whole { IfOk result (λ whole. MatchBool whole (HasRecord self.new)
            (¬ HasRecord self.new × OnSome ((H.told host.old).left Capture)
            ((H.told host.new).left Capture ≡ Some []))) }
        ensures short { OnErr result (¬ HasRecord self.new) }

        // A read that failed is one fault more, and ends the call.
        ensures fault { OnErr result
            (HasRisen (H.told host.old).read_faults (H.told host.new).read_faults) }
        ensures no_fault { OnOk result
            ((H.told host.new).read_faults ≡ (H.told host.old).read_faults) }

        ensures frame { OnlyReads Capture (H.told host.old) (H.told host.new) }
    {
        if starts_whole(self.as_slice()) {
            return Ok(true);
        }
        self.end = move_to_front(&mut self.buffer, self.start, self.end);
        self.start = 0;
        fill(host, &mut self.buffer, &mut self.end)
    }
}

/// Moves a part of the buffer to its front. Tells where it ends there.
fn move_to_front(buffer: &mut [u8], start: usize, end: usize) -> usize
    requires order { start ≤ end }
    requires within { end ≤ length buffer.old }
    ensures moved { take result buffer.new ≡ drop start (take end buffer.old) }
    ensures end { result ≡ end - start }
    ensures long { length buffer.new ≡ length buffer.old }
{
    buffer.copy_within(start..end, 0);
    end - start
}

/// Reads behind the first `filled` bytes of the buffer, and counts what comes there, also where a
/// read fails, until a whole record stands at the start. Tells whether one does: else the input
/// ended.
fn fill<H: Host>(host: &mut H, buffer: &mut [u8], filled: &mut usize) -> Result<bool, Failed>
    requires room { length buffer.old ≡ LONGEST_RECORD }
    requires filled { filled.old ≤ LONGEST_RECORD }
    ensures filled { filled.new ≤ LONGEST_RECORD }
    ensures taken { MovesFront (take filled.old buffer.old) ((H.told host.old).left Capture)
        (take filled.new buffer.new) ((H.told host.new).left Capture) }
    ensures whole { IfOk result (λ whole. MatchBool whole (HasRecord (take filled.new buffer.new))
        (¬ HasRecord (take filled.new buffer.new) × OnSome ((H.told host.old).left Capture)
        ((H.told host.new).left Capture ≡ Some []))) }
    ensures short { OnErr result (¬ HasRecord (take filled.new buffer.new)) }

    ensures fault { OnErr result
        (HasRisen (H.told host.old).read_faults (H.told host.new).read_faults) }
    ensures no_fault { OnOk result
        ((H.told host.new).read_faults ≡ (H.told host.old).read_faults) }

    ensures frame { OnlyReads Capture (H.told host.old) (H.told host.new) }
{
    'reads: loop {
        if starts_whole(&buffer[..*filled]) {
            return Ok(true);
        }
        let count = host.read(In::Capture, &mut buffer[*filled..])?;
        if count == 0 {
            return Ok(false);
        }
        *filled += count;
    }
}
