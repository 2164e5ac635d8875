//! A host over memory, for tests.

ghost use Rattle.std.specs.Prelude.{◌≡◌, min, [], length, take, drop, IfOk};

use crate::host::{Failed, Host, In, To, WriteRefusal};
use crate::schedule::{Schedule, next_call};
use plum_base::{Bytes, NoMemory};
use std::alloc::Global;
use std::marker::Model;

/// What each input is.
#[derive(Debug, Drop)]
pub struct MemFiles {
    pub setup: Bytes,
    pub stations: Bytes,
    pub targets: Bytes,
    pub capture: Bytes,
    pub journal: Bytes,
    pub output: Bytes,
}

/// An input in memory. Contracts see what is left of it.
#[derive(Debug, Drop)]
struct Input {
    bytes: Bytes,
    taken: usize,
}

impl Model for Input {
    ghost use Rattle.std.specs.Prelude.{List, ℕ, ◌≤◌, length, drop};

    ghost Value = { List ℕ };

    ghost view = { λ i. drop i.taken i.bytes };

    ghost invariant = { λ i. i.taken ≤ length i.bytes };
}

impl Input {
    fn new(bytes: Bytes) -> Input
        ensures { result ≡ bytes }
    {
        Input { bytes, taken: 0 }
    }

    /// Moves as many of the next bytes as the buffer takes.
    fn take(&mut self, buf: &mut [u8]) -> usize
        ensures count { result ≡ min (length buf.old) (length self.old) }
        ensures front { take result buf.new ≡ take result self.old }
        ensures rest { self.new ≡ drop result self.old }
    {
        let left = &self.bytes.as_slice()[self.taken..];
        let count = buf.len().min(left.len());
        buf[..count].copy_from_slice(&left[..count]);
        self.taken += count;
        count
    }
}

/// A host whose inputs and outputs lie in memory. Its calls fail by the schedules that it has, and
/// its writes for want of memory.
#[derive(Debug, Drop)]
pub struct MemHost {
    setup: Input,
    stations: Input,
    targets: Input,
    capture: Input,
    journal: Input,
    output: Input,
    journal_written: Bytes,
    out_written: Bytes,
    reads: Option<Schedule>,
    writes: Option<Schedule>,
}

impl Model for MemHost {
    ghost use Rattle.plum_host.specs.Memory.{MemHostView};

    ghost Value = { MemHostView };

    ghost view = { λ h. record {
      setup = h.setup;
      stations = h.stations;
      targets = h.targets;
      capture = h.capture;
      journal = h.journal;
      output = h.output;
      journal_written = h.journal_written;
      out_written = h.out_written;
      reads = h.reads;
      writes = h.writes;
    } };
}

impl MemHost {
    ghost use Rattle.std.specs.Prelude.{◌≡◌, ◌≤◌, Some, None, IfOk};
    ghost use Rattle.plum_host.specs.Memory.{held_by, host_of};
    ghost use Rattle.plum_host.specs.Schedule.{schedule_of};

    /// A host of these files, with empty outputs.
    fn new(
        alloc: Global,
        files: MemFiles,
        reads: Option<Schedule>,
        writes: Option<Schedule>,
    ) -> Result<MemHost, NoMemory>
        ensures { IfOk result (λ h. h ≡ host_of files reads writes) }
    {
        Ok(MemHost {
            setup: Input::new(files.setup),
            stations: Input::new(files.stations),
            targets: Input::new(files.targets),
            capture: Input::new(files.capture),
            journal: Input::new(files.journal),
            output: Input::new(files.output),
            journal_written: Bytes::new(alloc)?,
            out_written: Bytes::new(alloc)?,
            reads,
            writes,
        })
    }

    /// A host of these files, with empty outputs, that never fails.
    pub fn sound(alloc: Global, files: MemFiles) -> Result<MemHost, NoMemory>
        ensures { IfOk result (λ h. h ≡ host_of files None None) }
    {
        MemHost::new(alloc, files, None, None)
    }

    /// A host of these files, with empty outputs, that moves at most `step` bytes a call. The calls
    /// of the listed numbers fail, reads and writes counted apart, each from 1.
    pub fn failing(
        alloc: Global,
        files: MemFiles,
        step: u32,
        bad_reads: Vec<u32>,
        bad_writes: Vec<u32>,
    ) -> Result<MemHost, NoMemory>
        requires { 1 ≤ step }
        ensures { IfOk result (λ h. h ≡ host_of files
            (Some (schedule_of step bad_reads.items)) (Some (schedule_of step bad_writes.items))) }
    {
        let reads = Schedule::new(step, bad_reads);
        let writes = Schedule::new(step, bad_writes);
        MemHost::new(alloc, files, Some(reads), Some(writes))
    }

    /// What an output holds.
    pub fn held(&self, to: To) -> &[u8]
        ensures { result.now ≡ held_by self.now to }
    {
        match to {
            To::Out => self.out_written.as_slice(),
            To::Journal => self.journal_written.as_slice(),
        }
    }
}

impl Host for MemHost {
    ghost use Rattle.std.specs.Prelude.{◌≡◌, ◌↔◌, ◌<◌, ◌≤◌, ◌⊎◌, min, [], length, take};
    ghost use Rattle.std.specs.Prelude.{IsTrue, IsErr, IfOk, IfSome, OnOk, OnErr, IsErrOf};
    ghost use Rattle.plum_host.specs.Faults.{HasRisen};
    ghost use Rattle.plum_host.specs.Frames.{OnlyReads, OnlyWrites};
    ghost use Rattle.plum_host.specs.Memory.{told_by, left_of};
    ghost use Rattle.plum_host.specs.Schedule.{next_fails, most_moved, one_call_more};
    ghost use Rattle.plum_host.specs.Told.{Takes, Appends};

    ghost told = { told_by };

    /// Fails where its schedule of reads says so, and else moves as many bytes as the schedule, the
    /// buffer and the input allow.
    fn read(&mut self, file: In, buf: &mut [u8]) -> Result<usize, Failed>
        // What a host promises.
        ensures count { IfOk result (λ n. n ≤ length buf.old) }
        ensures taken { IfOk result (λ n. Takes ((told_by self.old).left file)
            ((told_by self.new).left file) n buf.new) }
        ensures ended { result ≡ Ok 0 → 0 < length buf.old
            → IfSome ((told_by self.old).left file) (λ bytes. bytes ≡ []) }
        ensures failed { OnErr result
            ((told_by self.new).left file ≡ (told_by self.old).left file) }
        ensures fault { OnErr result
            (HasRisen (told_by self.old).read_faults (told_by self.new).read_faults) }
        ensures no_fault { OnOk result
            ((told_by self.new).read_faults ≡ (told_by self.old).read_faults) }
        ensures frame { OnlyReads file (told_by self.old) (told_by self.new) }

        // What its schedule says of this call, and of no other.
        ensures fails { IsErr result ↔ IsTrue (next_fails self.old.reads) }
        ensures moved { IfOk result (λ n. n ≡ min (most_moved self.old.reads (length buf.old))
            (length (left_of self.old file))) }
        ensures reads { self.new.reads ≡ one_call_more self.old.reads }
        ensures writes { self.new.writes ≡ self.old.writes }
    {
        let most = next_call(&mut self.reads, buf.len())?;
        let buf = &mut buf[..most];
        Ok(match file {
            In::Setup => self.setup.take(buf),
            In::Stations => self.stations.take(buf),
            In::Targets => self.targets.take(buf),
            In::Capture => self.capture.take(buf),
            In::Journal => self.journal.take(buf),
            In::Output => self.output.take(buf),
        })
    }

    /// Fails where its schedule of writes says so, and else appends as many bytes as the schedule
    /// allows, where there is memory for them.
    fn write(&mut self, file: To, bytes: &[u8]) -> Result<usize, WriteRefusal>
        // What a host promises.
        ensures count { IfOk result (λ n. n ≤ length bytes.now) }
        ensures appended { IfOk result (λ n. Appends ((told_by self.old).held file)
            ((told_by self.new).held file) (take n bytes.now)) }
        ensures refused { OnErr result
            ((told_by self.new).held file ≡ (told_by self.old).held file) }
        ensures failed { IsErrOf result WriteRefusal.Failed
            → HasRisen (told_by self.old).write_faults (told_by self.new).write_faults }
        ensures nothing { result ≡ Ok 0 → 0 < length bytes.now
            → HasRisen (told_by self.old).write_faults (told_by self.new).write_faults }
        ensures no_memory { IsErrOf result WriteRefusal.NoMemory
            → (told_by self.new).write_faults ≡ (told_by self.old).write_faults }
        ensures no_fault { IfOk result (λ n. (0 < n) ⊎ (length bytes.now ≡ 0)
            → (told_by self.new).write_faults ≡ (told_by self.old).write_faults) }
        ensures frame { OnlyWrites file (told_by self.old) (told_by self.new) }

        // What its schedule says of this call, and of no other.
        ensures fails { IsErrOf result WriteRefusal.Failed ↔ IsTrue (next_fails self.old.writes) }
        ensures moved { IfOk result (λ n. n ≡ most_moved self.old.writes (length bytes.now)) }
        ensures reads { self.new.reads ≡ self.old.reads }
        ensures writes { self.new.writes ≡ one_call_more self.old.writes }
    {
        let Ok(most) = next_call(&mut self.writes, bytes.len()) else {
            return Err(WriteRefusal::Failed);
        };
        let piece = &bytes[..most];
        let appended = match file {
            To::Out => self.out_written.extend(piece),
            To::Journal => self.journal_written.extend(piece),
        };
        match appended {
            Ok(()) => Ok(most),
            Err(NoMemory) => Err(WriteRefusal::NoMemory),
        }
    }
}
