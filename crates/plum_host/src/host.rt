//! What a host is.

ghost use Rattle.std.specs.Prelude.{◌≡◌, ◌<◌, ◌≤◌, ◌⊎◌, [], length, take, IfOk, IfSome, OnOk};
ghost use Rattle.std.specs.Prelude.{OnErr, IsErrOf};
ghost use Rattle.plum_host.specs.Faults.{HasRisen};
ghost use Rattle.plum_host.specs.Frames.{OnlyReads, OnlyWrites};
ghost use Rattle.plum_host.specs.Told.{HostView, Takes, Appends};

/// The inputs.
#[derive(Clone, Copy, Debug, PartialEq, Eq)]
pub enum In {
    Setup,
    Stations,
    Targets,
    Capture,
    Journal,
    Output,
}

/// The outputs: standard output, and the journal file.
#[derive(Clone, Copy, Debug, PartialEq, Eq)]
pub enum To {
    Out,
    Journal,
}

/// A read failed.
#[derive(Clone, Copy, Debug, PartialEq, Eq)]
pub struct Failed;

/// Why a write was refused.
#[derive(Clone, Copy, Debug, PartialEq, Eq)]
pub enum WriteRefusal {
    Failed,
    NoMemory,
}

/// Where the inputs come from and the outputs go.
pub trait Host {
    /// What it tells of them, and of its faults.
    ghost told: { Self → HostView };

    /// Moves the next bytes of an input to the start of the buffer, and tells how many: 0 for a
    /// buffer that is not empty is the end of that input.
    fn read(&mut self, file: In, buf: &mut [u8]) -> Result<usize, Failed>
        ensures count { IfOk result (λ n. n ≤ length buf.old) }
        ensures taken { IfOk result (λ n.
            Takes ((told self.old).left file) ((told self.new).left file) n buf.new) }
        ensures ended { result ≡ Ok 0 → 0 < length buf.old
            → IfSome ((told self.old).left file) (λ bytes. bytes ≡ []) }

        // A read that failed took nothing, and is one fault more. No other read is a fault.
        ensures failed { OnErr result ((told self.new).left file ≡ (told self.old).left file) }
        ensures fault { OnErr result
            (HasRisen (told self.old).read_faults (told self.new).read_faults) }
        ensures no_fault { OnOk result
            ((told self.new).read_faults ≡ (told self.old).read_faults) }

        ensures frame { OnlyReads file (told self.old) (told self.new) };

    /// Appends a front of the piece to an output, and tells how long it is.
    fn write(&mut self, file: To, bytes: &[u8]) -> Result<usize, WriteRefusal>
        ensures count { IfOk result (λ n. n ≤ length bytes.now) }
        ensures appended { IfOk result (λ n.
            Appends ((told self.old).held file) ((told self.new).held file) (take n bytes.now)) }
        ensures refused { OnErr result ((told self.new).held file ≡ (told self.old).held file) }

        // A write that failed, or took nothing of a piece that is not empty, is one fault more.
        // No other write is a fault.
        ensures failed { IsErrOf result WriteRefusal.Failed
            → HasRisen (told self.old).write_faults (told self.new).write_faults }
        ensures nothing { result ≡ Ok 0 → 0 < length bytes.now
            → HasRisen (told self.old).write_faults (told self.new).write_faults }
        ensures no_memory { IsErrOf result WriteRefusal.NoMemory
            → (told self.new).write_faults ≡ (told self.old).write_faults }
        ensures no_fault { IfOk result (λ n. (0 < n) ⊎ (length bytes.now ≡ 0)
            → (told self.new).write_faults ≡ (told self.old).write_faults) }

        ensures frame { OnlyWrites file (told self.old) (told self.new) };
}
