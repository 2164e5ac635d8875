//! The host over files and standard output: the trusted edge. It counts its faults and tells no
//! content.

ghost use Rattle.std.specs.Prelude.{◌≡◌, ◌<◌, ◌≤◌, ◌⊎◌, IfOk, OnErr, IsErr, length};
ghost use Rattle.plum_host.specs.Faults.{HasRisen};
ghost use Rattle.plum_host.specs.Told.{counts_alone};

use crate::host::{Failed, Host, In, To, WriteRefusal};
use crate::paths::Paths;
use std::io::{Read, Write};
use std::rt::Files;
use std::{fs, io};

/// A host that opens each file at its first use. The journal file is made and emptied at its first
/// write.
#[derive(Drop)]
pub struct StdHost<'a, R: Files + Print> {
    rt: &'a R,
    paths: Paths,
    setup: Option<R::File>,
    stations: Option<R::File>,
    targets: Option<R::File>,
    capture: Option<R::File>,
    journal: Option<R::File>,
    output: Option<R::File>,
    journal_written: Option<R::File>,
    read_faults: u64,
    write_faults: u64,
}

/// Reads from a file that is opened at its first use.
fn read_file<R: Files>(
    rt: &R,
    path: &str,
    file: &mut Option<R::File>,
    buf: &mut [u8],
) -> io::Result<usize>
    ensures { IfOk result (λ n. n ≤ length buf.old) }
{
    match file {
        Some(open) => open.read(buf),
        None => file.insert(fs::open(rt, path)?).read(buf),
    }
}

/// Writes to a file that is made, or emptied, at its first write.
fn write_file<R: Files>(
    rt: &R,
    path: &str,
    file: &mut Option<R::File>,
    bytes: &[u8],
) -> io::Result<usize>
    ensures { IfOk result (λ n. n ≤ length bytes.now) }
{
    match file {
        Some(open) => open.write(bytes),
        None => file.insert(fs::create(rt, path)?).write(bytes),
    }
}

/// Counts one fault more. At its end the count stands still.
fn count_fault(faults: &mut u64)
    ensures { HasRisen faults.old faults.new }
{
    *faults = faults.saturating_add(1);
}

/// What the host says of a read by the system. An error is a fault, and nothing else.
fn outcome_of_read(read: io::Result<usize>, faults: &mut u64) -> Result<usize, Failed>
    ensures ok { IfOk read (λ n. (result ≡ Ok n) × (faults.new ≡ faults.old)) }
    ensures err { OnErr read (IsErr result × HasRisen faults.old faults.new) }
{
    match read {
        Ok(n) => Ok(n),
        Err(_) => {
            count_fault(faults);
            Err(Failed)
        }
    }
}

/// What it says of a write of `asked` bytes. An error is a fault, and so is taking none of some.
fn outcome_of_write(
    written: io::Result<usize>,
    asked: usize,
    faults: &mut u64,
) -> Result<usize, WriteRefusal>
    ensures ok { IfOk written (λ n. result ≡ Ok n) }
    ensures no_fault { IfOk written (λ n. (0 < n) ⊎ (asked ≡ 0) → faults.new ≡ faults.old) }
    ensures nothing { IfOk written (λ n. n ≡ 0 → 0 < asked → HasRisen faults.old faults.new) }
    ensures err { OnErr written
        ((result ≡ Err WriteRefusal.Failed) × HasRisen faults.old faults.new) }
{
    match written {
        Ok(n) => {
            if n == 0 && asked > 0 {
                count_fault(faults);
            }
            Ok(n)
        }
        Err(_) => {
            count_fault(faults);
            Err(WriteRefusal::Failed)
        }
    }
}

impl<'a, R: Files + Print> StdHost<'a, R> {
    /// A host that has opened nothing.
    pub fn new(rt: &'a R, paths: Paths) -> StdHost<'a, R>
        // A count at its end would vouch for any fault, so both begin at 0.
        ensures read_faults { (⟦<StdHost<'a, R> as Host>⟧.told result).read_faults ≡ 0 }
        ensures write_faults { (⟦<StdHost<'a, R> as Host>⟧.told result).write_faults ≡ 0 }
    {
        StdHost {
            rt,
            paths,
            setup: None,
            stations: None,
            targets: None,
            capture: None,
            journal: None,
            output: None,
            journal_written: None,
            read_faults: 0,
            write_faults: 0,
        }
    }
}

impl<'a, R: Files + Print> Host for StdHost<'a, R> {
    ghost told = { λ h. counts_alone h.read_faults h.write_faults };

    fn read(&mut self, file: In, buf: &mut [u8]) -> Result<usize, Failed> {
        let path = self.paths.path_of(file);
        let read = match file {
            In::Setup => read_file(self.rt, path, &mut self.setup, buf),
            In::Stations => read_file(self.rt, path, &mut self.stations, buf),
            In::Targets => read_file(self.rt, path, &mut self.targets, buf),
            In::Capture => read_file(self.rt, path, &mut self.capture, buf),
            In::Journal => read_file(self.rt, path, &mut self.journal, buf),
            In::Output => read_file(self.rt, path, &mut self.output, buf),
        };
        outcome_of_read(read, &mut self.read_faults)
    }

    fn write(&mut self, file: To, bytes: &[u8]) -> Result<usize, WriteRefusal> {
        let written = match file {
            To::Out => self.rt.write_some(bytes),
            To::Journal => {
                let path = self.paths.path_of(In::Journal);
                write_file(self.rt, path, &mut self.journal_written, bytes)
            }
        };
        outcome_of_write(written, bytes.len(), &mut self.write_faults)
    }
}
