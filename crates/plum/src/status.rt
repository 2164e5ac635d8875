//! How a call ended.

ghost use Rattle.std.specs.Prelude.{◌≡◌, ◌++◌, IfOk, OnOk, string_bytes};
ghost use Rattle.plum.specs.Status.{number_of, text_of, input_text, sites_file_text};

use plum_base::{Bytes, NoMemory};
use plum_host::In;
use plum_sites::SiteFault;
use plum_table::SetupFault;
use std::alloc::{AllocError, Global};

/// The two files of sites.
#[derive(Clone, Copy, Debug, PartialEq, Eq)]
pub enum SitesFile {
    Stations,
    Targets,
}

/// What has more than is taken of it.
#[derive(Clone, Copy, Debug, PartialEq, Eq)]
pub enum LimitOf {
    /// The bytes of a file.
    File(In),
    /// The records of the capture.
    Records,
}

/// How `run` ended.
#[derive(Clone, Copy, Debug, PartialEq, Eq)]
pub enum Status {
    /// The job was done, and the capture was read to its end.
    Done,
    /// The words are not of the grammar.
    Usage,
    /// The setup file is at fault.
    Setup(SetupFault),
    /// This file of sites is at fault.
    Sites(SitesFile, SiteFault),
    ReadFault,
    WriteFault,
    /// There is more of it than is taken.
    Limit(LimitOf),
    NoMemory,
}

/// The number with which the program ends.
pub fn status_number(status: &Status) -> u8
    ensures { result ≡ number_of status.now }
{
    match status {
        Status::Done => 0,
        Status::Usage => 2,
        Status::Setup(_) => 3,
        Status::Sites(_, _) => 4,
        Status::ReadFault => 5,
        Status::WriteFault => 6,
        Status::Limit(_) => 7,
        Status::NoMemory => 8,
    }
}

fn input_name(input: In) -> &'static str
    ensures { result.now ≡ input_text input }
{
    match input {
        In::Setup => "setup",
        In::Stations => "stations",
        In::Targets => "targets",
        In::Capture => "capture",
        In::Journal => "journal",
        In::Output => "output",
    }
}

fn sites_file_name(file: SitesFile) -> &'static str
    ensures { result.now ≡ sites_file_text file }
{
    match file {
        SitesFile::Stations => "stations",
        SitesFile::Targets => "targets",
    }
}

fn setup_line(alloc: Global, fault: SetupFault) -> Result<String, AllocError>
    ensures { IfOk result (λ line. string_bytes line ≡ text_of (Status.Setup fault)) }
{
    match fault {
        SetupFault::NotToml => format!(in alloc; "plum: setup S1\n"),
        SetupFault::Missing(key) => format!(in alloc; "plum: setup S2 {key}\n"),
        SetupFault::Kind(key) => format!(in alloc; "plum: setup S3 {key}\n"),
        SetupFault::Range(key) => format!(in alloc; "plum: setup S4 {key}\n"),
        SetupFault::Order(position) => format!(in alloc; "plum: setup S5 {position}\n"),
    }
}

fn sites_line(alloc: Global, file: SitesFile, fault: SiteFault) -> Result<String, AllocError>
    ensures { IfOk result (λ line. string_bytes line ≡ text_of (Status.Sites file fault)) }
{
    let file = sites_file_name(file);
    match fault {
        SiteFault::Header => format!(in alloc; "plum: {file} C1\n"),
        SiteFault::Columns(row) => format!(in alloc; "plum: {file} C2 {row}\n"),
        SiteFault::Number(row) => format!(in alloc; "plum: {file} C3 {row}\n"),
        SiteFault::Range(row) => format!(in alloc; "plum: {file} C4 {row}\n"),
        SiteFault::Twice(row) => format!(in alloc; "plum: {file} C5 {row}\n"),
        SiteFault::TooMany(row) => format!(in alloc; "plum: {file} C6 {row}\n"),
    }
}

fn limit_line(alloc: Global, of_what: LimitOf) -> Result<String, AllocError>
    ensures { IfOk result (λ line. string_bytes line ≡ text_of (Status.Limit of_what)) }
{
    let what = match of_what {
        LimitOf::File(input) => input_name(input),
        LimitOf::Records => "records",
    };
    format!(in alloc; "plum: limit {what}\n")
}

/// Appends the grammar of the words.
fn put_usage(text: &mut Bytes) -> Result<(), NoMemory>
    ensures { OnOk result (text.new ≡ text.old ++ text_of Status.Usage) }
{
    text.extend(b"plum: usage: replay SETUP STATIONS TARGETS CAPTURE JOURNAL; ")?;
    text.extend(b"station SETUP STATIONS CAPTURE CODE; ")?;
    text.extend(b"check SETUP STATIONS TARGETS CAPTURE; ")?;
    text.extend(b"drill SEED STATIONS SECONDS\n")
}

/// One line with its line feed, or nothing for `Done`.
pub fn status_text(alloc: Global, status: &Status) -> Result<Bytes, NoMemory>
    ensures { IfOk result (λ text. text ≡ text_of status.now) }
{
    let mut text = Bytes::new(alloc)?;
    match *status {
        Status::Done => {}
        Status::Usage => put_usage(&mut text)?,
        Status::Setup(fault) => text.extend(setup_line(alloc, fault)?.as_bytes())?,
        Status::Sites(file, fault) => text.extend(sites_line(alloc, file, fault)?.as_bytes())?,
        Status::ReadFault => text.extend(b"plum: read fault\n")?,
        Status::WriteFault => text.extend(b"plum: write fault\n")?,
        Status::Limit(of_what) => text.extend(limit_line(alloc, of_what)?.as_bytes())?,
        Status::NoMemory => text.extend(b"plum: no memory\n")?,
    }
    Ok(text)
}
