//! The host over real files: each input is read from the file of its own path, in pieces and among
//! reads of the others.

use plum_base::NoMemory;
use plum_host::{Failed, Host, In, PathText, Paths, StdHost};
use std::alloc::Global;
use std::env::Env;
use std::process::Abort;
use std::test::Fail;
use std::{env, fs, process};

/// Whether a read into a buffer of three bytes gives these.
fn gives<H: Host>(host: &mut H, file: In, want: &str) -> bool {
    let mut buf = [0; 3];
    match host.read(file, &mut buf) {
        Ok(n) => &buf[..n] == want.as_bytes(),
        Err(Failed) => false,
    }
}

/// Reads each input, which is its own name.
fn expect_names<H: Host>(rt: &impl Abort, host: &mut H) {
    let reads = [
        (In::Capture, "cap"),
        (In::Capture, "tur"),
        (In::Capture, "e"),
        (In::Capture, ""),
        (In::Setup, "set"),
        (In::Stations, "sta"),
        (In::Targets, "tar"),
        (In::Journal, "jou"),
        (In::Output, "out"),
        (In::Setup, "up"),
        (In::Setup, ""),
        (In::Capture, ""),
    ];
    for (file, want) in reads.iter() {
        assert!(rt; gives(host, *file, *want), "{file:?} gives {want:?}");
    }
}

/// The start of paths that no other process has.
fn own_paths<R: Env + AllocGlobal>(rt: &R, process: u32) -> Result<String, Fail> {
    let folder = env::temp_dir(rt)?;
    Ok(format!(in rt.alloc(); "{}/plum_trials_{process}", folder.as_str())?)
}

/// The path of an input behind a start that the paths of all inputs share.
fn named(alloc: Global, start: &str, name: &str) -> Result<PathText, NoMemory> {
    let path = format!(in alloc; "{start}_{name}")?;
    PathText::new(alloc, path.as_str())
}

fn named_paths(alloc: Global, start: &str) -> Result<Paths, NoMemory> {
    Ok(Paths {
        setup: named(alloc, start, "setup")?,
        stations: named(alloc, start, "stations")?,
        targets: named(alloc, start, "targets")?,
        capture: named(alloc, start, "capture")?,
        journal: named(alloc, start, "journal")?,
        output: named(alloc, start, "output")?,
    })
}

#[test]
fn real_inputs(rt: HostRuntime) -> Result<(), Fail> {
    let alloc = rt.alloc();
    let start = own_paths(&rt, process::id(rt.process()))?;
    let inputs = [
        "setup", "stations", "targets", "capture", "journal", "output",
    ];
    for name in inputs {
        fs::write(&rt, named(alloc, start.as_str(), name)?.as_str(), name)?;
    }
    expect_names(
        &rt,
        &mut StdHost::new(&rt, named_paths(alloc, start.as_str())?),
    );
    for name in inputs {
        fs::remove_file(&rt, named(alloc, start.as_str(), name)?.as_str())?;
    }
    Ok(())
}
