//! plum: an earthquake early warning centre that replays captures.
//!
//! It owns the words, the statuses, the order in which the files are read, the plain commands
//! (`station` and `check`, which replay nothing), and the files and the summary of a drill. It
//! promises `run` and `run_plain`: how each call ends, and what stands in the outputs then; and
//! `drill_host`: which files a drill has. It must not know what a file states, how a replay is
//! done, how a body becomes a packet, which packets are kept, or how a line is spelled.
#![tactic(auto)]

mod drill;
mod files;
mod grammar;
mod job;
mod laws;
mod opening;
mod run;
mod status;
mod tally;
mod teller;
mod telling;
mod watch;
mod words;
mod work;

pub use drill::drill_host;
pub use job::paths_of;
pub use laws::{drills_have_one_summary, plain_commands_have_one_text};
use plum_base::NoMemory;
use plum_host::StdHost;
use plum_replay::OpenGate;
pub use run::{run, run_plain};
pub use status::{LimitOf, SitesFile, Status, status_number, status_text};
use std::env;
use std::io::{ErrorKind, Write};
use std::process::ExitCode;
use std::rt::{Env, Files};
use std::sync::Wait;
use std::thread::Threads;
pub use words::clap_reads_the_grammar;

/// Does what the words of the command line ask for over files and standard output. Words that are
/// no text are not of the grammar.
fn start<R: Env + AllocGlobal + Files + Print + Threads + Wait + Sync>(
    rt: &R,
) -> Result<Status, NoMemory> {
    let alloc = rt.alloc();
    let args = match env::args(rt) {
        Ok(args) => args,
        Err(refusal) if refusal.kind() == ErrorKind::OutOfMemory => return Err(NoMemory),
        Err(_) => return Ok(Status::Usage),
    };
    let mut words = Vec::new(alloc);
    for word in args.skip(1) {
        words.push(word)?;
    }
    let paths = paths_of(alloc, &words)?;
    let mut host = StdHost::new(rt, paths);
    Ok(run(rt, alloc, &words, &mut host, &OpenGate))
}

fn main(rt: HostRuntime) -> ExitCode {
    let Ok(status) = start(&rt) else {
        return ExitCode::from(status_number(&Status::NoMemory));
    };
    if let Ok(text) = status_text(rt.alloc(), &status) {
        // A status line that cannot be printed changes nothing: the number stays.
        let _ = rt.stderr().write_all(text.as_slice());
    }
    ExitCode::from(status_number(&status))
}
