//! The top calls.

ghost use Rattle.std.specs.Prelude.{◌≡◌, ◌↔◌, map, string_bytes, None, Some, IfSome, IfOk, IfErr};
ghost use Rattle.std.specs.Prelude.{MatchOption, MatchResult, is_some, true};
ghost use Rattle.plum.specs.Asked.{job_in};
ghost use Rattle.plum.specs.Causes.{HasCause, LeavesUnused};
ghost use Rattle.plum.specs.Ended.{AppendsEnd, DoesJob, HasEnded};
ghost use Rattle.plum.specs.Files.{TellsLawfulFiles};
ghost use Rattle.plum.specs.Job.{HasSize, IsPlain, job_of, plain_job_of};
ghost use Rattle.plum.specs.Status.{CountsEnd, MeetsNoFault, IsAnswerWithoutFault};
ghost use Rattle.plum.specs.Status.{IsAnswerOverLawfulFiles};

use crate::grammar::{CommandName, command_of};
use crate::job::{Job, read_words};
use crate::status::Status;
use crate::work::{check_files, replay_files, show_drill, show_station};
use plum_base::NoMemory;
use plum_host::Host;
use plum_replay::Gate;
use plum_sites::files_have_one_answer;
use std::alloc::Global;
use std::sync::Wait;
use std::thread::Threads;

/// How the work ended that was done, or was not.
fn status_of(work: Result<(), Status>) -> Status
    ensures { MatchResult work (λ _. result ≡ Status.Done) (λ status. result ≡ status) }
{
    match work {
        Ok(()) => Status::Done,
        Err(status) => status,
    }
}

/// Does the job of a plain command: how it ended.
fn work_plain<H: Host>(alloc: Global, job: Job<'_>, host: &mut H) -> Status
    requires plain { IsPlain (job_in job) }
    ensures ended { HasEnded (job_in job.entry) result (H.told host.old) (H.told host.new) }
    ensures lawful { MeetsNoFault (H.told host.old) (H.told host.new)
        → TellsLawfulFiles (job_in job.entry) (H.told host.old)
        → IsAnswerOverLawfulFiles result }
{
    // For the contract: a file that states sites has no fault.
    files_have_one_answer();
    match job {
        Job::Replay { .. } | Job::Drill { .. } => unreachable!(),
        Job::Station { code, .. } => status_of(show_station(alloc, code, host)),
        Job::Check { .. } => status_of(check_files(alloc, host)),
    }
}

/// Does a job: how it ended.
fn work<R: Threads + Wait + Sync, H: Host, G: Gate + Sync>(
    rt: &R,
    alloc: Global,
    job: Job<'_>,
    host: &mut H,
    gate: &G,
) -> Status
    requires size { HasSize (job_in job) }
    ensures ended { HasEnded (job_in job.entry) result (H.told host.old) (H.told host.new) }
    ensures lawful { MeetsNoFault (H.told host.old) (H.told host.new)
        → TellsLawfulFiles (job_in job.entry) (H.told host.old)
        → IsAnswerOverLawfulFiles result }
{
    // For the contract: a file that states sites has no fault.
    files_have_one_answer();
    match job {
        Job::Replay { .. } => status_of(replay_files(rt, alloc, host, gate)),
        Job::Drill {
            seed,
            stations,
            seconds,
        } => status_of(show_drill(rt, alloc, seed, stations, seconds, host, gate)),
        plain => work_plain(alloc, plain, host),
    }
}

/// The plain command that the words ask for, or none where they ask for nothing, or for a command
/// that replays.
fn read_plain<'a>(alloc: Global, words: &'a [String]) -> Result<Option<Job<'a>>, NoMemory>
    ensures job { IfOk result (λ asked. MatchOption asked
        (plain_job_of (map string_bytes words.entry.now) ≡ None)
        (λ job. plain_job_of (map string_bytes words.entry.now) ≡ Some (job_in job))) }
    ensures err { IfErr result (λ _.
        is_some (plain_job_of (map string_bytes words.entry.now)) ≡ true) }
{
    match command_of(words) {
        Some(CommandName::Station | CommandName::Check) => read_words(alloc, words),
        Some(CommandName::Replay | CommandName::Drill) | None => Ok(None),
    }
}

/// Does what the words ask for where that is a plain command: `station` reads the setup and the
/// stations, and writes the values of one of them over the capture; `check` reads the setup, the
/// stations and the targets, and writes what is refused of the capture, and its totals.
///
/// Its clauses are those of `run`, for these commands alone.
pub fn run_plain<H: Host>(alloc: Global, words: &[String], host: &mut H) -> Status
    ensures usage { (result ≡ Status.Usage)
        ↔ (plain_job_of (map string_bytes words.now) ≡ None) }
    ensures idle { result ≡ Status.Usage → host.new ≡ host.old }

    ensures headline { IfSome (plain_job_of (map string_bytes words.now)) (λ job.
        result ≡ Status.Done → DoesJob job (H.told host.old) (H.told host.new)) }
    ensures cause { IfSome (plain_job_of (map string_bytes words.now)) (λ job.
        HasCause job result (H.told host.old) (H.told host.new)) }

    ensures complete { IfSome (plain_job_of (map string_bytes words.now)) (λ job.
        MeetsNoFault (H.told host.old) (H.told host.new) → IsAnswerWithoutFault result) }
    ensures complete_over_lawful_files { IfSome (plain_job_of (map string_bytes words.now)) (λ job.
        MeetsNoFault (H.told host.old) (H.told host.new) → TellsLawfulFiles job (H.told host.old)
        → IsAnswerOverLawfulFiles result) }

    ensures counts { CountsEnd result (H.told host.old) (H.told host.new) }
    ensures outputs { IfSome (plain_job_of (map string_bytes words.now)) (λ job.
        AppendsEnd job result (H.told host.old) (H.told host.new)) }
    ensures unused { IfSome (plain_job_of (map string_bytes words.now)) (λ job.
        LeavesUnused job (H.told host.old) (H.told host.new)) }
{
    match read_plain(alloc, words) {
        Ok(Some(job)) => work_plain(alloc, job, host),
        Ok(None) => Status::Usage,
        Err(NoMemory) => Status::NoMemory,
    }
}

/// Does what the words ask for: `replay` reads the setup, the stations and the targets, and writes
/// the journal and the predictions of the capture over them; `drill` replays files that it makes
/// itself, and writes a summary; the plain commands as `run_plain`, without threads. The gate is
/// that of the replay.
///
/// What a host does not tell, no clause speaks of.
pub fn run<R: Threads + Wait + Sync, H: Host, G: Gate + Sync>(
    rt: &R,
    alloc: Global,
    words: &[String],
    host: &mut H,
    gate: &G,
) -> Status
    // The words alone decide whether there is work. Without work nothing is read or written.
    ensures usage { (result ≡ Status.Usage) ↔ (job_of (map string_bytes words.now) ≡ None) }
    ensures idle { result ≡ Status.Usage → host.new ≡ host.old }

    // The work done. Of `replay`: over the setup and the sites that the files state, the two texts
    // of one legal transcript are appended, every body is accounted for, the alerts are by the
    // rules, and the capture is read to its end, within the limit. Of the plain commands: the text
    // of the command over the whole capture is appended. Of a drill: its summary is.
    ensures headline { IfSome (job_of (map string_bytes words.now)) (λ job.
        result ≡ Status.Done → DoesJob job (H.told host.old) (H.told host.new)) }

    // The work ends at one input, and the status tells why. The inputs before that one are lawful,
    // and those behind it are not read, where memory is short too. So a fault is told exactly where
    // it is the first in the order of the work, unless memory is short or a read fails before it is
    // met. A drill reads nothing: its work is done, a write fails, or memory is short.
    ensures cause { IfSome (job_of (map string_bytes words.now)) (λ job.
        HasCause job result (H.told host.old) (H.told host.new)) }

    // With lawful words and no fault the work is done, or a file or the capture is refused, or
    // memory is short. With lawful files no file is refused.
    ensures complete { IfSome (job_of (map string_bytes words.now)) (λ job.
        MeetsNoFault (H.told host.old) (H.told host.new) → IsAnswerWithoutFault result) }
    ensures complete_over_lawful_files { IfSome (job_of (map string_bytes words.now)) (λ job.
        MeetsNoFault (H.told host.old) (H.told host.new) → TellsLawfulFiles job (H.told host.old)
        → IsAnswerOverLawfulFiles result) }

    // The one failed read or write that ended the work is counted, and nothing else.
    ensures counts { CountsEnd result (H.told host.old) (H.told host.new) }

    // What stands in the outputs. Of a replay the beginnings of two texts of one transcript, in
    // order, whatever stops it, over the segments that were read. A plain command appends nothing
    // to the journal, and to the output a beginning of its text over the capture; so does a drill,
    // of its summary.
    ensures outputs { IfSome (job_of (map string_bytes words.now)) (λ job.
        AppendsEnd job result (H.told host.old) (H.told host.new)) }

    // An earlier journal and an earlier output are not read, nor what the command does not use.
    ensures unused { IfSome (job_of (map string_bytes words.now)) (λ job.
        LeavesUnused job (H.told host.old) (H.told host.new)) }
{
    match read_words(alloc, words) {
        Ok(Some(job)) => work(rt, alloc, job, host, gate),
        Ok(None) => Status::Usage,
        Err(NoMemory) => Status::NoMemory,
    }
}
