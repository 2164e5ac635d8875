//! What `drill` writes.

ghost use Rattle.std.specs.Prelude.{◌≡◌, ◌++◌, length, IfOk, OnOk};
ghost use Rattle.std.specs.List.{flat_map};
ghost use Rattle.plum_base.specs.Sites.{targets_of};
ghost use Rattle.plum_replay.specs.Replayed.{counts_in_all};
ghost use Rattle.plum_text.specs.Lines.{out_line, plain_line};
ghost use Rattle.plum_text.specs.Texts.{answer_line, answer_lines, totals_line};
ghost use Rattle.plum.specs.DrillFiles.{IsDrillSize};
ghost use Rattle.plum.specs.DrillSummary.{IsDrillSummary, answers_at};
ghost use Rattle.plum.specs.Summarized.{HaveAnswers, last_answers};

use super::drill_host;
use super::setup::drill_setup;
use super::sites::{drill_stations, drill_targets};
use crate::opening::{end_centre, open_centre};
use plum_base::{AreaNo, Bytes, Name, NoMemory, Sites, TargetSite, Tenths};
use plum_core::legal_transcripts;
use plum_packet::bodies_are_counted;
use plum_replay::{Gate, Totals, replay};
use plum_scale::class_of;
use plum_seq::kept_packets;
use plum_snap::Session;
use plum_text::{OutLine, PlainLine, write_out, write_plain};
use std::alloc::Global;
use std::sync::Wait;
use std::thread::Threads;

/// With how many lanes a drill is replayed.
const DRILL_LANES: u16 = 4;

/// The line of an answer at mark `m`, with the class of its value.
fn answer_line(m: u32, target: &TargetSite, value: Option<Tenths>) -> OutLine
    ensures { result ≡ answer_line m target.now value }
{
    OutLine::Answer {
        m,
        target: target.name.copy(),
        value,
        class: value.map(|t| class_of(t)),
    }
}

/// Appends the answers at the targets of an area, in file order. All targets are given.
fn put_area(
    summary: &mut Bytes,
    m: u32,
    targets: &[TargetSite],
    area: &Name,
    answers: &[Option<Tenths>],
) -> Result<(), NoMemory>
    requires { length answers.now ≡ length (targets_of area.now targets.now) }
    ensures { OnOk result (summary.new ≡ summary.old
        ++ flat_map out_line (answer_lines m (targets_of area.now targets.now) answers.now)) }
{
    let mut answered = 0;
    for target in targets {
        if target.area == *area {
            write_out(summary, &answer_line(m, target, answers[answered]))?;
            answered += 1;
        }
    }
    Ok(())
}

/// Appends the answers of the sessions' last readings at mark `m`, area by area.
fn put_answers(
    summary: &mut Bytes,
    m: u32,
    sites: &Sites,
    sessions: &[Session],
) -> Result<(), NoMemory>
    requires { HaveAnswers sites.now sessions.now }
    ensures { OnOk result (summary.new ≡ summary.old
        ++ flat_map out_line (answers_at m sites.now.targets (last_answers sessions.now))) }
{
    for a in 0..sites.areas() {
        let area = sites.area_name(AreaNo(a));
        let answers = sessions[a as usize].last().answers.as_slice();
        put_area(summary, m, sites.targets(), &area, answers)?;
    }
    Ok(())
}

/// The line of the totals.
fn totals_line(totals: &Totals) -> OutLine
    ensures { result ≡ totals_line totals.now.segments (counts_in_all totals.now) }
{
    OutLine::Totals {
        segments: totals.segments,
        bodies: totals.bodies,
        kept: totals.kept,
        repeats: totals.repeats,
        refused: totals.refused,
    }
}

/// The summary of a drill that was replayed: its numbers, its totals, and the answers of the
/// sessions' last readings.
fn summary_of(
    alloc: Global,
    numbers: &PlainLine,
    totals: &Totals,
    sites: &Sites,
    sessions: &[Session],
) -> Result<Bytes, NoMemory>
    requires { HaveAnswers sites.now sessions.now }
    ensures { IfOk result (λ summary. summary ≡ plain_line numbers.now
        ++ out_line (totals_line totals.now.segments (counts_in_all totals.now))
        ++ flat_map out_line
        (answers_at totals.now.segments sites.now.targets (last_answers sessions.now))) }
{
    let mut summary = Bytes::new(alloc)?;
    write_plain(&mut summary, numbers)?;
    write_out(&mut summary, &totals_line(totals))?;
    put_answers(&mut summary, totals.segments, sites, sessions)?;
    Ok(summary)
}

/// Replays a drill by a centre of its own, and tells its summary.
pub fn drill_summary<R: Threads + Wait + Sync, G: Gate + Sync>(
    rt: &R,
    alloc: Global,
    seed: u64,
    stations: u16,
    seconds: u16,
    gate: &G,
) -> Result<Bytes, NoMemory>
    requires { IsDrillSize stations seconds }
    ensures { IfOk result (IsDrillSummary seed stations seconds) }
{
    // For the contract: what is known of keys, of counts and of legal transcripts, and that the
    // thresholds are a table.
    kept_packets();
    bodies_are_counted();
    legal_transcripts();
    let setup = drill_setup(DRILL_LANES);
    setup.levels.thresholds();
    let (listed, targets) = (drill_stations(alloc, stations)?, drill_targets(alloc)?);
    let sites = Sites::new(alloc, listed, targets)?;
    let mut host = drill_host(alloc, seed, stations, seconds, DRILL_LANES)?;
    let mut centre = open_centre(rt, alloc, &sites, &setup)?;
    let replayed = replay(rt, alloc, &sites, &setup, &mut centre, &mut host, gate);
    let sessions = end_centre(rt, centre);
    // The host never fails, and the capture has few records: a fault is want of memory.
    let Ok(totals) = replayed else {
        return Err(NoMemory);
    };
    let numbers = PlainLine::Drill {
        seed,
        stations,
        seconds,
    };
    summary_of(alloc, &numbers, &totals, &sites, sessions.as_slice())
}
