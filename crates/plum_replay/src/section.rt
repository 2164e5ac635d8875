//! What the output tells at a mark, and in the end.

ghost use Rattle.std.specs.Prelude.{◌≡◌, ◌<◌, ◌++◌, ◌∷◌, List, [], map, length, All, OnOk};
ghost use Rattle.std.specs.List.{flat_map};
ghost use Rattle.plum_base.specs.declared.sites.TargetSite.{TargetSite};
ghost use Rattle.plum_base.specs.Sites.{areas_of, targets_of};
ghost use Rattle.plum_text.specs.Lines.{out_line};
ghost use Rattle.plum_text.specs.Texts.{answer_line, answer_lines, area_lines, areas_lines};
ghost use Rattle.plum_text.specs.Texts.{alert_lines, mark_line, refused_lines, end_lines};
ghost use Rattle.plum_base.specs.Sites.{AreNumbersOf};
ghost use Rattle.plum_replay.specs.Areas.{AreByArea};
ghost use Rattle.plum_replay.specs.Parts.{section_text};
ghost use Rattle.plum_replay.specs.Replayed.{counts_in_all};

use crate::totals::Totals;
use plum_base::{
    Alert, AreaNo, Bytes, Counts, Name, NoMemory, Reading, RefusedBody, Sites, TargetNo,
    TargetSite, Tenths,
};
use plum_scale::class_of;
use plum_text::{OutLine, write_out};
use std::marker::Model;

/// What the output tells at a mark.
#[derive(Drop)]
pub struct Section {
    pub counts: Counts,
    /// In the order of the records.
    pub refused: Vec<RefusedBody>,
    /// One for each area.
    pub readings: Vec<Reading>,
    /// One or none for each area.
    pub alerts: Vec<Option<Alert>>,
}

impl Model for Section {
    ghost use Rattle.plum_text.specs.Texts.{Section};

    ghost Value = { Section };

    ghost view = { λ s. record {
      counts = s.counts;
      refused = s.refused.items;
      readings = s.readings.items;
      alerts = s.alerts.items;
    } };
}

/// The counts of segment `m`, at its mark.
fn mark_line(m: u32, counts: &Counts) -> OutLine
    ensures { result ≡ mark_line m counts.now }
{
    OutLine::Mark {
        m,
        bodies: counts.bodies,
        kept: counts.kept,
        repeats: counts.repeats,
        refused: counts.refused,
    }
}

/// A line for each refused body.
fn put_refused(out: &mut Bytes, refused: &[RefusedBody]) -> Result<(), NoMemory>
    ensures { OnOk result (out.new
        ≡ out.old ++ flat_map out_line (refused_lines refused.now)) }
{
    for body in refused {
        let line = OutLine::Refused {
            number: body.number,
            fault: body.fault,
        };
        write_out(out, &line)?;
    }
    Ok(())
}

/// The line of an answer, with the class of its value.
fn answer_line(m: u32, target: &TargetSite, value: Option<Tenths>) -> OutLine
    ensures { result ≡ answer_line m target.now value }
{
    OutLine::Answer {
        m,
        target: target.name.copy(),
        value,
        class: value.map(|t| class_of(t)),
    }
}

/// A line for each of these targets, in order. They are numbered as in `sites`, all targets.
fn put_answers(
    out: &mut Bytes,
    m: u32,
    sites: &[TargetSite],
    targets: &[TargetNo],
    answers: &[Option<Tenths>],
) -> Result<(), NoMemory>
    requires exist { All (λ t. t.0 < length sites.now) targets.now }
    ensures { (those : List TargetSite) → AreNumbersOf sites.now targets.now those
        → OnOk result (out.new ≡ out.old ++ flat_map out_line (answer_lines m those answers.now)) }
{
    for (target, answer) in targets.iter().zip(answers) {
        let site = &sites[target.0 as usize];
        write_out(out, &answer_line(m, site, *answer))?;
    }
    Ok(())
}

/// The line of an alert, where there is one.
fn put_alert(out: &mut Bytes, m: u32, area: &Name, alert: Option<Alert>) -> Result<(), NoMemory>
    ensures { OnOk result (out.new
        ≡ out.old ++ flat_map out_line (alert_lines m area.now alert)) }
{
    if let Some(alert) = alert {
        let line = OutLine::Alert {
            m,
            area: area.copy(),
            alert,
        };
        write_out(out, &line)?;
    }
    Ok(())
}

/// The reading of an area, its answers, and its alert. Its targets are numbered as in `sites`, all
/// targets.
fn put_area(
    out: &mut Bytes,
    m: u32,
    area: &Name,
    sites: &[TargetSite],
    targets: &[TargetNo],
    reading: &Reading,
    alert: Option<Alert>,
) -> Result<(), NoMemory>
    requires targets { AreNumbersOf sites.now targets.now (targets_of area.now sites.now) }
    ensures { OnOk result (out.new ≡ out.old
        ++ flat_map out_line (area_lines sites.now m area.now reading.now alert)) }
{
    let line = OutLine::Reading {
        m,
        area: area.copy(),
        front: reading.front,
    };
    write_out(out, &line)?;
    put_answers(out, m, sites, targets, reading.answers.as_slice())?;
    put_alert(out, m, area, alert)
}

/// What is told of each area, in order.
fn put_areas(
    out: &mut Bytes,
    sites: &Sites,
    by_area: &[Vec<TargetNo>],
    m: u32,
    readings: &[Reading],
    alerts: &[Option<Alert>],
) -> Result<(), NoMemory>
    requires by_area { AreByArea sites.now.targets by_area.now }
    requires readings { length readings.now ≡ length (areas_of sites.now.targets) }
    requires alerts { length alerts.now ≡ length (areas_of sites.now.targets) }
    ensures { OnOk result (out.new ≡ out.old
        ++ flat_map out_line (areas_lines sites.now.targets m (areas_of sites.now.targets)
        readings.now alerts.now)) }
{
    for a in 0..sites.areas() {
        let area = sites.area_name(AreaNo(a));
        let i = a as usize;
        let targets = by_area[i].as_slice();
        put_area(
            out,
            m,
            &area,
            sites.targets(),
            targets,
            &readings[i],
            alerts[i],
        )?;
    }
    Ok(())
}

/// Appends the section of mark `m`.
pub fn put_section(
    out: &mut Bytes,
    sites: &Sites,
    by_area: &[Vec<TargetNo>],
    m: u32,
    section: &Section,
) -> Result<(), NoMemory>
    requires by_area { AreByArea sites.now.targets by_area.now }
    requires readings { length section.now.readings ≡ length (areas_of sites.now.targets) }
    requires alerts { length section.now.alerts ≡ length (areas_of sites.now.targets) }
    ensures { OnOk result (out.new
        ≡ out.old ++ section_text sites.now.targets m section.now) }
{
    write_out(out, &mark_line(m, &section.counts))?;
    put_refused(out, section.refused.as_slice())?;
    let (readings, alerts) = (section.readings.as_slice(), section.alerts.as_slice());
    put_areas(out, sites, by_area, m, readings, alerts)
}

/// Appends what the output tells in the end: the length of the tail, and the totals.
pub fn put_end(out: &mut Bytes, totals: &Totals) -> Result<(), NoMemory>
    ensures { OnOk result (out.new ≡ out.old ++ flat_map out_line
        (end_lines totals.now.tail totals.now.segments (counts_in_all totals.now))) }
{
    write_out(out, &OutLine::Tail { bytes: totals.tail })?;
    let line = OutLine::Totals {
        segments: totals.segments,
        bodies: totals.bodies,
        kept: totals.kept,
        repeats: totals.repeats,
        refused: totals.refused,
    };
    write_out(out, &line)
}
