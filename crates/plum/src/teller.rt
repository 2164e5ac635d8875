//! What a plain command tells of a capture, record by record.

ghost use Rattle.std.specs.Prelude.{◌≡◌, ◌<◌, ◌≤◌, ◌+◌, ◌-◌, ◌^◌, ℕ, List, length, IfOk};
ghost use Rattle.plum_base.specs.declared.sites.StationSite.{StationSite};
ghost use Rattle.std.specs.List.{flat_map};
ghost use Rattle.std.specs.Option.{option_to_list};
ghost use Rattle.plum_text.specs.Lines.{plain_line, out_line};
ghost use Rattle.plum.specs.Job.{Job};
ghost use Rattle.plum.specs.Tallied.{bodies_in};
ghost use Rattle.plum.specs.Telling.{counted, IsOver, HasPlaceFor, IsTellerOf, TellsOneMore};
ghost use Rattle.plum.specs.Telling.{TellsEnd};
ghost use Rattle.plum.specs.Watched.{packets_in};
ghost use Rattle.plum.specs.declared.teller.Teller.TheVariants.{Watching, Counting};
ghost use Rattle.plum_packet.specs.Bodies.{IsOfListed};
ghost use Rattle.plum_text.specs.declared.lines.OutLine.TheVariants.{Refused};

use crate::tally::Tally;
use crate::watch::Watch;
use plum_base::{Bytes, NoMemory, RefusedBody};
use plum_packet::Found;
use plum_text::{OutLine, PlainLine, write_out, write_plain};
use std::alloc::Global;

/// A plain command at work.
#[derive(Drop)]
pub enum Teller {
    /// It tells the values of a station.
    Watching(Watch),
    /// It tells the refused bodies, and counts all.
    Counting(Tally),
}

impl Teller {
    /// What is told of the next record.
    pub fn take(&mut self, alloc: Global, found: Found) -> Result<Bytes, NoMemory>
        requires room { counted self.old < 2 ^ 32 - 1 }
        requires listed { HasPlaceFor self.old found }
        ensures told { IfOk result (TellsOneMore self.old self.new found) }
        ensures same { (job : Job) (stations : List StationSite)
            → IsTellerOf self.old job stations → IsTellerOf self.new job stations }
        ensures over { (stations : ℕ) → IsOver self.old stations → IsOver self.new stations }
        ensures count { counted self.new ≤ counted self.old + 1 }
    {
        match self {
            Teller::Watching(watch) => watch_record(alloc, watch, found),
            Teller::Counting(tally) => count_record(alloc, tally, found),
        }
    }

    /// What is told at the end of a capture of so many segments, and a tail of this length.
    pub fn end(&self, alloc: Global, segments: u32, tail: u32) -> Result<Bytes, NoMemory>
        requires few { counted self.now < 2 ^ 32 }
        ensures { IfOk result (TellsEnd self.now segments tail) }
    {
        match self {
            Teller::Watching(watch) => watch_end(alloc, watch),
            Teller::Counting(tally) => count_end(alloc, tally, segments, tail),
        }
    }
}

/// The line of a kept packet, where there is one.
fn text_of(alloc: Global, line: Option<PlainLine>) -> Result<Bytes, NoMemory>
    ensures { IfOk result (λ told. told ≡ flat_map plain_line (option_to_list line)) }
{
    let mut told = Bytes::new(alloc)?;
    match line {
        Some(line) => write_plain(&mut told, &line)?,
        None => {}
    }
    Ok(told)
}

/// The line of a refused body.
fn refused_text(alloc: Global, refused: &RefusedBody) -> Result<Bytes, NoMemory>
    ensures { IfOk result (λ told.
        told ≡ out_line (Refused refused.now.number refused.now.fault)) }
{
    let mut told = Bytes::new(alloc)?;
    write_out(&mut told, &refused_line(refused))?;
    Ok(told)
}

/// The line of a packet that is of the watched station and kept, or nothing.
fn watch_record(alloc: Global, watch: &mut Watch, found: Found) -> Result<Bytes, NoMemory>
    requires room { packets_in watch.old < 2 ^ 32 - 1 }
    ensures told { IfOk result
        (TellsOneMore (Watching watch.old) (Watching watch.new) found) }
    ensures number { watch.new.number ≡ watch.old.number }
    ensures count { packets_in watch.new ≤ packets_in watch.old + 1 }
{
    match found {
        Found::Packet(packet) => text_of(alloc, watch.take(packet)),
        Found::Mark => Bytes::new(alloc),
        Found::Refused(_) => Bytes::new(alloc),
    }
}

/// The line of a refused body, or nothing.
fn count_record(alloc: Global, tally: &mut Tally, found: Found) -> Result<Bytes, NoMemory>
    requires room { bodies_in tally.old < 2 ^ 32 - 1 }
    requires listed { IsOfListed (length tally.old.keys.items) found }
    ensures told { IfOk result (TellsOneMore (Counting tally.old) (Counting tally.new) found) }
    ensures size { length tally.new.keys.items ≡ length tally.old.keys.items }
    ensures count { bodies_in tally.new ≤ bodies_in tally.old + 1 }
{
    match found {
        Found::Mark => Bytes::new(alloc),
        Found::Packet(packet) => {
            tally.take(&packet);
            Bytes::new(alloc)
        }
        Found::Refused(refused) => {
            tally.refuse();
            refused_text(alloc, &refused)
        }
    }
}

/// How many packets of the station were kept, and how many repeats.
fn watch_end(alloc: Global, watch: &Watch) -> Result<Bytes, NoMemory>
    ensures { IfOk result (λ told. (count tail : ℕ)
        → TellsEnd (Watching watch.now) count tail told) }
{
    let mut told = Bytes::new(alloc)?;
    write_plain(&mut told, &watch.counts_line())?;
    Ok(told)
}

/// The length of the tail, and the totals.
fn count_end(alloc: Global, tally: &Tally, segments: u32, tail: u32) -> Result<Bytes, NoMemory>
    requires few { bodies_in tally.now < 2 ^ 32 }
    ensures { IfOk result (TellsEnd (Counting tally.now) segments tail) }
{
    let mut told = Bytes::new(alloc)?;
    write_out(&mut told, &OutLine::Tail { bytes: tail })?;
    write_out(&mut told, &tally.totals_line(segments))?;
    Ok(told)
}

/// The fields of the line of a refused body.
fn refused_line(refused: &RefusedBody) -> OutLine
    ensures { result ≡ Refused refused.now.number refused.now.fault }
{
    OutLine::Refused {
        number: refused.number,
        fault: refused.fault,
    }
}
