//! The bodies of a capture, counted.

ghost use Rattle.std.specs.Prelude.{◌≡◌, ◌<◌, ◌≤◌, ◌+◌, ◌-◌, ◌^◌, ℕ, List, [], ◌∷◌, ◌++◌, Ok, Err};
ghost use Rattle.std.specs.Prelude.{IfOk, None, length, All};
ghost use Rattle.plum_base.specs.declared.packet.PacketFault.{PacketFault};
ghost use Rattle.plum_base.specs.declared.numbers.Key.{Key};
ghost use Rattle.plum_packet.specs.Segments.{Decoded};
ghost use Rattle.plum_seq.specs.Keys.{is_above_all};
ghost use Rattle.plum_seq.specs.Verdicts.{IsVerdict};
ghost use Rattle.plum_text.specs.Texts.{totals_line};
ghost use Rattle.plum.specs.Plain.{totals_of_bodies};
ghost use Rattle.plum.specs.Tallied.{HasTallied, bodies_in};

use plum_base::{NoMemory, Packet};
use plum_seq::{Seq, Verdict, kept_packets};
use plum_text::OutLine;
use std::alloc::Global;

/// The keys of all stations, and how many packets were kept, how many were repeats, and how many
/// bodies are none.
#[derive(Drop)]
pub struct Tally {
    keys: Vec<Seq>,
    kept: u32,
    repeats: u32,
    refused: u32,
}

/// So many stations' keys, none of which came.
fn no_keys(alloc: Global, count: usize) -> Result<Vec<Seq>, NoMemory>
    ensures count { IfOk result (λ keys. length keys.items ≡ count) }
    ensures none { IfOk result (λ keys. All (λ k. k ≡ None) keys.items) }
{
    let mut keys = Vec::new(alloc);
    for _ in 0..count {
        keys.push(Seq::new())?;
    }
    Ok(keys)
}

/// Whether the verdict is that a packet is kept.
fn is_kept(verdict: Verdict) -> bool
    ensures { (keys : List Key) (key : Key) → IsVerdict keys key verdict
        → is_above_all keys key ≡ result }
{
    match verdict {
        Verdict::Fresh => true,
        Verdict::Continues => true,
        Verdict::Repeat { .. } => false,
    }
}

impl Tally {
    /// A tally over so many stations to which nothing was given.
    pub fn new(alloc: Global, stations: usize) -> Result<Tally, NoMemory>
        ensures start { IfOk result (λ tally. HasTallied tally stations []) }
        ensures none { IfOk result (λ tally. bodies_in tally ≡ 0) }
    {
        Ok(Tally {
            keys: no_keys(alloc, stations)?,
            kept: 0,
            repeats: 0,
            refused: 0,
        })
    }

    /// A packet more came.
    pub fn take(&mut self, packet: &Packet)
        requires listed { packet.now.station.0 < length self.old.keys.items }
        requires room { bodies_in self.old < 2 ^ 32 - 1 }
        ensures takes { (stations number : ℕ) (bodies : List Decoded)
            → HasTallied self.old stations bodies
            → HasTallied self.new stations (bodies ++ (number, Ok packet.now) ∷ []) }
        ensures size { length self.new.keys.items ≡ length self.old.keys.items }
        ensures count { bodies_in self.new ≡ bodies_in self.old + 1 }
    {
        // For the contract: what a packet does to the kept ones.
        kept_packets();
        let verdict = self.keys[packet.station.0 as usize].judge(packet.key);
        if is_kept(verdict) {
            self.kept += 1;
        } else {
            self.repeats += 1;
        }
    }

    /// A body more came that is no packet.
    pub fn refuse(&mut self)
        requires room { bodies_in self.old < 2 ^ 32 - 1 }
        ensures takes { (stations number : ℕ) (fault : PacketFault) (bodies : List Decoded)
            → HasTallied self.old stations bodies
            → HasTallied self.new stations (bodies ++ (number, Err fault) ∷ []) }
        ensures size { length self.new.keys.items ≡ length self.old.keys.items }
        ensures count { bodies_in self.new ≡ bodies_in self.old + 1 }
    {
        self.refused += 1;
    }

    /// The line of the totals of so many segments.
    pub fn totals_line(&self, segments: u32) -> OutLine
        requires few { bodies_in self.now < 2 ^ 32 }
        ensures { (stations : ℕ) (bodies : List Decoded) → HasTallied self.now stations bodies
            → result ≡ totals_line segments (totals_of_bodies bodies) }
    {
        OutLine::Totals {
            segments,
            bodies: self.kept + self.repeats + self.refused,
            kept: self.kept,
            repeats: self.repeats,
            refused: self.refused,
        }
    }
}
