//! What a line tells. Of bytes that are no line, any fields may be answered.

ghost use Rattle.std.specs.Prelude.{◌≡◌, [], ◌∷◌, ℕ, List, Option, Some, map, codes, decimal};
ghost use Rattle.plum_base.specs.declared.numbers.Tenths.{Tenths};
ghost use Rattle.plum_base.specs.declared.packet.PacketFault.{PacketFault};
ghost use Rattle.plum_base.specs.declared.rules.Alert.{Alert};
ghost use Rattle.plum_base.specs.declared.rules.Class.{Class};
ghost use Rattle.plum_text.specs.declared.lines.JournalLine.{JournalLine};
ghost use Rattle.plum_text.specs.declared.lines.OutLine.{OutLine};
ghost use Rattle.plum_text.specs.Fields.{fault_fields, alert_fields, Fits, FitsFault};
ghost use Rattle.plum_text.specs.Lines.{journal_fields, FitsJournal, kind_of, out_fields, FitsOut};
ghost use Rattle.plum_text.specs.Lines.{IsJournalLine, IsOutLine};

use crate::lines::{JournalLine, OutLine};
use crate::read::fields::{
    class_or_none_read, run_read, u8_read, u16_read, u32_read, u64_read, value_read,
};
use crate::read::words::words_of;
use plum_base::{Alert, Key, Name, PacketFault};
use plum_scale::class_read;

/// `E n segment station boot number run value`
fn journal_of_words(words: &[&[u8]]) -> Option<JournalLine>
    ensures { (l : JournalLine) → FitsJournal l
        → map (λ w. w.now) words.now ≡ codes "E" ∷ journal_fields l → result ≡ Some l }
{
    let [b"E", n, segment, station, boot, number, run, value] = words else {
        return None;
    };
    let key = Key {
        boot: u16_read(boot)?,
        number: u32_read(number)?,
    };
    Some(JournalLine {
        n: u32_read(n)?,
        segment: u32_read(segment)?,
        station: u16_read(station)?,
        key,
        fresh: run_read(run)?,
        value: value_read(value)?,
    })
}

/// A fault's name, and what it tells.
fn fault_told(words: &[&[u8]]) -> Option<PacketFault>
    ensures { (f : PacketFault) → FitsFault f → map (λ w. w.now) words.now ≡ fault_fields f
        → result ≡ Some f }
{
    let (name, numbers) = words.split_first()?;
    match (*name, numbers) {
        (b"P1", []) => Some(PacketFault::Short),
        (b"P2", []) => Some(PacketFault::Magic),
        (b"P3", [version]) => Some(PacketFault::Version(u8_read(version)?)),
        (b"P4", [flags]) => Some(PacketFault::Flags(u8_read(flags)?)),
        (b"P5", [code]) => Some(PacketFault::Station(u16_read(code)?)),
        (b"P6", [count]) => Some(PacketFault::Count(u16_read(count)?)),
        (b"P7", [expected, found]) => Some(PacketFault::Length {
            expected: u32_read(expected)?,
            found: u32_read(found)?,
        }),
        _ => None,
    }
}

/// What an alert does, and its class.
fn alert_told(words: &[&[u8]]) -> Option<Alert>
    ensures { (a : Alert) → map (λ w. w.now) words.now ≡ alert_fields a → result ≡ Some a }
{
    match words {
        [name, class] => {
            let class = class_read(class)?;
            match *name {
                b"raise" => Some(Alert::Raise(class)),
                b"upgrade" => Some(Alert::Upgrade(class)),
                _ => None,
            }
        }
        [b"cancel"] => Some(Alert::Cancel),
        _ => None,
    }
}

/// Five numbers.
#[tactic(auto, using(crate::proofs::LineParts::word_at))]
fn counts_told(fields: &[&[u8]]) -> Option<[u32; 5]>
    ensures { (a b c d e : ℕ) → Fits 32 a → Fits 32 b → Fits 32 c → Fits 32 d → Fits 32 e
        → map (λ w. w.now) fields.now
        ≡ decimal a ∷ decimal b ∷ decimal c ∷ decimal d ∷ decimal e ∷ []
        → result ≡ Some (a ∷ b ∷ c ∷ d ∷ e ∷ []) }
{
    let [a, b, c, d, e] = fields else {
        return None;
    };
    Some([
        u32_read(a)?,
        u32_read(b)?,
        u32_read(c)?,
        u32_read(d)?,
        u32_read(e)?,
    ])
}

/// `m bodies kept repeats refused`, behind `M`
fn mark_told(fields: &[&[u8]]) -> Option<OutLine>
    ensures { (m bodies kept repeats refused : ℕ)
        → let l = OutLine.Mark m bodies kept repeats refused in
        FitsOut l → map (λ w. w.now) fields.now ≡ out_fields l → result ≡ Some l }
{
    let [m, bodies, kept, repeats, refused] = counts_told(fields)?;
    Some(OutLine::Mark {
        m,
        bodies,
        kept,
        repeats,
        refused,
    })
}

/// `record fault`, behind `X`
fn refused_told(fields: &[&[u8]]) -> Option<OutLine>
    ensures { (number : ℕ) (fault : PacketFault) → let l = OutLine.Refused number fault in
        FitsOut l → map (λ w. w.now) fields.now ≡ out_fields l → result ≡ Some l }
{
    let [number, fault @ ..] = fields else {
        return None;
    };
    Some(OutLine::Refused {
        number: u32_read(number)?,
        fault: fault_told(fault)?,
    })
}

/// `m area front`, behind `R`
fn reading_told(fields: &[&[u8]]) -> Option<OutLine>
    ensures { (m : ℕ) (area : List ℕ) (front : ℕ) → let l = OutLine.Reading m area front in
        FitsOut l → map (λ w. w.now) fields.now ≡ out_fields l → result ≡ Some l }
{
    let [m, area, front] = fields else {
        return None;
    };
    Some(OutLine::Reading {
        m: u32_read(m)?,
        area: Name::read(area)?,
        front: u64_read(front)?,
    })
}

/// `m target value class`, behind `P`
#[tactic(auto, using(crate::proofs::LineParts::word_at))]
fn answer_told(fields: &[&[u8]]) -> Option<OutLine>
    ensures { (m : ℕ) (target : List ℕ) (value : Option Tenths) (class : Option Class)
        → let l = OutLine.Answer m target value class in
        FitsOut l → map (λ w. w.now) fields.now ≡ out_fields l → result ≡ Some l }
{
    let [m, target, value, class] = fields else {
        return None;
    };
    Some(OutLine::Answer {
        m: u32_read(m)?,
        target: Name::read(target)?,
        value: value_read(value)?,
        class: class_or_none_read(class)?,
    })
}

/// `m area raise class`, `m area upgrade class` or `m area cancel`, behind `A`
fn alert_line_told(fields: &[&[u8]]) -> Option<OutLine>
    ensures { (m : ℕ) (area : List ℕ) (alert : Alert) → let l = OutLine.Alert m area alert in
        FitsOut l → map (λ w. w.now) fields.now ≡ out_fields l → result ≡ Some l }
{
    let [m, area, alert @ ..] = fields else {
        return None;
    };
    Some(OutLine::Alert {
        m: u32_read(m)?,
        area: Name::read(area)?,
        alert: alert_told(alert)?,
    })
}

/// `bytes`, behind `T`
fn tail_told(fields: &[&[u8]]) -> Option<OutLine>
    ensures { (bytes : ℕ) → let l = OutLine.Tail bytes in
        FitsOut l → map (λ w. w.now) fields.now ≡ out_fields l → result ≡ Some l }
{
    let [bytes] = fields else {
        return None;
    };
    Some(OutLine::Tail {
        bytes: u32_read(bytes)?,
    })
}

/// `segments bodies kept repeats refused`, behind `Z`
fn totals_told(fields: &[&[u8]]) -> Option<OutLine>
    ensures { (segments bodies kept repeats refused : ℕ)
        → let l = OutLine.Totals segments bodies kept repeats refused in
        FitsOut l → map (λ w. w.now) fields.now ≡ out_fields l → result ≡ Some l }
{
    let [segments, bodies, kept, repeats, refused] = counts_told(fields)?;
    Some(OutLine::Totals {
        segments,
        bodies,
        kept,
        repeats,
        refused,
    })
}

/// A line of the output, by its letter.
fn out_of_words(words: &[&[u8]]) -> Option<OutLine>
    ensures { (l : OutLine) → FitsOut l → map (λ w. w.now) words.now ≡ kind_of l ∷ out_fields l
        → result ≡ Some l }
{
    let (kind, fields) = words.split_first()?;
    match *kind {
        b"M" => mark_told(fields),
        b"X" => refused_told(fields),
        b"R" => reading_told(fields),
        b"P" => answer_told(fields),
        b"A" => alert_line_told(fields),
        b"T" => tail_told(fields),
        b"Z" => totals_told(fields),
        _ => None,
    }
}

/// The fields of a line of the journal.
pub fn journal_told(bytes: &[u8]) -> Option<JournalLine>
    ensures { (l : JournalLine) → IsJournalLine l bytes.now → result ≡ Some l }
{
    let words = words_of(bytes)?;
    journal_of_words(words.as_slice())
}

/// The fields of a line of the output.
pub fn out_told(bytes: &[u8]) -> Option<OutLine>
    ensures { (l : OutLine) → IsOutLine l bytes.now → result ≡ Some l }
{
    let words = words_of(bytes)?;
    out_of_words(words.as_slice())
}
