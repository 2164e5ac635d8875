//! The bytes of each line.

ghost use Rattle.std.specs.Prelude.{◌≡◌, ◌≤◌, length, map, decimal};
ghost use Rattle.plum_text.specs.Fields.{line, run_text};
ghost use Rattle.plum_text.specs.Lines.{journal_line, out_line, plain_line};

use crate::lines::{JournalLine, OutLine, PlainLine};
use crate::spell::{Field, LONGEST_KIND, Spelled, spell};
use plum_base::{Alert, Name, PacketFault};
use plum_scale::class_text;

fn number(n: u32) -> Field<'static>
    ensures { result ≡ Field.Number n }
{
    Field::Number(u64::from(n))
}

/// The run letter.
fn run(fresh: bool) -> &'static [u8]
    ensures { result.now ≡ run_text fresh }
{
    if fresh { b"F" } else { b"C" }
}

/// The bytes of a line of the journal.
pub fn journal_bytes(line: &JournalLine) -> Spelled
    ensures { result.items ≡ journal_line line.now }
{
    let list = [
        number(line.n),
        number(line.segment),
        number(u32::from(line.station)),
        number(u32::from(line.key.boot)),
        number(line.key.number),
        Field::Text(run(line.fresh)),
        Field::Value(line.value),
    ];
    spell(b"E", &list)
}

/// `M m bodies kept repeats refused` and `Z segments bodies kept repeats refused`
fn counts_bytes(kind: &[u8], counts: [u32; 5]) -> Spelled
    requires { length kind.now ≤ LONGEST_KIND }
    ensures { result.items ≡ line kind.now (map decimal counts) }
{
    spell(kind, &counts.map(number))
}

/// `X record fault`
fn refused_bytes(n: u32, fault: PacketFault) -> Spelled
    ensures { result.items ≡ out_line (OutLine.Refused n fault) }
{
    let n = number(n);
    match fault {
        PacketFault::Short => spell(b"X", &[n, Field::Text(b"P1")]),
        PacketFault::Magic => spell(b"X", &[n, Field::Text(b"P2")]),
        PacketFault::Version(version) => {
            spell(b"X", &[n, Field::Text(b"P3"), number(u32::from(version))])
        }
        PacketFault::Flags(flags) => {
            spell(b"X", &[n, Field::Text(b"P4"), number(u32::from(flags))])
        }
        PacketFault::Station(code) => {
            spell(b"X", &[n, Field::Text(b"P5"), number(u32::from(code))])
        }
        PacketFault::Count(count) => {
            spell(b"X", &[n, Field::Text(b"P6"), number(u32::from(count))])
        }
        PacketFault::Length { expected, found } => {
            let list = [n, Field::Text(b"P7"), number(expected), number(found)];
            spell(b"X", &list)
        }
    }
}

/// `A m area raise class`, `A m area upgrade class` or `A m area cancel`
fn alert_bytes(m: u32, area: &Name, alert: Alert) -> Spelled
    ensures { result.items ≡ out_line (OutLine.Alert m area.now alert) }
{
    let m = number(m);
    let area = Field::Text(area.as_slice());
    match alert {
        Alert::Raise(class) => {
            spell(
                b"A",
                &[m, area, Field::Text(b"raise"), Field::Class(Some(class))],
            )
        }
        Alert::Upgrade(class) => {
            spell(
                b"A",
                &[m, area, Field::Text(b"upgrade"), Field::Class(Some(class))],
            )
        }
        Alert::Cancel => spell(b"A", &[m, area, Field::Text(b"cancel")]),
    }
}

/// The bytes of a line of the output.
pub fn out_bytes(line: &OutLine) -> Spelled
    ensures { result.items ≡ out_line line.now }
{
    match line {
        OutLine::Mark {
            m,
            bodies,
            kept,
            repeats,
            refused,
        } => counts_bytes(b"M", [*m, *bodies, *kept, *repeats, *refused]),
        OutLine::Refused { number, fault } => refused_bytes(*number, *fault),
        OutLine::Reading { m, area, front } => {
            let list = [
                number(*m),
                Field::Text(area.as_slice()),
                Field::Number(*front),
            ];
            spell(b"R", &list)
        }
        OutLine::Answer {
            m,
            target,
            value,
            class,
        } => {
            let list = [
                number(*m),
                Field::Text(target.as_slice()),
                Field::Value(*value),
                Field::Class(*class),
            ];
            spell(b"P", &list)
        }
        OutLine::Alert { m, area, alert } => alert_bytes(*m, area, *alert),
        OutLine::Tail { bytes } => spell(b"T", &[number(*bytes)]),
        OutLine::Totals {
            segments,
            bodies,
            kept,
            repeats,
            refused,
        } => counts_bytes(b"Z", [*segments, *bodies, *kept, *repeats, *refused]),
    }
}

/// The bytes of a plain line.
pub fn plain_bytes(line: &PlainLine) -> Spelled
    ensures { result.items ≡ plain_line line.now }
{
    match line {
        PlainLine::Value { key, fresh, value } => {
            let list = [
                number(u32::from(key.boot)),
                number(key.number),
                Field::Text(run(*fresh)),
                Field::Value(*value),
            ];
            spell(b"V", &list)
        }
        PlainLine::Counts { kept, repeats } => spell(b"Y", &[number(*kept), number(*repeats)]),
        PlainLine::Drill {
            seed,
            stations,
            seconds,
        } => {
            let list = [
                Field::Number(*seed),
                number(u32::from(*stations)),
                number(u32::from(*seconds)),
            ];
            spell(b"drill", &list)
        }
    }
}
