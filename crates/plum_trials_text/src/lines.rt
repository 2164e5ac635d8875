//! Lines at the ends of their fields' ranges, and all bytes that stand next to them.

use plum_base::{Alert, Bytes, Class, Key, Name, PacketFault, Tenths};
use plum_text::{
    JournalLine, OutLine, PlainLine, read_journal, read_out, write_journal, write_out, write_plain,
};
use std::alloc::Global;
use std::process::Abort;
use std::test::Fail;

/// Whether what is read of these bytes is the one line that has them, or none.
fn reads_one_line(alloc: Global, bytes: &[u8]) -> Result<bool, Fail> {
    let mut journal = Bytes::new(alloc)?;
    if let Some(line) = read_journal(bytes) {
        write_journal(&mut journal, &line)?;
    }
    let mut output = Bytes::new(alloc)?;
    if let Some(line) = read_out(bytes) {
        write_out(&mut output, &line)?;
    }
    let is_one = |text: &[u8]| text.is_empty() || text == bytes;
    Ok(is_one(journal.as_slice()) && is_one(output.as_slice()))
}

/// The bytes with what stands at `at` changed in each way, dropped, and doubled.
fn expect_one_line_nearby(rt: &impl Abort, alloc: Global, bytes: &[u8]) -> Result<(), Fail> {
    for at in 0..bytes.len() {
        let mut other = Vec::from_slice(alloc, bytes)?;
        for byte in 0..=u8::MAX {
            other[at] = byte;
            assert!(rt; reads_one_line(alloc, other.as_slice())?);
        }
        let (front, rest) = bytes.split_at(at);
        let mut dropped = Vec::from_slice(alloc, front)?;
        dropped.extend_from_slice(&rest[1..])?;
        assert!(rt; reads_one_line(alloc, dropped.as_slice())?);
        let mut doubled = Vec::from_slice(alloc, &bytes[..=at])?;
        doubled.extend_from_slice(rest)?;
        assert!(rt; reads_one_line(alloc, doubled.as_slice())?);
    }
    Ok(())
}

/// The line is written as these bytes and read back.
fn expect_out(rt: &impl Abort, alloc: Global, line: OutLine, bytes: &[u8]) -> Result<(), Fail> {
    let mut text = Bytes::new(alloc)?;
    write_out(&mut text, &line)?;
    assert!(rt; text.as_slice() == bytes);
    assert!(rt; read_out(bytes) == Some(line));
    expect_one_line_nearby(rt, alloc, bytes)
}

fn expect_journal(
    rt: &impl Abort,
    alloc: Global,
    line: JournalLine,
    bytes: &[u8],
) -> Result<(), Fail> {
    let mut text = Bytes::new(alloc)?;
    write_journal(&mut text, &line)?;
    assert!(rt; text.as_slice() == bytes);
    assert!(rt; read_journal(bytes) == Some(line));
    expect_one_line_nearby(rt, alloc, bytes)
}

#[test]
fn journal_lines(rt: HostRuntime) -> Result<(), Fail> {
    let least = JournalLine {
        n: 1,
        segment: 1,
        station: 1,
        key: Key { boot: 0, number: 0 },
        fresh: true,
        value: None,
    };
    expect_journal(&rt, rt.alloc(), least, b"E 1 1 1 0 0 F -\n")?;
    let greatest = JournalLine {
        n: u32::MAX,
        segment: u32::MAX,
        station: u16::MAX,
        key: Key {
            boot: u16::MAX,
            number: u32::MAX,
        },
        fresh: false,
        value: Some(Tenths(i16::MIN)),
    };
    let bytes = b"E 4294967295 4294967295 65535 65535 4294967295 C -3276.8\n";
    expect_journal(&rt, rt.alloc(), greatest, bytes)
}

/// What stands beside a line of the journal, and is none.
#[test]
fn lines_and_range_faults(rt: HostRuntime) {
    assert!(rt; read_journal(b"E 1 1 1 0 0 F -\n").is_some());
    assert!(rt; read_journal(b"E 1 1 1 0 0 F -").is_none());
    assert!(rt; read_journal(b"E 01 1 1 0 0 F -\n").is_none());
    assert!(rt; read_journal(b"E 1 1 1 0 0 F -0.0\n").is_none());
    assert!(rt; read_journal(b"E 1 1 1 65536 0 F -\n").is_none());
}

#[test]
fn marks_and_totals(rt: HostRuntime) -> Result<(), Fail> {
    let line = OutLine::Mark {
        m: 0,
        bodies: 0,
        kept: 0,
        repeats: 0,
        refused: 0,
    };
    expect_out(&rt, rt.alloc(), line, b"M 0 0 0 0 0\n")?;
    let line = OutLine::Totals {
        segments: u32::MAX,
        bodies: u32::MAX,
        kept: u32::MAX,
        repeats: u32::MAX,
        refused: u32::MAX,
    };
    expect_out(
        &rt,
        rt.alloc(),
        line,
        b"Z 4294967295 4294967295 4294967295 4294967295 4294967295\n",
    )?;
    let line = OutLine::Tail { bytes: u32::MAX };
    expect_out(&rt, rt.alloc(), line, b"T 4294967295\n")
}

#[test]
fn refused_bodies(rt: HostRuntime) -> Result<(), Fail> {
    let faults: [(PacketFault, &[u8]); 7] = [
        (PacketFault::Short, b"X 4294967295 P1\n"),
        (PacketFault::Magic, b"X 4294967295 P2\n"),
        (PacketFault::Version(u8::MAX), b"X 4294967295 P3 255\n"),
        (PacketFault::Flags(u8::MAX), b"X 4294967295 P4 255\n"),
        (PacketFault::Station(u16::MAX), b"X 4294967295 P5 65535\n"),
        (PacketFault::Count(0), b"X 4294967295 P6 0\n"),
        (
            PacketFault::Length {
                expected: 0,
                found: u32::MAX,
            },
            b"X 4294967295 P7 0 4294967295\n",
        ),
    ];
    for (fault, bytes) in faults.iter() {
        let line = OutLine::Refused {
            number: u32::MAX,
            fault: *fault,
        };
        expect_out(&rt, rt.alloc(), line, bytes)?;
    }
    Ok(())
}

#[test]
fn readings_and_answers(rt: HostRuntime) -> Result<(), Fail> {
    let line = OutLine::Reading {
        m: 1,
        area: Name::read(b"_").ok_or("a name")?,
        front: u64::MAX,
    };
    expect_out(&rt, rt.alloc(), line, b"R 1 _ 18446744073709551615\n")?;
    let line = OutLine::Answer {
        m: u32::MAX,
        target: Name::read(b"ABCDEFGHIJKLMNOP").ok_or("a name")?,
        value: Some(Tenths(i16::MAX)),
        class: Some(Class::C6Upper),
    };
    expect_out(
        &rt,
        rt.alloc(),
        line,
        b"P 4294967295 ABCDEFGHIJKLMNOP 3276.7 6+\n",
    )?;
    let line = OutLine::Answer {
        m: 1,
        target: Name::read(b"t1").ok_or("a name")?,
        value: Some(Tenths(-3)),
        class: None,
    };
    expect_out(&rt, rt.alloc(), line, b"P 1 t1 -0.3 -\n")
}

/// The least number of a record, and of each fault the other end.
#[test]
fn other_ends_of_refused_bodies(rt: HostRuntime) -> Result<(), Fail> {
    let faults: [(PacketFault, &[u8]); 5] = [
        (PacketFault::Version(0), b"X 0 P3 0\n"),
        (PacketFault::Flags(0), b"X 0 P4 0\n"),
        (PacketFault::Station(0), b"X 0 P5 0\n"),
        (PacketFault::Count(u16::MAX), b"X 0 P6 65535\n"),
        (
            PacketFault::Length {
                expected: u32::MAX,
                found: 0,
            },
            b"X 0 P7 4294967295 0\n",
        ),
    ];
    for (fault, bytes) in faults.iter() {
        let line = OutLine::Refused {
            number: 0,
            fault: *fault,
        };
        expect_out(&rt, rt.alloc(), line, bytes)?;
    }
    Ok(())
}

#[test]
fn alerts(rt: HostRuntime) -> Result<(), Fail> {
    let alerts: [(Alert, &[u8]); 3] = [
        (Alert::Raise(Class::C0), b"A 0 a raise 0\n"),
        (Alert::Upgrade(Class::C5Lower), b"A 0 a upgrade 5-\n"),
        (Alert::Cancel, b"A 0 a cancel\n"),
    ];
    for (alert, bytes) in alerts.iter() {
        let line = OutLine::Alert {
            m: 0,
            area: Name::read(b"a").ok_or("a name")?,
            alert: *alert,
        };
        expect_out(&rt, rt.alloc(), line, bytes)?;
    }
    Ok(())
}

#[test]
fn other_ends_of_alerts(rt: HostRuntime) -> Result<(), Fail> {
    let alerts: [(Alert, &[u8]); 3] = [
        (
            Alert::Raise(Class::C7),
            b"A 4294967295 abcdefghijklmnop raise 7\n",
        ),
        (
            Alert::Upgrade(Class::C6Upper),
            b"A 4294967295 abcdefghijklmnop upgrade 6+\n",
        ),
        (Alert::Cancel, b"A 4294967295 abcdefghijklmnop cancel\n"),
    ];
    for (alert, bytes) in alerts.iter() {
        let line = OutLine::Alert {
            m: u32::MAX,
            area: Name::read(b"abcdefghijklmnop").ok_or("a name")?,
            alert: *alert,
        };
        expect_out(&rt, rt.alloc(), line, bytes)?;
    }
    Ok(())
}

#[test]
fn other_ends_of_counts(rt: HostRuntime) -> Result<(), Fail> {
    let line = OutLine::Mark {
        m: u32::MAX,
        bodies: u32::MAX,
        kept: u32::MAX,
        repeats: u32::MAX,
        refused: u32::MAX,
    };
    let bytes = b"M 4294967295 4294967295 4294967295 4294967295 4294967295\n";
    expect_out(&rt, rt.alloc(), line, bytes)?;
    let line = OutLine::Totals {
        segments: 0,
        bodies: 0,
        kept: 0,
        repeats: 0,
        refused: 0,
    };
    expect_out(&rt, rt.alloc(), line, b"Z 0 0 0 0 0\n")?;
    expect_out(&rt, rt.alloc(), OutLine::Tail { bytes: 0 }, b"T 0\n")
}

#[test]
fn other_ends_of_readings(rt: HostRuntime) -> Result<(), Fail> {
    let line = OutLine::Reading {
        m: u32::MAX,
        area: Name::read(b"abcdefghijklmnop").ok_or("a name")?,
        front: 0,
    };
    expect_out(&rt, rt.alloc(), line, b"R 4294967295 abcdefghijklmnop 0\n")?;
    let line = OutLine::Answer {
        m: 0,
        target: Name::read(b"9").ok_or("a name")?,
        value: Some(Tenths(i16::MIN)),
        class: Some(Class::C0),
    };
    expect_out(&rt, rt.alloc(), line, b"P 0 9 -3276.8 0\n")?;
    let line = OutLine::Answer {
        m: 1,
        target: Name::read(b"t1").ok_or("a name")?,
        value: None,
        class: None,
    };
    expect_out(&rt, rt.alloc(), line, b"P 1 t1 - -\n")
}

/// The three lines that are written only.
#[test]
fn plain_lines(rt: HostRuntime) -> Result<(), Fail> {
    let lines = [
        PlainLine::Value {
            key: Key { boot: 0, number: 5 },
            fresh: true,
            value: Some(Tenths(21)),
        },
        PlainLine::Counts {
            kept: 3,
            repeats: u32::MAX,
        },
        PlainLine::Drill {
            seed: u64::MAX,
            stations: 400,
            seconds: 300,
        },
    ];
    let mut text = Bytes::new(rt.alloc())?;
    for line in lines.iter() {
        write_plain(&mut text, line)?;
    }
    let written = b"V 0 5 F 2.1\nY 3 4294967295\ndrill 18446744073709551615 400 300\n";
    assert!(rt; text.as_slice() == written.as_slice());
    Ok(())
}
