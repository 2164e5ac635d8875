//! The capture of a drill: each second a packet of each station, and a mark.

ghost use Rattle.std.specs.Prelude.{◌≡◌, ◌+◌, ◌*◌, ◌<◌, ◌≤◌, ◌++◌, IfOk, OnOk};
ghost use Rattle.std.specs.List.{flat_map};
ghost use Rattle.plum_packet.specs.Encoding.{sample_bytes};
ghost use Rattle.plum.specs.Draws.{state_after};
ghost use Rattle.plum.specs.DrillCapture.{PACKET_DRAWS, amplitude_in, samples_at};
ghost use Rattle.plum.specs.DrillCapture.{packet_record, second_at, drill_capture};
ghost use Rattle.plum.specs.DrillFiles.{MOST_DRILL_STATIONS};

use super::generator::{GREATEST_COMPONENT, Generator};
use plum_base::{Bytes, Key, NoMemory};
use plum_packet::{header_of, sample_bytes};
use std::alloc::Global;

/// The samples of a packet.
const PACKET_SAMPLES: u16 = 100;

/// The bytes of its body: a header, and twelve for each sample.
const BODY: u16 = 14 + 12 * PACKET_SAMPLES;

/// A mark: the length of its body, and its body.
const MARK: &[u8] = b"\x00\x02MK";

/// The greatest component of a second, counted from 0.
fn amplitude_in(second: u16) -> u32
    ensures value { result ≡ amplitude_in second }
    ensures few { result ≤ GREATEST_COMPONENT }
{
    100 + 1000 * u32::from(second.min(60))
}

/// Appends the samples of a packet.
fn put_samples(bytes: &mut Bytes, generator: &mut Generator, amplitude: u32) -> Result<(), NoMemory>
    requires { amplitude ≤ GREATEST_COMPONENT }
    ensures bytes { OnOk result (bytes.new ≡ bytes.old
        ++ flat_map sample_bytes (samples_at generator.old amplitude 0 PACKET_SAMPLES)) }
    ensures state { OnOk result (generator.new ≡ state_after generator.old PACKET_DRAWS) }
{
    for _k in 0..PACKET_SAMPLES {
        let sample = generator.sample(amplitude);
        bytes.extend(&sample_bytes(sample))?;
    }
    Ok(())
}

/// Appends the record of a station's packet in a second.
fn put_packet(
    bytes: &mut Bytes,
    generator: &mut Generator,
    second: u16,
    station: u16,
) -> Result<(), NoMemory>
    requires { station < MOST_DRILL_STATIONS }
    ensures bytes { OnOk result (bytes.new ≡ bytes.old
        ++ packet_record generator.old 0 second station) }
    ensures state { OnOk result (generator.new ≡ state_after generator.old PACKET_DRAWS) }
{
    let key = Key {
        boot: 1,
        number: u32::from(second),
    };
    bytes.extend(&BODY.to_be_bytes())?;
    bytes.extend(&header_of(station + 1, key, PACKET_SAMPLES))?;
    put_samples(bytes, generator, amplitude_in(second))
}

/// Appends a second: the packet of each station, and a mark.
fn put_second(
    bytes: &mut Bytes,
    generator: &mut Generator,
    second: u16,
    stations: u16,
) -> Result<(), NoMemory>
    requires { stations ≤ MOST_DRILL_STATIONS }
    ensures bytes { OnOk result (bytes.new ≡ bytes.old
        ++ second_at generator.old 0 second stations) }
    ensures state { OnOk result (generator.new
        ≡ state_after generator.old (PACKET_DRAWS * stations)) }
{
    for station in 0..stations {
        put_packet(bytes, generator, second, station)?;
    }
    bytes.extend(MARK)
}

/// The capture of a drill.
pub fn drill_capture(
    alloc: Global,
    seed: u64,
    stations: u16,
    seconds: u16,
) -> Result<Bytes, NoMemory>
    requires { stations ≤ MOST_DRILL_STATIONS }
    ensures { IfOk result (λ bytes. bytes ≡ drill_capture seed stations seconds) }
{
    let mut bytes = Bytes::new(alloc)?;
    let mut generator = Generator::new(seed);
    for second in 0..seconds {
        put_second(&mut bytes, &mut generator, second, stations)?;
    }
    Ok(bytes)
}
