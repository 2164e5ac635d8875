//! From a packet to the body that it is read from.

ghost use Rattle.std.specs.Prelude.{◌≡◌, ◌<◌, ◌≤◌, ◌++◌, length, All, IfOk, OnOk};
ghost use Rattle.std.specs.List.{flat_map};
ghost use Rattle.plum_base.specs.Sites.{AreStations, HasCode};
ghost use Rattle.plum_packet.specs.Body.{IsPacket};
ghost use Rattle.plum_base.specs.Packet.{FitsKey};
ghost use Rattle.plum_packet.specs.Encoding.{header_of, sample_bytes, FitsSample};
ghost use Rattle.plum_packet.specs.Encoding.{IsOnlyBody, IsOnlyPacket, IsSpelled};

use crate::body::{HEADER, MOST_SAMPLES, SAMPLE};
use byteorder::{BigEndian, ByteOrder};
use plum_base::{Bytes, Key, NoMemory, Packet, Sample, Sites, StationNo};
use std::alloc::Global;

/// The only version of the format.
const VERSION: u8 = 1;

/// The code of a listed station.
fn station_code(sites: &Sites, station: StationNo) -> u16
    requires { station.0 < length sites.now.stations }
    ensures code { HasCode sites.now.stations station.0 result }
    ensures lawful { AreStations sites.now.stations }
{
    sites.stations()[usize::from(station.0)].code
}

/// The bytes before the samples.
pub fn header_of(code: u16, key: Key, count: u16) -> [u8; HEADER]
    ensures value { result ≡ header_of code key count }
    ensures range { FitsKey key }
{
    let mut header = [0u8; HEADER];
    header[..2].copy_from_slice(b"PL");
    header[2] = VERSION;
    BigEndian::write_u16(&mut header[4..], code);
    BigEndian::write_u16(&mut header[6..], key.boot);
    BigEndian::write_u32(&mut header[8..], key.number);
    BigEndian::write_u16(&mut header[12..], count);
    header
}

/// The bytes of a sample.
pub fn sample_bytes(sample: Sample) -> [u8; SAMPLE]
    ensures value { result ≡ sample_bytes sample }
    ensures range { FitsSample sample }
{
    let mut bytes = [0u8; SAMPLE];
    BigEndian::write_i32(&mut bytes, sample.x);
    BigEndian::write_i32(&mut bytes[4..], sample.y);
    BigEndian::write_i32(&mut bytes[8..], sample.z);
    bytes
}

/// Appends the bytes of all samples, in order.
fn put_samples(bytes: &mut Bytes, samples: &[Sample]) -> Result<(), NoMemory>
    ensures ok { OnOk result (bytes.new ≡ bytes.old ++ flat_map sample_bytes samples.now) }
    ensures ranges { OnOk result (All FitsSample samples.now) }
{
    for sample in samples {
        bytes.extend(&sample_bytes(*sample))?;
    }
    Ok(())
}

/// The one body that is this packet, which has 1 to `MOST_SAMPLES` samples of a listed station.
pub fn encode(alloc: Global, packet: &Packet, sites: &Sites) -> Result<Bytes, NoMemory>
    requires listed { packet.now.station.0 < length sites.now.stations }
    requires some { 0 < length packet.now.wave }
    requires few { length packet.now.wave ≤ MOST_SAMPLES }
    ensures body { IfOk result (λ bytes. IsPacket sites.now.stations bytes packet.now) }
    ensures spelled { IfOk result (IsSpelled sites.now.stations packet.now) }
    ensures only { IfOk result (IsOnlyBody sites.now.stations packet.now) }
    ensures read { IfOk result (IsOnlyPacket sites.now.stations packet.now) }
{
    let samples = packet.wave.as_slice();
    let code = station_code(sites, packet.station);
    let header = header_of(code, packet.key, samples.len() as u16);
    let mut bytes = Bytes::new(alloc)?;
    bytes.extend(&header)?;
    put_samples(&mut bytes, samples)?;
    Ok(bytes)
}
