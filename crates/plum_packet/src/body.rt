//! From a record's body to a packet.

ghost use Rattle.std.specs.Prelude.{◌≡◌, ◌↔◌, ◌+◌, ◌*◌, ◌^◌, ◌<◌, ◌≤◌, length, IfOk};
ghost use Rattle.plum_base.specs.declared.packet.PacketFault.{PacketFault};
ghost use Rattle.plum_packet.specs.declared.body.DecodeFault.TheVariants as decoding;
ghost use Rattle.plum_packet.specs.Body.{count_of, sample_at, AreSamples, IsFirstFault, IsHead};
ghost use Rattle.plum_packet.specs.Body.{IsPacket};

use byteorder::{BigEndian, ByteOrder};
use plum_base::{Key, NoMemory, Packet, PacketFault, Sample, Sites, StationNo, Wave};
use std::alloc::Global;

/// The bytes before the samples.
pub const HEADER: usize = 14;

/// The bytes of one sample.
pub const SAMPLE: usize = 12;

/// The samples of the longest packet.
pub const MOST_SAMPLES: u16 = 200;

/// What the header of a packet tells.
#[derive(Clone, Copy, Debug, PartialEq, Eq)]
pub struct Head {
    pub station: StationNo,
    pub key: Key,
    /// How many samples follow.
    pub count: u16,
}

/// Why a body was not decoded.
#[derive(Clone, Copy, Debug, PartialEq, Eq)]
pub enum DecodeFault {
    Packet(PacketFault),
    NoMemory,
}

impl From<PacketFault> for DecodeFault {
    ghost from_gives = { λ fault e. e ≡ decoding.Packet fault };

    fn from(fault: PacketFault) -> DecodeFault {
        DecodeFault::Packet(fault)
    }
}

impl From<NoMemory> for DecodeFault {
    ghost from_gives = { λ _ e. e ≡ decoding.NoMemory };

    fn from(_refusal: NoMemory) -> DecodeFault {
        DecodeFault::NoMemory
    }
}

/// The head of the packet that the body is, or its first fault.
pub fn inspect(bytes: &[u8], sites: &Sites) -> Result<Head, PacketFault>
    requires { length bytes.now < 2 ^ 32 }
    ensures head { IfOk result (IsHead sites.now.stations bytes.now) }
    ensures fault { (fault : PacketFault)
        → (result ≡ Err fault) ↔ IsFirstFault sites.now.stations bytes.now fault }
{
    if bytes.len() < HEADER {
        return Err(PacketFault::Short);
    }
    if !bytes.starts_with(b"PL") {
        return Err(PacketFault::Magic);
    }
    let version = bytes[2];
    if version != 1 {
        return Err(PacketFault::Version(version));
    }
    let flags = bytes[3];
    if flags != 0 {
        return Err(PacketFault::Flags(flags));
    }
    let code = BigEndian::read_u16(&bytes[4..]);
    let Some(station) = sites.find(code) else {
        return Err(PacketFault::Station(code));
    };
    let count = BigEndian::read_u16(&bytes[12..]);
    if count == 0 || count > MOST_SAMPLES {
        return Err(PacketFault::Count(count));
    }
    let expected = (HEADER + SAMPLE * usize::from(count)) as u32;
    let found = bytes.len() as u32;
    if expected != found {
        return Err(PacketFault::Length { expected, found });
    }
    let key = Key {
        boot: BigEndian::read_u16(&bytes[6..]),
        number: BigEndian::read_u32(&bytes[8..]),
    };
    Ok(Head {
        station,
        key,
        count,
    })
}

/// The i-th sample of a body, from 0.
fn sample(bytes: &[u8], i: u16) -> Sample
    requires { HEADER + SAMPLE * (i + 1) ≤ length bytes.now }
    ensures { result ≡ sample_at bytes.now i }
{
    let start = HEADER + SAMPLE * usize::from(i);
    Sample {
        x: BigEndian::read_i32(&bytes[start..]),
        y: BigEndian::read_i32(&bytes[start + 4..]),
        z: BigEndian::read_i32(&bytes[start + 8..]),
    }
}

/// As many samples of a body as its header tells.
fn wave_of(alloc: Global, bytes: &[u8], count: u16) -> Result<Wave, NoMemory>
    requires counted { count ≡ count_of bytes.now }
    requires few { count ≤ MOST_SAMPLES }
    requires whole { length bytes.now ≡ HEADER + SAMPLE * count }
    ensures { IfOk result (AreSamples bytes.now) }
{
    let mut wave = Wave::with_capacity(alloc, usize::from(count))?;
    for i in 0..count {
        wave.push(sample(bytes, i))?;
    }
    Ok(wave)
}

/// The packet that the body is, or its first fault.
pub fn decode(alloc: Global, bytes: &[u8], sites: &Sites) -> Result<Packet, DecodeFault>
    requires { length bytes.now < 2 ^ 32 }
    ensures packet { IfOk result (IsPacket sites.now.stations bytes.now) }
    ensures fault { (fault : PacketFault) → (result ≡ Err (DecodeFault.Packet fault))
        ↔ IsFirstFault sites.now.stations bytes.now fault }
{
    let head = inspect(bytes, sites)?;
    let wave = wave_of(alloc, bytes, head.count)?;
    Ok(Packet {
        station: head.station,
        key: head.key,
        wave,
    })
}
