//! Packets of equal samples.

ghost use Rattle.std.specs.Prelude.{◌≡◌, ◌≤◌, length, IfOk};
ghost use Rattle.plum_base.specs.declared.wave.TheConstants.Wave.{MAX};

use plum_base::{Key, NoMemory, Packet, Sample, StationNo, Wave};
use std::alloc::Global;

/// So many equal samples.
pub fn equal_samples(alloc: Global, count: u16, sample: Sample) -> Result<Wave, NoMemory>
    requires { count ≤ MAX }
    ensures { IfOk result (λ wave. length wave ≡ count) }
{
    let mut wave = Wave::with_capacity(alloc, count as usize)?;
    for _ in 0..count {
        wave.push(sample)?;
    }
    Ok(wave)
}

/// A packet of a station: boot 0, this number, and so many equal samples along x.
pub fn packet_of(
    alloc: Global,
    station: u16,
    number: u32,
    count: u16,
    x: i32,
) -> Result<Packet, NoMemory>
    requires { count ≤ MAX }
    ensures station { IfOk result (λ packet. packet.station.0 ≡ station) }
    ensures count { IfOk result (λ packet. length packet.wave ≡ count) }
{
    Ok(Packet {
        station: StationNo(station),
        key: Key { boot: 0, number },
        wave: equal_samples(alloc, count, Sample { x, y: 0, z: 0 })?,
    })
}
