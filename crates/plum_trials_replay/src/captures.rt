//! Captures of the worked rows, record by record.

use plum_base::{Bytes, NoMemory};
use std::alloc::Global;

/// The record of a mark.
pub const MARK: [u8; 4] = [0, 2, b'M', b'K'];

/// The records of nine bodies, each with the next fault of a packet: the last three bytes of each
/// header but the short ones are its number and count.
const FAULTS: [&[u8]; 9] = [
    &[0, 0],
    &[0, 2, b'P', b'L'],
    &[0, 14, b'P', b'L', 9, 0, 0, 1, 0, 0, 0, 0, 0, 1, 0, 1],
    &[0, 14, b'P', b'M', 1, 0, 0, 1, 0, 0, 0, 0, 0, 1, 0, 1],
    &[0, 14, b'P', b'L', 1, 128, 0, 1, 0, 0, 0, 0, 0, 1, 0, 1],
    &[0, 14, b'P', b'L', 1, 0, 0, 7, 0, 0, 0, 0, 0, 1, 0, 1],
    &[0, 14, b'P', b'L', 1, 0, 0, 1, 0, 0, 0, 0, 0, 1, 0, 0],
    &[0, 14, b'P', b'L', 1, 0, 0, 1, 0, 0, 0, 0, 0, 1, 0, 201],
    &[
        0, 27, b'P', b'L', 1, 0, 0, 1, 0, 0, 0, 0, 0, 1, 0, 1, 0, 0, 0, 10, 0, 0, 0, 0, 0, 0, 0, 0,
        0,
    ],
];

/// The record of a packet of a station: boot 0, this number, and so many samples of (10, 0, 0).
pub fn put_packet(capture: &mut Bytes, code: u8, number: u8, samples: u8) -> Result<(), NoMemory> {
    let [high, low] = (14 + 12 * samples as u16).to_be_bytes();
    capture.extend(&[high, low, b'P', b'L', 1, 0, 0, code])?;
    capture.extend(&[0, 0, 0, 0, 0, number, 0, samples])?;
    for _ in 0..samples {
        capture.extend(&[0, 0, 0, 10, 0, 0, 0, 0, 0, 0, 0, 0])?;
    }
    Ok(())
}

/// A packet of this number, of each station up to this code.
pub fn put_packets(capture: &mut Bytes, last: u8, number: u8, samples: u8) -> Result<(), NoMemory> {
    for code in 1..=last {
        put_packet(capture, code, number, samples)?;
    }
    Ok(())
}

/// 29 samples and one more.
pub fn thirty_samples(alloc: Global) -> Result<Bytes, NoMemory> {
    let mut capture = Bytes::new(alloc)?;
    put_packet(&mut capture, 1, 0, 29)?;
    put_packet(&mut capture, 1, 1, 1)?;
    Ok(capture)
}

/// A packet, a body with each fault, and a packet.
pub fn every_fault(alloc: Global) -> Result<Bytes, NoMemory> {
    let mut capture = Bytes::new(alloc)?;
    put_packet(&mut capture, 1, 0, 1)?;
    for fault in FAULTS.iter() {
        capture.extend(fault)?;
    }
    put_packet(&mut capture, 1, 1, 1)?;
    Ok(capture)
}

/// A packet, and behind it twelve bytes that are no whole record.
pub fn tail_of_twelve(alloc: Global) -> Result<Bytes, NoMemory> {
    let mut capture = Bytes::new(alloc)?;
    put_packet(&mut capture, 1, 0, 1)?;
    capture.extend(&[0, 26, b'P', b'L', 1, 0, 0, 1, 0, 0, 0, 0])?;
    Ok(capture)
}

/// A packet of 15 samples of each station up to this code, before a mark and behind it.
pub fn mark_between(alloc: Global, last: u8) -> Result<Bytes, NoMemory> {
    let mut capture = Bytes::new(alloc)?;
    put_packets(&mut capture, last, 0, 15)?;
    capture.extend(&MARK)?;
    put_packets(&mut capture, last, 1, 15)?;
    Ok(capture)
}

/// Three segments, each with a packet of each station up to this code.
pub fn three_segments(alloc: Global, last: u8) -> Result<Bytes, NoMemory> {
    let mut capture = Bytes::new(alloc)?;
    put_packets(&mut capture, last, 0, 1)?;
    capture.extend(&MARK)?;
    put_packets(&mut capture, last, 1, 1)?;
    capture.extend(&MARK)?;
    put_packets(&mut capture, last, 2, 1)?;
    Ok(capture)
}

/// One packet, a mark, and two packets.
pub fn two_behind_a_mark(alloc: Global) -> Result<Bytes, NoMemory> {
    let mut capture = Bytes::new(alloc)?;
    put_packet(&mut capture, 1, 0, 1)?;
    capture.extend(&MARK)?;
    put_packet(&mut capture, 1, 1, 1)?;
    put_packet(&mut capture, 1, 2, 1)?;
    Ok(capture)
}

/// Fifty packets of each of two stations, in turn.
pub fn fifty_of_each(alloc: Global) -> Result<Bytes, NoMemory> {
    let mut capture = Bytes::new(alloc)?;
    for number in 0..50 {
        put_packets(&mut capture, 2, number, 1)?;
    }
    Ok(capture)
}

/// Four segments: two packets, one, none, and one.
pub fn four_segments(alloc: Global) -> Result<Bytes, NoMemory> {
    let mut capture = Bytes::new(alloc)?;
    put_packet(&mut capture, 1, 0, 1)?;
    put_packet(&mut capture, 1, 1, 1)?;
    capture.extend(&MARK)?;
    put_packet(&mut capture, 1, 2, 1)?;
    capture.extend(&MARK)?;
    capture.extend(&MARK)?;
    put_packet(&mut capture, 1, 3, 1)?;
    Ok(capture)
}
