//! From the bytes of a capture to records, from records to segments of decoded bodies, and from a
//! packet back to its body. Owns both formats, how records make segments, and how bodies are
//! counted. Promises that a reader loses no byte between reads and tells each fault, that a body
//! decodes to its packet or its first fault, that a segment is given with each of its bodies, and
//! that a packet is written as the one body that it is read from. Must not know what a packet's
//! samples mean; which packets are kept it takes from plum_seq.
#![tactic(auto)]

mod block;
mod bodies;
mod body;
mod capture;
mod counts;
mod encoding;
mod last_body;
mod record;
mod records;
mod segment;
mod segments;

pub use bodies::{Bodies, Found, given_bodies_begin};
pub use body::{DecodeFault, Head, MOST_SAMPLES, decode, inspect};
pub use capture::bytes_are_one_capture;
pub use counts::bodies_are_counted;
pub use encoding::{encode, header_of, sample_bytes};
pub use records::{Body, MOST_RECORDS, Progress, Records, RecordsFault};
pub use segment::Segment;
pub use segments::{SEGMENT_BODIES, SegmentFault, Segments, segments_hold_each_body};
