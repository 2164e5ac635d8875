//! The lines of the journal and of the output, written and read, and the two texts that they make.
//!
//! It promises that each line is written as its fields spell it, that the bytes of a line are read
//! back as its fields and no other bytes are, and that the texts tell all that stands in them. It
//! must not know where the numbers of a line come from.
#![tactic(auto)]

mod bytes;
mod laws;
mod lines;
mod read;
mod spell;
mod write;

pub use laws::{lines_of_texts, lines_tell_their_fields, texts_tell_a_run};
pub use lines::{JournalLine, OutLine, PlainLine};
pub use read::{read_journal, read_out};
pub use write::{write_journal, write_out, write_plain};
