//! The records of a file.

ghost use Rattle.std.specs.Prelude.{◌≡◌, true, map, IfOk};
ghost use Rattle.csv.specs.Reading.{error_kind, stops_reader};
ghost use Rattle.csv.specs.Records.{fields_of};
ghost use Rattle.plum_sites.specs.Records.{AreFirstRecordsOf};

use csv::{ByteRecord, Error, ReaderBuilder};
use plum_base::NoMemory;
use std::alloc::Global;

/// What an error says of bytes that are all there.
fn no_memory(error: Error) -> NoMemory
    requires { stops_reader (error_kind error) ≡ true }
{
    NoMemory
}

/// The first records, of whatever lengths: all of them, or as many as are wanted, so that a file of
/// more rows than there may be is not held whole.
pub fn first_records(
    alloc: Global,
    bytes: &[u8],
    wanted: usize,
) -> Result<Vec<ByteRecord>, NoMemory>
    ensures { IfOk result (λ v. AreFirstRecordsOf bytes.now wanted (map fields_of v.items)) }
{
    let reader = ReaderBuilder::new()
        .has_headers(false)
        .flexible(true)
        .from_reader(alloc, bytes);
    let mut records = Vec::new(alloc);
    for record in reader.into_byte_records().take(wanted) {
        match record {
            Ok(record) => records.push(record)?,
            Err(error) => return Err(no_memory(error)),
        }
    }
    Ok(records)
}
