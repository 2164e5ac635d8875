//! Numbers as text.

ghost use Rattle.std.specs.Prelude.{◌≡◌, ◌++◌, decimal, OnOk};
ghost use Rattle.std.specs.Fmt.{signed_decimal};

use itoa::Buffer;
use plum_base::{Bytes, NoMemory};

/// Appends a number.
pub fn put_natural(text: &mut Bytes, n: u64) -> Result<(), NoMemory>
    ensures { OnOk result (text.new ≡ text.old ++ decimal n) }
{
    text.extend(Buffer::new().format(n).as_bytes())
}

/// Appends a signed number.
pub fn put_integer(text: &mut Bytes, z: i32) -> Result<(), NoMemory>
    ensures { OnOk result (text.new ≡ text.old ++ signed_decimal z) }
{
    text.extend(Buffer::new().format(z).as_bytes())
}
