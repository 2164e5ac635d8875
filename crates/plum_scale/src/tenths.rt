//! The text of an intensity.

ghost use Rattle.std.specs.Prelude.{◌≡◌};
ghost use Rattle.plum_scale.specs.Tenths.{tenths_text};

use arrayvec::ArrayString;
use itoa::Buffer;
use plum_base::Tenths;

/// An intensity as a whole part, a point and one digit, with a `-` where it is negative.
pub fn text_of(t: Tenths) -> ArrayString<8>
    ensures { result.bytes ≡ tenths_text t.0 }
{
    let magnitude = t.0.unsigned_abs();
    let mut digits = Buffer::new();
    let mut text = ArrayString::new();
    if t.0 < 0 {
        text.push_str("-");
    }
    text.push_str(digits.format(magnitude / 10));
    text.push_str(".");
    text.push_str(digits.format(magnitude % 10));
    text
}
