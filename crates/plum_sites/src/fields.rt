//! The fields of a row.

ghost use Rattle.std.specs.Prelude.{◌≡◌, pos, IfSome, IfNone};
ghost use Rattle.std.specs.Str.Parse.{digits_value};
ghost use Rattle.plum_sites.specs.Fields.{IsShortNumeral, Spells, IsNumber};

/// The most digits of a number field.
const MOST_DIGITS: usize = 9;

/// The number that the digits write.
fn digits_read(digits: &[u8]) -> Option<i32>
    ensures number { IfSome result (λ n. IsShortNumeral digits.now
        × (n ≡ pos (digits_value 10 digits.now))) }
    ensures none { IfNone result (¬ IsShortNumeral digits.now) }
{
    if digits.is_empty() || MOST_DIGITS < digits.len() {
        return None;
    }
    let mut number: u32 = 0;
    for digit in digits {
        if !digit.is_ascii_digit() {
            return None;
        }
        number = number * 10 + u32::from(*digit - b'0');
    }
    Some(number as i32)
}

/// The number of a number field.
pub fn number_read(field: &[u8]) -> Option<i32>
    ensures number { IfSome result (Spells field.now) }
    ensures none { IfNone result (¬ IsNumber field.now) }
{
    match field {
        [b'-', digits @ ..] => Some(-digits_read(digits)?),
        digits => digits_read(digits),
    }
}
