//! Numbers in the text of operations and causes.

ghost use Rattle.std.specs.Prelude.{◌≡◌, ◌^◌, nat_lt, if◌then◌else◌, Some, None};
ghost use Rattle.std.specs.List.{list_all};
ghost use Rattle.mb_schema.specs.Name.{is_digit};
ghost use Rattle.mb_schema.specs.Number.{is_decimal, number_of, value_from};

use crate::name::is_digit;

/// The greatest number of 32 bits.
const MOST: u64 = 4_294_967_295;

/// The number that the text is in decimal, without leading zeros, if it is within 32 bits.
pub fn number_of(text: &[u8]) -> Option<u32>
    ensures { result ≡ number_of text.now }
{
    if is_decimal(text) {
        value_of(text)
    } else {
        None
    }
}

/// Whether the text is decimal digits without a leading zero.
fn is_decimal(text: &[u8]) -> bool
    ensures { result ≡ is_decimal text.now }
{
    match text {
        [] => false,
        [digit] => is_digit(*digit),
        [first, _, ..] => are_digits(text) && *first != b'0',
    }
}

fn are_digits(text: &[u8]) -> bool
    ensures { result ≡ list_all is_digit text.now }
{
    text.iter().all(|byte| is_digit(*byte))
}

/// The number of these digits, if it is within 32 bits.
fn value_of(digits: &[u8]) -> Option<u32>
    ensures { result ≡ (if nat_lt (value_from 0 digits.now) (2 ^ 32) then Some (value_from 0 digits.now) else None) }
{
    let mut value: u64 = 0;
    for digit in digits {
        // The value only grows from here.
        if value > MOST {
            return None;
        }
        value = value * 10 + u64::from(digit.saturating_sub(b'0'));
    }
    if value > MOST {
        return None;
    }
    Some(value as u32)
}
