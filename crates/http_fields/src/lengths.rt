//! Lengths of bodies.

ghost use Rattle.std.specs.Prelude.{◌≡◌, ◌≤◌, ◌<◌, ◌+◌, ◌*◌, true};
ghost use Rattle.std.specs.Str.Parse.{digits_value};
ghost use Rattle.std.specs.Char.{is_ascii_digit, digit_value};
ghost use Rattle.std.specs.List.{list_all};
ghost use Rattle.http_fields.specs.Fields.{is_length, is_length_of};

use thiserror::Error;

/// That a length is not 1 to 18 digits, or that two of them differ as numbers.
#[derive(Clone, Copy, Debug, Drop, PartialEq, Eq, Error)]
#[error("the length of the body is not a number")]
pub struct BadLength;

fn digit(byte: u8) -> u64
    requires { is_ascii_digit byte ≡ true }
    ensures value { result ≡ digit_value byte }
    ensures small { result ≤ 9 }
{
    u64::from(byte - b'0')
}

/// The number with one digit more behind it.
fn longer(number: u64, digit: u64) -> u64
    requires number { number < 100000000000000000 }
    requires digit { digit ≤ 9 }
    ensures { result ≡ number * 10 + digit }
{
    number * 10 + digit
}

/// The number that the digits of a length spell.
pub fn number_of(digits: &[u8]) -> u64
    requires { is_length digits.now ≡ true }
    ensures { result ≡ digits_value 10 digits.now }
{
    let mut number: u64 = 0;
    for i in 0..digits.len() {
        number = longer(number, digit(digits[i]));
    }
    number
}

fn are_digits(value: &[u8]) -> bool
    ensures { result ≡ list_all is_ascii_digit value.now }
{
    value.iter().all(|byte| byte.is_ascii_digit())
}

/// Whether a value is a length, of 1 to 18 digits.
pub fn is_length(value: &[u8]) -> bool
    ensures { result ≡ is_length value.now }
{
    value.len() > 0 && value.len() <= 18 && are_digits(value)
}

/// Whether a value is a length that is this number.
pub fn is_length_of(number: u64, value: &[u8]) -> bool
    ensures { result ≡ is_length_of number value.now }
{
    is_length(value) && number_of(value) == number
}
