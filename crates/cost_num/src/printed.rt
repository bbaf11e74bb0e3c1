//! Writing decimal text into a fixed buffer, one piece after the other.
//!
//! Each function writes at `at` and gives the place after what it wrote. What stands before `at`
//! and what stands after the new place stays as it was.

ghost use Rattle.std.specs.Prelude.{◌≡◌, ℕ, ◌+◌, ◌<◌, ◌≤◌, ◌++◌, ◌∷◌, [], length, take, drop};
ghost use Rattle.std.specs.Fmt.{decimal};
ghost use Rattle.cost_num.specs.CostText.{last_digits, shown, amount_text};

use crate::{LEAST_PLACES, PLACES, UNIT};

/// Writes one byte.
pub(crate) fn write_byte(byte: u8, into: &mut [u8], at: usize) -> usize
    requires { at < length into.old }
    ensures end { result ≡ at + 1 }
    ensures written { take result into.new ≡ take at into.old ++ byte ∷ [] }
    ensures rest { (k : ℕ) → result ≤ k → drop k into.new ≡ drop k into.old }
{
    into[at] = byte;
    at + 1
}

/// Writes one decimal digit.
fn write_digit(digit: u64, into: &mut [u8], at: usize) -> usize
    requires is_digit { digit < 10 }
    requires in_range { at < length into.old }
    ensures end { result ≡ at + 1 }
    ensures written { take result into.new ≡ take at into.old ++ (48 + digit) ∷ [] }
    ensures rest { (k : ℕ) → result ≤ k → drop k into.new ≡ drop k into.old }
{
    write_byte(b'0' + digit as u8, into, at)
}

/// Writes a number with no leading zero.
#[tactic(auto, using(crate::proofs::Digits::digit_by_digit))]
fn write_decimal(number: u64, into: &mut [u8], at: usize) -> usize
    requires { at + length (decimal number) ≤ length into.old }
    ensures end { result ≡ at + length (decimal number) }
    ensures written { take result into.new ≡ take at into.old ++ decimal number }
    ensures rest { (k : ℕ) → result ≤ k → drop k into.new ≡ drop k into.old }
{
    if number < 10 {
        return write_digit(number, into, at);
    }
    let last = write_decimal(number / 10, into, at);
    write_digit(number % 10, into, last)
}

/// Writes the last `places` digits of a number.
#[tactic(auto, using(crate::proofs::Digits::last_by_last))]
fn write_last_digits(number: u64, places: usize, into: &mut [u8], at: usize) -> usize
    requires { at + places ≤ length into.old }
    ensures end { result ≡ at + places }
    ensures written { take result into.new ≡ take at into.old ++ last_digits places number }
    ensures rest { (k : ℕ) → result ≤ k → drop k into.new ≡ drop k into.old }
{
    if places == 0 {
        return at;
    }
    let last = write_last_digits(number / 10, places - 1, into, at);
    write_digit(number % 10, into, last)
}

/// Writes the last `places` digits of a number, without the zeros at their end that needn't be
/// shown.
#[tactic(auto, using(crate::proofs::ShownPlaces::shown_by_shown))]
fn write_shown(number: u64, places: usize, into: &mut [u8], at: usize) -> usize
    requires enough { LEAST_PLACES ≤ places }
    requires in_range { at + length (shown (last_digits places number)) ≤ length into.old }
    ensures end { result ≡ at + length (shown (last_digits places number)) }
    ensures written { take result into.new ≡ take at into.old ++ shown (last_digits places number) }
    ensures rest { (k : ℕ) → result ≤ k → drop k into.new ≡ drop k into.old }
{
    if LEAST_PLACES < places && number % 10 == 0 {
        return write_shown(number / 10, places - 1, into, at);
    }
    write_last_digits(number, places, into, at)
}

/// Writes an amount of millionths.
#[tactic(auto, using(crate::proofs::ShownPlaces::lengths))]
pub(crate) fn write_amount(amount: u64, into: &mut [u8], at: usize) -> usize
    requires { at + length (amount_text amount) ≤ length into.old }
    ensures end { result ≡ at + length (amount_text amount) }
    ensures written { take result into.new ≡ take at into.old ++ amount_text amount }
    ensures rest { (k : ℕ) → result ≤ k → drop k into.new ≡ drop k into.old }
{
    let dot = write_decimal(amount / UNIT, into, at);
    let first_place = write_byte(b'.', into, dot);
    write_shown(amount % UNIT, PLACES, into, first_place)
}
