//! Reading weights and allowances: decimal text, in millionths.

ghost use Rattle.std.specs.Prelude.{◌≡◌, ◌≢◌, ℕ, ◌+◌, ◌<◌, ◌≤◌, ◌↔◌, ◌++◌, length, slice_index, IsTrue, IfOk, IfErr, IfSome, IfNone, Result};
ghost use Rattle.std.specs.Char.{is_ascii_digit};
ghost use Rattle.std.specs.List.{prefix_len};
ghost use Rattle.std.specs.Str.Parse.{AllDigits, digits_value};
ghost use Rattle.cost_num.specs.Amount.{IsExponent, Reads, amount_in, amount_of, places_of};
ghost use Rattle.cost_num.specs.Capped.{capped};
ghost use Rattle.cost_num.specs.DecimalText.{Splits};
ghost use Rattle.cost_num.specs.Reading.{IsFirstPast, IsMisfitFault, NoDigitFirst, StopsAt};

use crate::{CAP, GREATEST_WEIGHT, PLACES, UNIT, add_capped, times_capped};
use thiserror::Error;

/// Why a text is no weight or allowance.
///
/// The faults are tested in this order, and the first that the text has is given. Places are counted
/// in bytes from the start of the text.
#[derive(Debug, Clone, Copy, PartialEq, Eq, Error)]
pub enum WeightFault {
    /// The text is empty.
    #[error("the number is missing")]
    Empty,
    /// The text begins with `-`.
    #[error("the number is negative")]
    Negative,
    /// The first character that doesn't fit is `e` or `E`, directly after a digit.
    #[error("the number has an exponent")]
    Exponent,
    /// Another character is the first that doesn't fit, or the text ends too early.
    #[error("the text stops being a decimal number at byte {at}")]
    BadDigit {
        /// The place of that character, or the length of the text.
        at: usize,
    },
    /// The text has a digit other than 0 after the sixth decimal place.
    #[error("the digit at byte {at} is finer than a millionth")]
    TooFine {
        /// The place of the first such digit.
        at: usize,
    },
    /// The number is greater than the greatest that is taken.
    #[error("the number is too large")]
    TooLarge,
}

/// The two parts of a decimal text.
#[derive(Clone, Copy)]
struct Decimal<'a> {
    /// The digits before the dot.
    whole: &'a [u8],
    /// The digits after the dot, empty where there is no dot.
    fraction: &'a [u8],
}

/// Reads a weight, which is at most a million, and gives it in millionths.
///
/// A weight is one digit or more, and then perhaps a dot and one digit or more. Digits after the
/// sixth place have to be 0. This is the text of the argument `weight` of the directive `@cost` of
/// the IBM GraphQL Cost Directives Specification, without signs, exponents and finer places.
pub fn read_weight(text: &str) -> Result<u64, WeightFault>
    ensures reads { Reads GREATEST_WEIGHT text.now result }
    ensures only { (other : Result ℕ WeightFault) → Reads GREATEST_WEIGHT text.now other → other ≡ result }
    ensures amount { IfOk result (λ weight. weight ≡ amount_in text.now) }
    ensures in_range { IfOk result (λ weight. weight ≤ GREATEST_WEIGHT) }
{
    read_amount(text.as_bytes(), GREATEST_WEIGHT)
}

/// Reads an allowance, which is a text like that of a weight and is at most `CAP`, and gives it in
/// millionths.
pub fn read_allowance(text: &str) -> Result<u64, WeightFault>
    ensures reads { Reads CAP text.now result }
    ensures only { (other : Result ℕ WeightFault) → Reads CAP text.now other → other ≡ result }
    ensures amount { IfOk result (λ allowance. allowance ≡ amount_in text.now) }
    ensures in_range { IfOk result (λ allowance. allowance ≤ CAP) }
{
    read_amount(text.as_bytes(), CAP)
}

/// Reads an amount of at most `greatest` millionths.
fn read_amount(text: &[u8], greatest: u64) -> Result<u64, WeightFault>
    requires { greatest ≤ CAP }
    ensures { Reads greatest text.now result }
{
    let Some(first) = text.first() else {
        return Err(WeightFault::Empty);
    };
    if *first == b'-' {
        return Err(WeightFault::Negative);
    }
    let decimal = match split(text) {
        Ok(decimal) => decimal,
        Err(at) => return Err(misfit(text, at)),
    };
    if let Some(place) = first_too_fine(decimal.fraction) {
        return Err(WeightFault::TooFine {
            at: decimal.whole.len() + 1 + place,
        });
    }
    let amount = amount_capped(decimal.whole, decimal.fraction);
    if amount <= greatest {
        Ok(amount)
    } else {
        Err(WeightFault::TooLarge)
    }
}

/// The parts of a decimal text, or the place of the first character that doesn't fit; the length of
/// the text where it ends too early.
fn split(text: &[u8]) -> Result<Decimal<'_>, usize>
    ensures parts { IfOk result (λ decimal. Splits text.now decimal.whole.now decimal.fraction.now) }
    ensures stops { IfErr result (λ at. StopsAt text.now at) }
{
    let (whole, rest) = leading_digits(text);
    if whole.is_empty() {
        return Err(0);
    }
    let Some((first, after)) = rest.split_first() else {
        return Ok(Decimal {
            whole,
            fraction: rest,
        });
    };
    if *first != b'.' {
        return Err(whole.len());
    }
    let (fraction, end) = leading_digits(after);
    if !is_complete(fraction, end) {
        return Err(whole.len() + 1 + fraction.len());
    }
    Ok(Decimal { whole, fraction })
}

/// Whether a fraction has a digit, and nothing stands after its digits.
fn is_complete(fraction: &[u8], end: &[u8]) -> bool
    ensures { IsTrue result ↔ ((0 < length fraction.now) × (length end.now ≡ 0)) }
{
    !fraction.is_empty() && end.is_empty()
}

/// The digits that a text begins with, and what follows them.
#[tactic(auto, using(crate::proofs::Fronts::runs))]
fn leading_digits(text: &[u8]) -> (&[u8], &[u8])
    ensures joined { text.now ≡ result.0.now ++ result.1.now }
    ensures digits { AllDigits 10 result.0.now }
    ensures ends { NoDigitFirst result.1.now }
{
    text.split_at(digit_count(text))
}

/// How many digits a text begins with.
fn digit_count(text: &[u8]) -> usize
    ensures { result ≡ prefix_len is_ascii_digit text.now }
{
    text.iter().take_while(|byte| byte.is_ascii_digit()).count()
}

/// The fault of a text that stops being decimal at `at`.
fn misfit(text: &[u8], at: usize) -> WeightFault
    ensures { IsMisfitFault text.now at result }
{
    if is_exponent(text, at) {
        WeightFault::Exponent
    } else {
        WeightFault::BadDigit { at }
    }
}

/// Whether `e` or `E` stands at `at`, directly after a digit.
fn is_exponent(text: &[u8], at: usize) -> bool
    ensures { IsTrue result ↔ IsExponent text.now at }
{
    0 < at && matches!(text.get(at), Some(b'e' | b'E')) && text[at - 1].is_ascii_digit()
}

/// The first digit of a fraction after the last decimal place that isn't 0.
fn first_too_fine(fraction: &[u8]) -> Option<usize>
    ensures found { IfSome result (λ place. IsFirstPast fraction.now place) }
    ensures none { IfNone result ((k : ℕ) → PLACES ≤ k → k < length fraction.now → slice_index fraction.now k ≡ 48) }
{
    for place in PLACES..fraction.len() {
        if fraction[place] != b'0' {
            return Some(place);
        }
    }
    None
}

/// The amount that a decimal text spells, in millionths, or `CAP + 1` where it exceeds `CAP`.
fn amount_capped(whole: &[u8], fraction: &[u8]) -> u64
    requires whole_digits { AllDigits 10 whole.now }
    requires fraction_digits { AllDigits 10 fraction.now }
    ensures { result ≡ capped (amount_of whole.now fraction.now) }
{
    let places = first_places(fraction);
    add_capped(
        times_capped(number_capped(whole), UNIT),
        number_capped(&places),
    )
}

/// The first decimal places of a fraction, filled with zeros.
fn first_places(fraction: &[u8]) -> [u8; PLACES]
    ensures { result ≡ places_of fraction.now }
{
    let mut places = [b'0'; PLACES];
    let given = fraction.len().min(PLACES);
    places[..given].copy_from_slice(&fraction[..given]);
    places
}

/// The number that digits write, or `CAP + 1` where it exceeds `CAP`.
fn number_capped(digits: &[u8]) -> u64
    requires { AllDigits 10 digits.now }
    ensures { result ≡ capped (digits_value 10 digits.now) }
{
    let mut number = 0;
    for digit in digits {
        number = add_capped(times_capped(number, 10), u64::from(digit - b'0'));
    }
    number
}
