//! Where the number at the front of a text ends.

ghost use Rattle.std.specs.Prelude.{◌≡◌, ℕ, Bool, ◌<◌, ◌≤◌, ◌++◌, List, length, IfSome};
ghost use Rattle.std.specs.List.{prefix_len};
ghost use Rattle.std.specs.Char.{is_ascii_digit};
ghost use Rattle.gql_base.specs.lexical.Characters.{is_number_start, follows_no_number, is_exponent_mark, is_sign};
ghost use Rattle.gql_base.specs.lexical.Numbers.{IsWhole, minus_bytes};
ghost use Rattle.gql_base.specs.lexical.Fronts.{digits_end, minus_end, whole_end, fraction_end, sign_end, exponent_end, found_with, number_from, number_found, integer_fits};

use crate::lexical::characters::is_name_start;
use crate::lexical::strings::after;

/// An integer or a float at the front of a text, and the place after it.
#[derive(Clone, Copy)]
pub struct Found {
    pub end: usize,
    pub is_float: bool,
}

/// Whether a number begins with this byte: a digit or `-`.
pub fn is_number_start(byte: u8) -> bool
    ensures { result ≡ is_number_start byte }
{
    byte.is_ascii_digit() || byte == b'-'
}

/// Whether no number is followed by this byte: a digit, a dot, or what begins a name.
fn follows_no_number(byte: u8) -> bool
    ensures { result ≡ follows_no_number byte }
{
    byte.is_ascii_digit() || byte == b'.' || is_name_start(byte)
}

fn is_exponent_mark(byte: u8) -> bool
    ensures { result ≡ is_exponent_mark byte }
{
    byte == b'e' || byte == b'E'
}

fn is_sign(byte: u8) -> bool
    ensures { result ≡ is_sign byte }
{
    byte == b'+' || byte == b'-'
}

/// The number of digits at the front.
fn digits_length(bytes: &[u8]) -> usize
    ensures longest { result ≡ prefix_len is_ascii_digit bytes.now }
    ensures within { result ≤ length bytes.now }
{
    bytes
        .iter()
        .take_while(|byte| byte.is_ascii_digit())
        .count()
}

/// The place after the digits at a place, if there are some.
fn digits_end(bytes: &[u8], at: usize) -> Option<usize>
    ensures place { result ≡ digits_end bytes.now at }
    ensures within { IfSome result (λ end. (at < end) × (end ≤ length bytes.now)) }
{
    if at < bytes.len() && bytes[at].is_ascii_digit() {
        Some(at + digits_length(after(bytes, at)))
    } else {
        None
    }
}

/// The place after the minus at the front, if there is one.
fn minus_end(bytes: &[u8]) -> usize
    ensures place { result ≡ minus_end bytes.now }
    ensures within { result ≤ length bytes.now }
{
    if 0 < bytes.len() && bytes[0] == b'-' {
        1
    } else {
        0
    }
}

/// The place after `0`, or after other digits.
fn whole_end(bytes: &[u8], at: usize) -> Option<usize>
    ensures place { result ≡ whole_end bytes.now at }
    ensures within { IfSome result (λ end. (at < end) × (end ≤ length bytes.now)) }
{
    if at < bytes.len() && bytes[at] == b'0' {
        Some(at + 1)
    } else {
        digits_end(bytes, at)
    }
}

/// The place after a dot and the digits that must follow it. Without a dot it is this place.
fn fraction_end(bytes: &[u8], at: usize) -> Option<usize>
    requires { at ≤ length bytes.now }
    ensures place { result ≡ fraction_end bytes.now at }
    ensures within { IfSome result (λ end. (at ≤ end) × (end ≤ length bytes.now)) }
{
    if at < bytes.len() && bytes[at] == b'.' {
        digits_end(bytes, at + 1)
    } else {
        Some(at)
    }
}

/// The place after a sign, if there is one.
fn sign_end(bytes: &[u8], at: usize) -> usize
    requires { at ≤ length bytes.now }
    ensures place { result ≡ sign_end bytes.now at }
    ensures within { (at ≤ result) × (result ≤ length bytes.now) }
{
    if at < bytes.len() && is_sign(bytes[at]) {
        at + 1
    } else {
        at
    }
}

/// The place after `e` or `E`, a sign or none, and the digits that must follow. Without the letter it is this
/// place.
fn exponent_end(bytes: &[u8], at: usize) -> Option<usize>
    requires { at ≤ length bytes.now }
    ensures place { result ≡ exponent_end bytes.now at }
    ensures within { IfSome result (λ end. (at ≤ end) × (end ≤ length bytes.now)) }
{
    if at < bytes.len() && is_exponent_mark(bytes[at]) {
        digits_end(bytes, sign_end(bytes, at + 1))
    } else {
        Some(at)
    }
}

/// The number whose digits before the dot end at one place, and which ends at another. It isn't followed by a
/// digit, a dot or a name.
fn found_with(bytes: &[u8], whole: usize, end: usize) -> Option<Found>
    requires within { end ≤ length bytes.now }
    requires some { 0 < end }
    ensures found { result ≡ found_with bytes.now whole end }
    ensures within { IfSome result (λ found. (0 < found.end) × (found.end ≤ length bytes.now)) }
{
    if end < bytes.len() && follows_no_number(bytes[end]) {
        None
    } else {
        Some(Found {
            end,
            is_float: whole < end,
        })
    }
}

/// The number whose digits before the dot end at this place.
fn number_from(bytes: &[u8], whole: usize) -> Option<Found>
    requires within { whole ≤ length bytes.now }
    requires some { 0 < whole }
    ensures found { result ≡ number_from bytes.now whole }
    ensures within { IfSome result (λ found. (0 < found.end) × (found.end ≤ length bytes.now)) }
{
    match fraction_end(bytes, whole) {
        Some(fraction) => match exponent_end(bytes, fraction) {
            Some(end) => found_with(bytes, whole, end),
            None => None,
        },
        None => None,
    }
}

/// The integer or float at the front, if one is there that isn't followed by a digit, a dot or a name.
#[tactic(auto, unfolding(crate::specs::lexical::Fronts::number_found))]
pub fn number_found(bytes: &[u8]) -> Option<Found>
    ensures found { result ≡ number_found bytes.now }
    ensures within { IfSome result (λ found. (0 < found.end) × (found.end ≤ length bytes.now)) }
{
    match whole_end(bytes, minus_end(bytes)) {
        Some(whole) => number_from(bytes, whole),
        None => None,
    }
}

/// Whether an integer as it is written is in the range of 128 bits.
pub fn integer_fits(bytes: &[u8]) -> bool
    ensures { (minus : Bool) (whole : List ℕ) → bytes.now ≡ minus_bytes minus ++ whole → IsWhole whole → result ≡ integer_fits bytes.now }
{
    match std::str::from_utf8(bytes) {
        Ok(text) => text.parse::<i128>().is_ok(),
        Err(_) => false,
    }
}
