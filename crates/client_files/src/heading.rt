//! The first two lines of a client file: the version of the format, and the length of a window.

ghost use Rattle.std.specs.Prelude.{◌≡◌, ◌<◌, ◌^◌, ◌↔◌, ℕ, IsTrue, IfSome, IfNone, codes, ◌++◌};
ghost use Rattle.std.specs.Fmt.{decimal};
ghost use Rattle.client_files.specs.Headings.{version_line, IsWindowLine, BeginsNumber};
ghost use Rattle.client_files.specs.declared.heading.Version as version_type;

use crate::client::WINDOW_LIMIT;

/// A version of the format.
#[derive(Debug, Clone, Copy, PartialEq, Eq)]
pub enum Version {
    /// Allowances in thousandths, and no client carries.
    One,
    /// Allowances in millionths, and clients may carry.
    Two,
}

/// The version that a first line names.
pub fn version_in(line: &str) -> Option<Version>
    ensures some { IfSome result (λ version. line.now ≡ version_line version) }
    ensures none { IfNone result ((version : version_type.Version) → ¬ (line.now ≡ version_line version)) }
{
    match line {
        "clients 1" => Some(Version::One),
        "clients 2" => Some(Version::Two),
        _ => None,
    }
}

/// The length of a window that a second line gives, in seconds.
pub fn window_in(line: &str) -> Option<u32>
    ensures some { IfSome result (λ seconds. IsWindowLine line.now seconds) }
    ensures none { IfNone result ((seconds : ℕ) → ¬ (IsWindowLine line.now seconds)) }
{
    let seconds = number_in(line.strip_prefix("window ")?)?;
    if seconds <= WINDOW_LIMIT {
        Some(seconds)
    } else {
        None
    }
}

/// The number above 0 that a text is, in decimal digits without a leading zero.
fn number_in(text: &str) -> Option<u32>
    ensures some { IfSome result (λ number. text.now ≡ decimal number) }
    ensures within { IfSome result (λ number. number < 2 ^ 32) }
    ensures above { IfSome result (λ number. 0 < number) }
    ensures none { IfNone result ((number : ℕ) → 0 < number → number < 2 ^ 32 → ¬ (text.now ≡ decimal number)) }
{
    if begins_number(text.as_bytes()) {
        text.parse::<u32>().ok()
    } else {
        None
    }
}

/// Whether a text begins with a digit other than 0.
fn begins_number(text: &[u8]) -> bool
    ensures { IsTrue result ↔ BeginsNumber text.now }
{
    match text.first() {
        Some(first) => b'1' <= *first && *first <= b'9',
        None => false,
    }
}
