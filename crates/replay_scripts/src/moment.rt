//! Moments.

ghost use Rattle.std.specs.Prelude.{◌↔◌, ℕ, IsTrue, IfSome, IfNone};
ghost use Rattle.replay_scripts.specs.Words.{IsMoment, BeginsAboveNought};

/// The moment that a text is, in decimal digits without leading zeros.
pub fn moment_in(text: &str) -> Option<u64>
    ensures some { IfSome result (λ moment. IsMoment text.now moment) }
    ensures none { IfNone result ((moment : ℕ) → ¬ (IsMoment text.now moment)) }
{
    if text == "0" {
        Some(0)
    } else if begins_above_nought(text.as_bytes()) {
        text.parse::<u64>().ok()
    } else {
        None
    }
}

/// Whether a text begins with a digit other than 0.
fn begins_above_nought(text: &[u8]) -> bool
    ensures { IsTrue result ↔ BeginsAboveNought text.now }
{
    match text.first() {
        Some(first) => b'1' <= *first && *first <= b'9',
        None => false,
    }
}
