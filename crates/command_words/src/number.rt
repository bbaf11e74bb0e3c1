//! Numbers among the words.

ghost use Rattle.std.specs.Prelude.{IfSome, IfNone, ℕ};
ghost use Rattle.command_words.specs.Words.{IsNumber};

/// The number that a text is, in one decimal digit or more without a sign, where it is no greater than `most`.
pub fn number_of(text: &str, most: u32) -> Option<u32>
    ensures some { IfSome result (λ n. IsNumber most text.now n) }
    ensures none { IfNone result ((n : ℕ) → IsNumber most text.now n → ⊥) }
{
    if text.as_bytes().first() == Some(&b'+') {
        return None;
    }
    match text.parse::<u32>() {
        Ok(number) if number <= most => Some(number),
        _ => None,
    }
}
