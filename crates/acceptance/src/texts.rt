//! Pieces of the texts of refusals.

ghost use Rattle.std.specs.Prelude.{◌≡◌, ◌++◌, IfOk, IfSome, IfNone, string_bytes};
ghost use Rattle.std.specs.Fmt.{signed_decimal};
ghost use Rattle.acceptance.specs.Texts.{placed, beside, naming, lexical_text};

use gql_base::{LexFault, Text, shown_in_line};
use std::alloc::{AllocError, Global};

/// What stands before the place of what is wrong with the tokens of a text, and the place; nothing where the fault is want
/// of memory.
pub fn lexical_place(fault: LexFault) -> Option<(&'static str, usize)>
    ensures text { IfSome result (λ told. placed told.0.now told.1 ≡ lexical_text fault) }
    ensures none { IfNone result (fault ≡ LexFault.Memory) }
{
    match fault {
        LexFault::BadChar { at } => Some(("1 Lex 1 BadChar", at)),
        LexFault::BadNumber { at } => Some(("1 Lex 2 BadNumber", at)),
        LexFault::OpenText { at } => Some(("1 Lex 3 OpenText", at)),
        LexFault::BadEscape { at } => Some(("1 Lex 4 BadEscape", at)),
        LexFault::FloatValue { at } => Some(("1 Lex 5 FloatValue", at)),
        LexFault::Memory => None,
    }
}

/// A text, a space, and a place or a number.
pub fn placed(alloc: Global, text: &str, at: usize) -> Result<String, AllocError>
    ensures { IfOk result (λ told. string_bytes told ≡ placed text.now at) }
{
    format!(in alloc; "{text} {at}")
}

/// The same behind a stage.
pub fn placed_in(alloc: Global, stage: &str, text: &str, at: usize) -> Result<String, AllocError>
    ensures { IfOk result (λ told. string_bytes told ≡ stage.now ++ placed text.now at) }
{
    format!(in alloc; "{stage}{text} {at}")
}

/// A text, a space, and another.
pub fn beside(alloc: Global, text: &str, other: &str) -> Result<String, AllocError>
    ensures { IfOk result (λ told. string_bytes told ≡ beside text.now other.now) }
{
    format!(in alloc; "{text} {other}")
}

/// A text, a space, and a name or the place of something that has one, with its control characters by their numbers.
pub fn named(alloc: Global, text: &str, name: &Text) -> Result<String, AllocError>
    ensures { IfOk result (λ told. string_bytes told ≡ naming text.now name.now) }
{
    let shown = shown_in_line(alloc, name.as_str())?;
    beside(alloc, text, shown.as_str())
}

/// A text and two names after it.
pub fn named_twice(
    alloc: Global,
    text: &str,
    name: &Text,
    other: &Text,
) -> Result<String, AllocError>
    ensures { IfOk result (λ told. string_bytes told ≡ naming (naming text.now name.now) other.now) }
{
    let first = named(alloc, text, name)?;
    named(alloc, first.as_str(), other)
}

// A text, a space, and a number with its sign.
pub(crate) fn numbered(alloc: Global, text: &str, number: i32) -> Result<String, AllocError>
    ensures { IfOk result (λ told. string_bytes told ≡ beside text.now (signed_decimal number)) }
{
    format!(in alloc; "{text} {number}")
}
