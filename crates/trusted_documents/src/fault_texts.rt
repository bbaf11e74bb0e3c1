//! The texts of faults: a stage, the number of the fault, its name, and what it holds.

ghost use Rattle.std.specs.Prelude.{◌≡◌, ◌++◌, IfOk, codes};
ghost use Rattle.std.specs.Fmt.{decimal};
ghost use Rattle.gql_base.specs.printing.OneLine.{shown_in_line as shown};
ghost use Rattle.trusted_documents.specs.FaultTexts.{trusted_fault_text, expand_fault_text};

use crate::fault::{ExpandFault, TrustedFault};
use gql_base::{Text, shown_in_line};
use std::alloc::{AllocError, Global};

/// A fault with its key.
fn with_key(alloc: Global, fault: &str, key: &Text) -> Result<Text, AllocError>
    ensures { IfOk result (λ text. text ≡ fault.now ++ shown key.now) }
{
    let key = shown_in_line(alloc, key.as_str())?;
    let key = key.as_str();
    Ok(Text::from(format!(in alloc; "{fault}{key}")?))
}

/// The text of a fault of a list: `trusted`, its number, its name, and its count or key. A control character of a key stands
/// as `\u00` and its two hexadecimal digits, so that the text is one line. Want of memory has no text.
///
/// # Errors
///
/// `AllocError` where there was not enough memory.
pub fn trusted_fault_text(alloc: Global, fault: &TrustedFault) -> Result<Text, AllocError>
    ensures { IfOk result (λ text. text ≡ trusted_fault_text fault.now) }
{
    match fault {
        TrustedFault::NotJson => Text::copy_of(alloc, "trusted 1 NotJson"),
        TrustedFault::NotObject => Text::copy_of(alloc, "trusted 2 NotObject"),
        TrustedFault::TooMany { count } => too_many(alloc, *count),
        TrustedFault::BadHash { key } => with_key(alloc, "trusted 4 BadHash ", key),
        TrustedFault::NotString { key } => with_key(alloc, "trusted 5 NotString ", key),
        TrustedFault::TooLong { key } => with_key(alloc, "trusted 6 TooLong ", key),
        TrustedFault::WrongHash { key } => with_key(alloc, "trusted 7 WrongHash ", key),
        TrustedFault::Memory => Text::copy_of(alloc, ""),
    }
}

/// The text where there are too many documents.
fn too_many(alloc: Global, count: usize) -> Result<Text, AllocError>
    ensures { IfOk result (λ text. text ≡ codes "trusted 3 TooMany " ++ decimal count) }
{
    Ok(Text::from(format!(in alloc; "trusted 3 TooMany {count}")?))
}

/// The text of a fault of a body: `expand`, its number and its name. Want of memory has no text.
pub fn expand_fault_text(fault: ExpandFault) -> &'static str
    ensures { result.now ≡ expand_fault_text fault }
{
    match fault {
        ExpandFault::BadExtension => "expand 1 BadExtension",
        ExpandFault::HashMismatch => "expand 2 HashMismatch",
        ExpandFault::UnknownHash => "expand 3 UnknownHash",
        ExpandFault::NotTrusted => "expand 4 NotTrusted",
        ExpandFault::Memory => "",
    }
}
