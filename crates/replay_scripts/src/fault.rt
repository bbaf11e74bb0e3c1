//! What is wrong with a script.

ghost use Rattle.std.specs.Prelude.{◌≡◌, IfOk};
ghost use Rattle.replay_scripts.specs.FaultTexts.{fault_text};

use gql_base::Text;
use std::alloc::{AllocError, AllocFailed, Global};
use thiserror::Error;

/// Why a text is no script: what is wrong with the first line at fault, by its number, counted from 1. Where several hold of
/// that line, it is the first of them in this order.
#[derive(Debug, Clone, Copy, PartialEq, Eq, Error)]
pub enum ScriptFault {
    /// The line is no step, or it is the 10,001st.
    #[error("line {line} of the script is no step")]
    BadLine {
        /// The line's number.
        line: usize,
    },
    /// The line begins a request with the id of one that began before.
    #[error("line {line} of the script begins a request of that id again")]
    RepeatedId {
        /// The line's number.
        line: usize,
    },
    /// The line ends a request that didn't begin before.
    #[error("line {line} of the script ends a request that no line before begins")]
    UnknownId {
        /// The line's number.
        line: usize,
    },
    /// There was no memory.
    #[error("there was no memory for the script")]
    Memory,
}

impl<T: Drop> From<AllocFailed<T>> for ScriptFault {
    ghost use Rattle.replay_scripts.specs.declared.fault.ScriptFault.TheVariants.{Memory};

    ghost from_gives = { λ _ fault. fault ≡ Memory };

    fn from(_failed: AllocFailed<T>) -> ScriptFault {
        ScriptFault::Memory
    }
}

/// The text of a fault: `script`, its number, its name, and its line. Want of memory has no text.
pub fn fault_text(alloc: Global, fault: ScriptFault) -> Result<Text, AllocError>
    ensures { IfOk result (λ text. text ≡ fault_text fault) }
{
    let text = match fault {
        ScriptFault::BadLine { line } => format!(in alloc; "script 1 BadLine {line}")?,
        ScriptFault::RepeatedId { line } => format!(in alloc; "script 2 RepeatedId {line}")?,
        ScriptFault::UnknownId { line } => format!(in alloc; "script 3 UnknownId {line}")?,
        ScriptFault::Memory => return Text::copy_of(alloc, ""),
    };
    Ok(Text::from(text))
}
