//! What is wrong with a body.

ghost use Rattle.std.specs.Prelude.{◌≡◌};
ghost use Rattle.request_bodies.specs.FaultTexts.{fault_text};

use std::alloc::AllocError;
use thiserror::Error;

/// Why a body is no request. Where several hold, it is the first of them in this order.
#[derive(Debug, Clone, Copy, PartialEq, Eq, Error)]
pub enum BodyFault {
    /// The body is no JSON: it isn't UTF-8, or `serde_json` doesn't read it.
    #[error("the body is no JSON")]
    NotJson,
    /// The body is no object.
    #[error("the body is no object")]
    NotObject,
    /// There is no `query`, or it is no string.
    #[error("the query of the body is no string")]
    NoQuery,
    /// There is an `operationName` that is neither a string nor null.
    #[error("the name of the operation is no string")]
    BadName,
    /// There are `variables` that are neither an object nor null.
    #[error("the variables are no object")]
    BadVariables,
    /// There was no memory.
    #[error("there was no memory for the body")]
    Memory,
}

impl From<AllocError> for BodyFault {
    ghost use Rattle.request_bodies.specs.declared.fault.BodyFault.TheVariants.{Memory};

    ghost from_gives = { λ _ fault. fault ≡ Memory };

    fn from(_failed: AllocError) -> BodyFault {
        BodyFault::Memory
    }
}

/// The text of a fault: `body`, its number and its name. Want of memory has no text.
pub fn fault_text(fault: BodyFault) -> &'static str
    ensures { result.now ≡ fault_text fault }
{
    match fault {
        BodyFault::NotJson => "body 1 NotJson",
        BodyFault::NotObject => "body 2 NotObject",
        BodyFault::NoQuery => "body 3 NoQuery",
        BodyFault::BadName => "body 4 BadName",
        BodyFault::BadVariables => "body 5 BadVariables",
        BodyFault::Memory => "",
    }
}
