//! What is sent for an operation that is accepted.

ghost use Rattle.std.specs.Prelude.{IfOk, string_bytes};
ghost use Rattle.acceptance.specs.Requests.{RequestData, Prepared, request_data, IsCheckFor};
ghost use Rattle.acceptance.specs.Forwarding.{IsFreeIn, IsSentText};

use crate::request::Request;
use counted_work::steps_of_text;
use document_rules::Checked;
use gql_base::Text;
use std::alloc::{AllocError, Global};
use typename_rewrite::{forwarded_body, rewrite};

/// What is sent to the upstream for an operation.
#[derive(Drop)]
pub struct Forwarded {
    /// The body of the request: its operation with the names of types added, and the values that are given for its variables.
    pub body: String,
    /// The response key under which the names of types were added. It is no name of the document.
    pub alias: Text,
}

/// What is sent to the upstream for an operation that was checked and whose variables have values. The text is said where each
/// object in what is given has each key once, as in all JSON that was read. Of a number that isn't whole it says only that it reads as it is given; a
/// schema without floats lets none be sent.
///
/// # Errors
///
/// `AllocError` where there was not enough memory, or no step was left, where they are counted.
pub fn sent_for(
    alloc: Global,
    request: &Request,
    checked: &Checked,
) -> Result<Forwarded, AllocError>
    requires checked { IsCheckFor (request_data request.now) checked.now }
    ensures alias { IfOk result (λ f. IsFreeIn (request_data request.now) f.alias) }
    ensures body { IfOk result (λ f. (p : Prepared (request_data request.now)) → IsSentText (request_data request.now) p f.alias (string_bytes f.body)) }
{
    let rewritten = rewrite(alloc, request.schema, checked)?;
    request
        .work
        .take(steps_of_text(rewritten.text.as_str().len()))?;
    let body = forwarded_body(alloc, checked.operation(), &rewritten, request.given)?;
    Ok(Forwarded {
        body,
        alias: rewritten.alias,
    })
}
