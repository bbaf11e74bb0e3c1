//! The statuses and messages of what is answered without a response.

ghost use Rattle.std.specs.Prelude.{◌≡◌, ◌++◌, ◌∷◌, ◌≤◌, IfOk, codes};
ghost use Rattle.std.specs.Fmt.{decimal};
ghost use Rattle.cost_num.specs.Within.{Within};
ghost use Rattle.cost_num.specs.CostText.{cost_text};
ghost use Rattle.gateway_core.specs.Rules.{greatest};
ghost use Rattle.gateway_core.specs.Messages.{message_body, denial_status, denial_text, link_status, link_text, reply_text};
ghost use Rattle.gateway_core.specs.Begins.{HasCostsWithin};

use crate::beginning::Denial;
use cost_num::{Cost, cost_bytes};
use gql_base::Text;
use local_introspection::{local_text, refusal_text};
use request_bodies::fault_text;
use response_meter::{MeterFault, Why, why_name};
use response_model::write_error_response;
use std::alloc::{AllocError, Global};
use trusted_documents::expand_fault_text;
use upstream_link::LinkFault;

/// The body that tells a message: a response with one error and no data (GraphQL October 2021, 7.1).
///
/// # Errors
///
/// `AllocError` where there was not enough memory.
pub fn message_body(alloc: Global, message: &str) -> Result<Text, AllocError>
    ensures { IfOk result (λ body. body ≡ message_body message.now) }
{
    let mut body = String::new(alloc);
    write_error_response(alloc, message, &mut body)?;
    Ok(Text::from(body))
}

/// A cost as it is printed: the type cost, a space and the field cost, with at least three decimal places each.
///
/// # Errors
///
/// `AllocError` where there was not enough memory.
pub fn printed_cost(alloc: Global, cost: Cost) -> Result<Text, AllocError>
    requires { Within greatest cost }
    ensures { IfOk result (λ text. text ≡ cost_text cost) }
{
    let mut buffer = [0u8; 48];
    let length = cost_bytes(cost, &mut buffer);
    match std::str::from_utf8(&buffer[..length]) {
        Ok(text) => Text::copy_of(alloc, text),
        Err(_) => unreachable!(),
    }
}

/// The status of a denial.
pub fn denial_status(denial: &Denial) -> u16
    ensures { result ≡ denial_status denial.now }
{
    match denial {
        Denial::UnknownKey => 401,
        Denial::Unexpanded(_) => 400,
        Denial::BadBody(_) => 400,
        Denial::Refused(_) => 400,
        Denial::NotLocal(_) => 400,
        Denial::Short { left: _, bound: _ } => 429,
        Denial::Full => 503,
        Denial::Work => 400,
        Denial::Memory => 500,
    }
}

// The message of what is refused, with the text that says why.
fn refused(alloc: Global, text: &str) -> Result<Text, AllocError>
    ensures { IfOk result (λ message. message ≡ codes "REFUSED " ++ text.now) }
{
    Ok(Text::from(format!(in alloc; "REFUSED {text}")?))
}

// The message of an account that is short.
fn over_budget(alloc: Global, left: Cost, bound: Cost) -> Result<Text, AllocError>
    requires left { Within greatest left }
    requires bound { Within greatest bound }
    ensures { IfOk result (λ message. message ≡ denial_text (Denial.Short left bound)) }
{
    let left = printed_cost(alloc, left)?;
    let bound = printed_cost(alloc, bound)?;
    let left = left.as_str();
    let bound = bound.as_str();
    Ok(Text::from(format!(in alloc; "OVER_BUDGET left {left} bound {bound}")?))
}

/// The message of a denial.
///
/// # Errors
///
/// `AllocError` where there was not enough memory.
pub fn denial_message(alloc: Global, denial: &Denial) -> Result<Text, AllocError>
    requires { HasCostsWithin denial.now }
    ensures { IfOk result (λ message. message ≡ denial_text denial.now) }
{
    match denial {
        Denial::UnknownKey => Text::copy_of(alloc, "UNKNOWN_KEY"),
        Denial::Unexpanded(fault) => refused(alloc, expand_fault_text(*fault)),
        Denial::BadBody(fault) => refused(alloc, fault_text(*fault)),
        Denial::Refused(refusal) => {
            let text = refusal_text(alloc, refusal)?;
            refused(alloc, text.as_str())
        }
        Denial::NotLocal(fault) => {
            let text = local_text(alloc, fault)?;
            refused(alloc, text.as_str())
        }
        Denial::Short { left, bound } => over_budget(alloc, *left, *bound),
        Denial::Full => Text::copy_of(alloc, "JOURNAL_FULL"),
        Denial::Work => refused(alloc, "work 1 TooMuch"),
        Denial::Memory => Text::copy_of(alloc, "NO_MEMORY"),
    }
}

/// The status where there is no reply of the upstream.
pub(crate) fn link_status(fault: LinkFault) -> u16
    ensures { result ≡ link_status fault }
{
    match fault {
        LinkFault::Down => 503,
        LinkFault::Memory => 500,
        _ => 502,
    }
}

/// The message where there is no reply of the upstream.
///
/// # Errors
///
/// `AllocError` where there was not enough memory.
pub(crate) fn link_message(alloc: Global, fault: LinkFault) -> Result<Text, AllocError>
    ensures { IfOk result (λ message. message ≡ link_text fault) }
{
    let message = match fault {
        LinkFault::Down => "UPSTREAM_DOWN",
        LinkFault::Failed => "UPSTREAM_FAILED",
        LinkFault::BadReplyHead => "BAD_UPSTREAM 3 BadReplyHead",
        LinkFault::Coded => "BAD_UPSTREAM 4 Coded",
        LinkFault::TooLarge => "BAD_UPSTREAM 5 TooLarge",
        LinkFault::Truncated => "BAD_UPSTREAM 6 Truncated",
        LinkFault::BadChunk => "BAD_UPSTREAM 7 BadChunk",
        LinkFault::Memory => "NO_MEMORY",
    };
    Text::copy_of(alloc, message)
}

/// The message of a reply that is no response.
///
/// # Errors
///
/// `AllocError` where there was not enough memory.
pub(crate) fn not_response(alloc: Global, path: &Text, why: Why) -> Result<Text, AllocError>
    ensures { IfOk result (λ message. message ≡ reply_text (MeterFault.NotResponse path.now why)) }
{
    let path = path.as_str();
    let name = why_name(why);
    Ok(Text::from(format!(in alloc; "NOT_RESPONSE {path} {name}")?))
}

// A declared size and the length of a list.
fn size_and_length(alloc: Global, size: u64, length: u64) -> Result<Text, AllocError>
    ensures { IfOk result (λ text. text ≡ decimal size ++ (32 ∷ decimal length)) }
{
    Ok(Text::from(format!(in alloc; "{size} {length}")?))
}

/// The message of a list that is longer than its declared size.
///
/// # Errors
///
/// `AllocError` where there was not enough memory.
pub(crate) fn size_broken(
    alloc: Global,
    path: &Text,
    size: u64,
    length: u64,
) -> Result<Text, AllocError>
    ensures { IfOk result (λ message. message ≡ reply_text (MeterFault.SizeBroken path.now size length)) }
{
    let path = path.as_str();
    let numbers = size_and_length(alloc, size, length)?;
    let numbers = numbers.as_str();
    Ok(Text::from(format!(in alloc; "SIZE_BROKEN {path} {numbers}")?))
}
