//! Reading the request of a body by a list.

ghost use Rattle.std.specs.Prelude.{◌≡◌, ◌≢◌, None, Some, IfOk, IfErr};
ghost use Rattle.request_bodies.specs.Bodies.{RequestData, request_data};
ghost use Rattle.trusted_documents.specs.Listings.{listing_of, listing_in};
ghost use Rattle.trusted_documents.specs.Requests.{IsRequestBy, IsUnreadBy};
ghost use Rattle.trusted_documents.specs.Answers.{GivesRequest, TellsReason};
ghost use Rattle.trusted_documents.specs.declared.requests.Unread.{Unread as Reason};
ghost use Rattle.trusted_documents.specs.declared.requests.Unread.TheVariants.{Memory as NoMemory};

use crate::expanding::{Expanded, expand};
use crate::fault::ExpandFault;
use crate::laws::a_body_is_one_request_by_a_list;
use crate::listing::Trusted;
use request_bodies::{BodyFault, Request, read_request};
use std::alloc::Global;

/// Why a body is no request.
#[derive(Debug, Clone, Copy, PartialEq, Eq)]
pub enum Unread {
    /// By the list it isn't expanded. The fault isn't want of memory.
    Unexpanded(ExpandFault),
    /// It is no request. The fault isn't want of memory.
    BadBody(BodyFault),
    /// There was no memory.
    Memory,
}

/// The request that a body is by itself.
fn own_request(alloc: Global, body: &[u8]) -> Result<Request, Unread>
    ensures request { IfOk result (λ request. IsRequestBy None body.now (request_data request)) }
    ensures unread { IfErr result (IsUnreadBy None body.now) }
{
    match read_request(alloc, body) {
        Ok(request) => Ok(request),
        Err(BodyFault::Memory) => Err(Unread::Memory),
        Err(fault) => Err(Unread::BadBody(fault)),
    }
}

/// The request that a body is by a list.
fn listed_request(alloc: Global, trusted: &Trusted, body: &[u8]) -> Result<Request, Unread>
    ensures request { IfOk result (λ request. IsRequestBy (Some (listing_of trusted.now)) body.now (request_data request)) }
    ensures unread { IfErr result (IsUnreadBy (Some (listing_of trusted.now)) body.now) }
{
    match expand(alloc, trusted, body) {
        Ok(Expanded::Plain) => own_request(alloc, body),
        Ok(Expanded::Body(expanded)) => own_request(alloc, expanded.as_slice()),
        Err(ExpandFault::Memory) => Err(Unread::Memory),
        Err(fault) => Err(Unread::Unexpanded(fault)),
    }
}

/// The request that a body is, by a list if there is one.
fn request_by(alloc: Global, trusted: Option<&Trusted>, body: &[u8]) -> Result<Request, Unread>
    ensures request { IfOk result (λ request. IsRequestBy (listing_in trusted.entry) body.now (request_data request)) }
    ensures unread { IfErr result (IsUnreadBy (listing_in trusted.entry) body.now) }
{
    match trusted {
        Some(trusted) => listed_request(alloc, trusted, body),
        None => own_request(alloc, body),
    }
}

/// Reads the body of a request, as `read_request` of `request_bodies` does. Where there is a list, the body is first expanded
/// by it, and then read.
///
/// # Errors
///
/// The fault of the expansion, or else that of the body as a request; where there is no memory it may tell that.
pub fn read_request_by(
    alloc: Global,
    trusted: Option<&Trusted>,
    body: &[u8],
) -> Result<Request, Unread>
    ensures request { IfOk result (λ request. IsRequestBy (listing_in trusted.entry) body.now (request_data request)) }
    ensures unread { IfErr result (IsUnreadBy (listing_in trusted.entry) body.now) }
    ensures only_request { (asked : RequestData) → IsRequestBy (listing_in trusted.entry) body.now asked → GivesRequest asked result }
    ensures only_reason { (reason : Reason) → reason ≢ NoMemory → IsUnreadBy (listing_in trusted.entry) body.now reason → TellsReason reason result }
{
    a_body_is_one_request_by_a_list();
    request_by(alloc, trusted, body)
}
