//! Replies, and how they are written.

ghost use Rattle.std.specs.Prelude.{◌≡◌, ◌≤◌, ◌≢◌, [], None, Some, IfOk, OnOk, OnErr, IfSome};
ghost use Rattle.std.specs.Io.KnownBytes.{Appends};
ghost use Rattle.outside.specs.Contents.{AppendsFront};
ghost use Rattle.outside.specs.Faults.{Rose};
ghost use Rattle.cost_num.specs.Within.{Within};
ghost use Rattle.gateway_core.specs.Rules.{greatest};
ghost use Rattle.http_front.specs.ReplyBytes.{status_text, AreCosts, IsHint};
ghost use Rattle.gateway_core.specs.Begins.{HasCostsWithin};
ghost use Rattle.gateway_core.specs.Messages.{message_body, no_memory_text};
ghost use Rattle.gateway_connections.specs.Replies.{reply_as, bytes_with, Tells, IsTold, IsWritable, IsDenialReply, finished_reply, IsFaultReply, fault_status, fault_message, written};

use cost_num::Cost;
use gateway_core::{Denial, Finished, denial_message, denial_status, message_body};
use gql_base::Text;
use http_front::{Answer, FrontFault, Hint, write_reply};
use outside::{Sink, WriteFault};
use std::alloc::{AllocError, Global};
use std::mem;

/// A reply to a client.
#[derive(Debug, Drop)]
pub struct Reply {
    pub status: u16,
    /// The bound and the charge, in millionths, where the request was granted.
    pub costs: Option<(Cost, Cost)>,
    /// What helps a client whose account is short.
    pub hint: Option<Hint>,
    /// The body. It is empty where there was no memory for it, and a constant one is written then.
    pub body: Text,
}

// The reply that takes no memory.
fn starved(alloc: Global) -> Reply
    ensures { result ≡ reply_as 500 None [] }
{
    Reply {
        status: 500,
        costs: None,
        hint: None,
        body: Text::from(String::new(alloc)),
    }
}

// The reply of a status that tells a message, with a hint if there is one; or the one that takes no memory.
fn told(alloc: Global, status: u16, hint: Option<Hint>, message: Result<Text, AllocError>) -> Reply
    requires status { status_text status ≢ [] }
    requires hint { IfSome hint IsHint }
    ensures told { IsTold hint message status result }
    ensures writable { IsWritable result }
{
    let Ok(message) = message else {
        return starved(alloc);
    };
    match message_body(alloc, message.as_str()) {
        Ok(body) => Reply {
            status,
            costs: None,
            hint,
            body,
        },
        Err(_) => starved(alloc),
    }
}

/// The reply to a denial, with a hint if there is one.
pub(crate) fn denial_reply(alloc: Global, denial: &Denial, hint: Option<Hint>) -> Reply
    requires costs { HasCostsWithin denial.now }
    requires hint { IfSome hint IsHint }
    ensures reply { IsDenialReply hint denial.now result }
    ensures writable { IsWritable result }
{
    told(
        alloc,
        denial_status(denial),
        hint,
        denial_message(alloc, denial),
    )
}

/// The reply to what the gateway answers itself.
pub(crate) fn answered_reply(finished: Finished) -> Reply
    requires status { status_text finished.status ≢ [] }
    requires bound { Within greatest finished.bound }
    requires charged { Within greatest finished.charged }
    ensures reply { result ≡ finished_reply finished }
    ensures writable { IsWritable result }
{
    Reply {
        status: finished.status,
        costs: Some((finished.bound, finished.charged)),
        hint: None,
        body: finished.body,
    }
}

// The status of a fault.
fn fault_status(fault: FrontFault) -> u16
    ensures status { result ≡ fault_status fault }
    ensures known { status_text result ≢ [] }
{
    match fault {
        FrontFault::BadHead => 400,
        FrontFault::HeadTooLarge => 431,
        FrontFault::NotFound => 404,
        FrontFault::BadMethod => 405,
        FrontFault::NoKey => 401,
        FrontFault::Coded => 415,
        FrontFault::BadMedia => 415,
        FrontFault::Chunked => 501,
        FrontFault::NoLength => 411,
        FrontFault::BadLength => 400,
        FrontFault::BodyTooLarge { length: _ } => 413,
        FrontFault::Truncated { missing: _ } => 400,
        FrontFault::End | FrontFault::ReadFault | FrontFault::Memory => 500,
    }
}

// The message of a fault.
fn fault_message(alloc: Global, fault: FrontFault) -> Result<Text, AllocError>
    ensures { IfOk result (λ message. message ≡ fault_message fault) }
{
    let message = match fault {
        FrontFault::BadHead => "BAD_HEAD",
        FrontFault::HeadTooLarge => "HEAD_TOO_LARGE",
        FrontFault::NotFound => "NOT_FOUND",
        FrontFault::BadMethod => "BAD_METHOD",
        FrontFault::NoKey => "NO_KEY",
        FrontFault::Coded => "CODED",
        FrontFault::BadMedia => "BAD_MEDIA",
        FrontFault::Chunked => "CHUNKED",
        FrontFault::NoLength => "NO_LENGTH",
        FrontFault::BadLength => "BAD_LENGTH",
        FrontFault::BodyTooLarge { length } => {
            return Ok(Text::from(format!(in alloc; "BODY_TOO_LARGE {length}")?));
        }
        FrontFault::Truncated { missing } => {
            return Ok(Text::from(format!(in alloc; "TRUNCATED {missing}")?));
        }
        FrontFault::End | FrontFault::ReadFault | FrontFault::Memory => "NO_MEMORY",
    };
    Text::copy_of(alloc, message)
}

// The reply to a fault that is replied to.
fn fault_told(alloc: Global, fault: FrontFault) -> Reply
    ensures told { Tells None (fault_status fault) (fault_message fault) result }
    ensures writable { IsWritable result }
{
    told(
        alloc,
        fault_status(fault),
        None,
        fault_message(alloc, fault),
    )
}

/// The reply to a fault of the next request, where it has one.
pub(crate) fn fault_reply(alloc: Global, fault: FrontFault) -> Option<Reply>
    ensures reply { IsFaultReply fault result }
    ensures writable { IfSome result IsWritable }
{
    match fault {
        FrontFault::End => None,
        FrontFault::ReadFault => None,
        fault => Some(fault_told(alloc, fault)),
    }
}

/// The body that is written where there was no memory for one.
pub(crate) fn spare_body(alloc: Global) -> Result<Vec<u8>, AllocError>
    ensures { IfOk result (λ body. body.items ≡ message_body no_memory_text) }
{
    Ok(message_body(alloc, "NO_MEMORY")?.into_bytes())
}

// Writes a reply with this body, and hands the body back.
fn write_with<K: Sink>(
    to: &mut K,
    status: u16,
    close: bool,
    costs: Option<(Cost, Cost)>,
    hint: Option<Hint>,
    body: Vec<u8>,
) -> (Result<(), WriteFault>, Vec<u8>)
    requires status { status_text status ≢ [] }
    requires costs { IfSome costs AreCosts }
    requires hint { IfSome hint IsHint }
    ensures whole { OnOk result.0 (Appends (K.written to.old) (K.written to.new) (bytes_with close status costs hint body.items)) }
    ensures front { OnErr result.0 (AppendsFront (K.written to.old) (K.written to.new) (bytes_with close status costs hint body.items)) }
    ensures count { K.faults to.old ≤ K.faults to.new }
    ensures still { OnOk result.0 (K.faults to.new ≡ K.faults to.old) }
    ensures cause { OnErr result.0 (Rose (K.faults to.old) (K.faults to.new)) }
    ensures body { result.1 ≡ body }
{
    let answer = Answer {
        status,
        close,
        costs,
        hint,
        body,
    };
    let wrote = write_reply(to, &answer);
    let Answer {
        status: _,
        close: _,
        costs: _,
        hint: _,
        body,
    } = answer;
    (wrote, body)
}

/// Writes a reply, with the spare body where it has none. It takes no memory.
pub(crate) fn write<K: Sink>(
    alloc: Global,
    to: &mut K,
    close: bool,
    reply: Reply,
    spare: &mut Vec<u8>,
) -> Result<(), WriteFault>
    requires writable { IsWritable reply }
    requires spare { spare.old.items ≡ message_body no_memory_text }
    ensures whole { OnOk result (Appends (K.written to.old) (K.written to.new) (written close reply)) }
    ensures front { OnErr result (AppendsFront (K.written to.old) (K.written to.new) (written close reply)) }
    ensures count { K.faults to.old ≤ K.faults to.new }
    ensures still { OnOk result (K.faults to.new ≡ K.faults to.old) }
    ensures cause { OnErr result (Rose (K.faults to.old) (K.faults to.new)) }
    ensures spare { spare.new.items ≡ message_body no_memory_text }
{
    let Reply {
        status,
        costs,
        hint,
        body,
    } = reply;
    let body = body.into_bytes();
    if !body.is_empty() {
        return write_with(to, status, close, costs, hint, body).0;
    }
    let held = mem::replace(spare, Vec::new(alloc));
    let (wrote, held) = write_with(to, status, close, costs, hint, held);
    *spare = held;
    wrote
}
