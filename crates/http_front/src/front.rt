//! Requests one after the other.

ghost use Rattle.std.specs.Prelude.{◌≡◌, ◌≢◌, ◌+◌, ◌-◌, ◌≤◌, [], ℕ, List, false, Some, None, Ok, Err, IfOk, OnOk, IfSome, IsTrue, length, take, drop};
ghost use Rattle.std.specs.Io.KnownBytes.{IsAtEnd};
ghost use Rattle.outside.specs.Faults.{Rose};
ghost use Rattle.outside.specs.Taken.{Took, Taken};
ghost use Rattle.http_front.specs.Asks.{AskOf};
ghost use Rattle.http_front.specs.Service.{PieceSays, HeadSays, BodySays, AskSays, AtEndIs};

use crate::fault::FrontFault;
use crate::head::{Head, look_at};
use gql_base::Text;
use outside::{ReadFault, Source};
use std::alloc::{AllocError, Global};
use std::marker::Model;

/// A request for the gateway.
#[derive(Drop)]
pub struct Ask {
    /// The key of the client.
    pub key: Text,
    pub body: Vec<u8>,
    /// The lines of the fields that are passed on.
    pub passed: Vec<u8>,
    /// Whether the connection closes after the reply.
    pub close: bool,
}

/// Takes the next piece behind what is kept, and says whether the source is at its end.
fn take_piece<S: Source>(kept: &mut Vec<u8>, from: &mut S) -> Result<bool, FrontFault>
    ensures exact { (piece : List ℕ) × Took (S.left from.old) piece (S.left from.new) × PieceSays kept.old.items kept.new.items piece result }
    ensures end { IfOk result (λ ended. IsTrue ended → IsAtEnd (S.left from.new)) }
    ensures count { S.faults from.old ≤ S.faults from.new }
    ensures cause { result ≡ Err FrontFault.ReadFault → Rose (S.faults from.old) (S.faults from.new) }
    ensures still { result ≢ Err FrontFault.ReadFault → S.faults from.new ≡ S.faults from.old }
    ensures on { IfOk result (λ ended. ended ≡ false → S.ended from.new ≡ S.ended from.old) }
    ensures met { result ≡ Err FrontFault.ReadFault → S.ended from.new ≡ S.ended from.old }
{
    let mut piece = [0u8; 4096];
    match from.read(&mut piece) {
        Ok(0) => Ok(true),
        Ok(count) => match kept.extend_from_slice(&piece[..count]) {
            Ok(()) => Ok(false),
            Err(_) => Err(FrontFault::Memory),
        },
        Err(ReadFault) => Err(FrontFault::ReadFault),
    }
}

/// The fault of a source that ended before a whole head.
fn fault_at_end(kept: &[u8]) -> FrontFault
    ensures { AtEndIs kept.now result }
{
    if kept.is_empty() {
        FrontFault::End
    } else {
        FrontFault::BadHead
    }
}

/// A copy of the bytes from one place up to another.
fn part(alloc: Global, bytes: &[u8], from: usize, to: usize) -> Result<Vec<u8>, AllocError>
    requires ordered { from ≤ to }
    requires within { to ≤ length bytes.now }
    ensures { IfOk result (λ copy. copy.items ≡ take (to - from) (drop from bytes.now)) }
{
    bytes[from..to].to_vec(alloc)
}

/// Lets the first bytes go.
fn drop_front(kept: &mut Vec<u8>, count: usize)
    requires { count ≤ length kept.old.items }
    ensures { kept.new.items ≡ drop count kept.old.items }
{
    kept.drain(..count);
}

/// Takes pieces until a whole head stands at the front.
fn take_head<S: Source>(
    alloc: Global,
    names: &[Text],
    kept: &mut Vec<u8>,
    from: &mut S,
) -> Result<Head, FrontFault>
    ensures exact { Taken kept.old.items (S.left from.old) (S.left from.new) (HeadSays names.now kept.new.items result) }
    ensures within { IfOk result (λ head. (head.length ≤ 262144) × (head.len ≤ length kept.new.items)) }
    ensures count { S.faults from.old ≤ S.faults from.new }
    ensures cause { result ≡ Err FrontFault.ReadFault → Rose (S.faults from.old) (S.faults from.new) }
    ensures still { result ≢ Err FrontFault.ReadFault → S.faults from.new ≡ S.faults from.old }
    ensures on { OnOk result (S.ended from.new ≡ S.ended from.old) }
    ensures met { result ≡ Err FrontFault.ReadFault → S.ended from.new ≡ S.ended from.old }
{
    'pieces: loop {
        match look_at(alloc, names, kept) {
            Ok(Some(head)) => return Ok(head),
            Ok(None) => {}
            Err(fault) => return Err(fault),
        }
        match take_piece(kept, from) {
            Ok(true) => {
                return Err(fault_at_end(kept));
            }
            Ok(false) => {}
            Err(fault) => return Err(fault),
        }
    }
}

/// Takes pieces until so many bytes are there.
fn take_body<S: Source>(kept: &mut Vec<u8>, from: &mut S, total: usize) -> Result<(), FrontFault>
    ensures exact { Taken kept.old.items (S.left from.old) (S.left from.new) (BodySays total kept.new.items result) }
    ensures count { S.faults from.old ≤ S.faults from.new }
    ensures cause { result ≡ Err FrontFault.ReadFault → Rose (S.faults from.old) (S.faults from.new) }
    ensures still { result ≢ Err FrontFault.ReadFault → S.faults from.new ≡ S.faults from.old }
    ensures on { OnOk result (S.ended from.new ≡ S.ended from.old) }
    ensures met { result ≡ Err FrontFault.ReadFault → S.ended from.new ≡ S.ended from.old }
{
    while kept.len() < total {
        match take_piece(kept, from) {
            Ok(true) => {
                return Err(FrontFault::Truncated {
                    missing: (total - kept.len()) as u64,
                });
            }
            Ok(false) => {}
            Err(fault) => return Err(fault),
        }
    }
    Ok(())
}

/// Takes the next request.
fn take_ask<S: Source>(
    alloc: Global,
    names: &[Text],
    kept: &mut Vec<u8>,
    from: &mut S,
) -> Result<Ask, FrontFault>
    ensures exact { Taken kept.old.items (S.left from.old) (S.left from.new) (AskSays names.now kept.new.items result) }
    ensures count { S.faults from.old ≤ S.faults from.new }
    ensures cause { result ≡ Err FrontFault.ReadFault → Rose (S.faults from.old) (S.faults from.new) }
    ensures still { result ≢ Err FrontFault.ReadFault → S.faults from.new ≡ S.faults from.old }
    ensures on { OnOk result (S.ended from.new ≡ S.ended from.old) }
    ensures met { result ≡ Err FrontFault.ReadFault → S.ended from.new ≡ S.ended from.old }
{
    let head = match take_head(alloc, names, kept, from) {
        Ok(head) => head,
        Err(fault) => return Err(fault),
    };
    let total = head.len + head.length as usize;
    match take_body(kept, from, total) {
        Ok(()) => {}
        Err(fault) => return Err(fault),
    }
    let Ok(body) = part(alloc, kept, head.len, total) else {
        return Err(FrontFault::Memory);
    };
    drop_front(kept, total);
    Ok(Ask {
        key: head.key,
        body,
        passed: head.passed,
        close: head.close,
    })
}

/// The bytes of a source that were taken and belong to no request yet. After a fault there is no request any
/// more.
#[derive(Drop)]
pub struct Front {
    kept: Vec<u8>,
    failed: bool,
}

impl Model for Front {
    ghost use Rattle.std.specs.Prelude.{ℕ, List, Option, Some, None, if◌then◌else◌};

    ghost Value = { Option (List ℕ) };

    ghost view = { λ front. if front.failed then None else Some front.kept.items };
}

impl Front {
    /// A front that keeps nothing yet. It fails for want of memory alone.
    pub fn make(alloc: Global) -> Result<Front, AllocError>
        ensures { IfOk result (λ front. front ≡ Some []) }
    {
        Ok(Front {
            kept: Vec::with_capacity(alloc, 4096)?,
            failed: false,
        })
    }

    /// Takes the next request with the lines of its fields of these names, or tells the first fault. Bytes behind the request are
    /// kept for the next one. After a fault it answers `End`, without a read. `ReadFault` is told only where no read of this call met
    /// the end, and only with it the source's count changes.
    pub fn next<S: Source>(
        &mut self,
        alloc: Global,
        names: &[Text],
        from: &mut S,
    ) -> Result<Ask, FrontFault>
        ensures exact { IfSome self.old (λ kept. Taken kept (S.left from.old) (S.left from.new) (AskOf names.now self.new result)) }
        ensures over { self.old ≡ None → (result ≡ Err FrontFault.End) × (self.new ≡ None) × (from.new ≡ from.old) }
        ensures count { S.faults from.old ≤ S.faults from.new }
        ensures cause { result ≡ Err FrontFault.ReadFault → Rose (S.faults from.old) (S.faults from.new) }
        ensures still { result ≢ Err FrontFault.ReadFault → S.faults from.new ≡ S.faults from.old }
        ensures met { result ≡ Err FrontFault.ReadFault → S.ended from.new ≡ S.ended from.old }
    {
        if self.failed {
            return Err(FrontFault::End);
        }
        match take_ask(alloc, names, &mut self.kept, from) {
            Ok(ask) => Ok(ask),
            Err(fault) => {
                self.failed = true;
                Err(fault)
            }
        }
    }
}
