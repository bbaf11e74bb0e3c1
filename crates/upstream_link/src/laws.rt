//! Laws on requests and replies.

ghost use Rattle.std.specs.Prelude.{◌≡◌, ◌⊎◌, ◌≤◌, ℕ, ◌++◌, List, Bool, true, false, Some, Ok, Err, length, take, drop};
ghost use Rattle.httparse.specs.Grammar.{Field, ReadsRequest};
ghost use Rattle.upstream_link.specs.declared.fault.LinkFault.{LinkFault};
ghost use Rattle.upstream_link.specs.declared.fault.LinkFault.TheVariants as fault;
ghost use Rattle.upstream_link.specs.declared.reply.UpstreamReply.{UpstreamReply};
ghost use Rattle.upstream_link.specs.Replies.{ReplyOf, HoldsReply, HoldsFault, IsUndecided, AreOne};
ghost use Rattle.upstream_link.specs.Service.{IsSeen, AreSeen};
ghost use Rattle.upstream_link.specs.RequestBytes.{MayBeSent, IsReadAsOne, bytes_with, head_with};
ghost use Rattle.upstream_link.specs.Chunks.{trailer_length};
ghost use Rattle.upstream_link.specs.Trailers.{IsTrailer};

use crate::chunks::{after, look_at};
use crate::heads::look_at_head;

/// Where target, host and the lines of further fields are in the grammar of heads, a request is one head with the fields that every request
/// has, just these further ones behind them, and the body behind it. No line that is passed on ends the head or begins another request.
pub fn a_request_is_one_head()
    ensures reads { (host target body : List ℕ) (further : List Field) → MayBeSent host target further body
        → ReadsRequest (bytes_with host target further body) (head_with host target further body) body }
    ensures one { (host target body : List ℕ) (further : List Field) → MayBeSent host target further body
        → IsReadAsOne (bytes_with host target further body) (head_with host target further body) body }
{}

/// What is passed over behind the last chunk is a trailer: lines that aren't empty, and then an empty one. It has a length just where such
/// bytes stand at the front, and then it is theirs.
pub fn a_trailer_is_lines()
    ensures found { (bytes : List ℕ) (n : ℕ) → trailer_length bytes ≡ Some n → (n ≤ length bytes) × IsTrailer (take n bytes) }
    ensures only { (trailer rest : List ℕ) → IsTrailer trailer → trailer_length (trailer ++ rest) ≡ Some (length trailer) }
{}

/// Bytes that begin with a whole reply have no fault but want of memory. They begin with one reply, and one that
/// is whole before the end was met is the same with other bytes behind it.
pub fn bytes_begin_with_one_reply()
    ensures no_fault { (bytes : List ℕ) (ended : Bool) (reply : UpstreamReply) (f : LinkFault) → ReplyOf (Ok reply) bytes ended → ReplyOf (Err f) bytes ended
        → f ≡ fault.Memory }
    ensures one { (bytes : List ℕ) (ended : Bool) (a b : UpstreamReply) → ReplyOf (Ok a) bytes ended → ReplyOf (Ok b) bytes ended
        → (a.status ≡ b.status) × (a.body.items ≡ b.body.items) }
    ensures later { (bytes more : List ℕ) (ended : Bool) (reply : UpstreamReply) → ReplyOf (Ok reply) bytes false → ReplyOf (Ok reply) (bytes ++ more) ended }
{}

/// Bytes hold a whole reply, or a fault whatever comes behind them, or it takes more bytes or their end to tell.
pub fn bytes_hold_a_reply_or_a_fault(bytes: &[u8])
    ensures either { HoldsReply bytes.now false ⊎ (HoldsFault bytes.now false ⊎ IsUndecided bytes.now) }
{
    look_everywhere(bytes);
}

/// Where it takes more bytes or their end to tell, and the end is met, the bytes hold a reply or a fault. Two faults of
/// the same bytes are the same, but for want of memory and a head that is open and has too many fields already, which may
/// be told as bad or, with the end, as cut off, or as a failed transfer.
pub fn bytes_have_one_fault()
    ensures at_end { (bytes : List ℕ) → IsUndecided bytes → HoldsReply bytes true ⊎ HoldsFault bytes true }
    ensures one_fault { (bytes : List ℕ) (ended : Bool) (f g : LinkFault) → ReplyOf (Err f) bytes ended → ReplyOf (Err g) bytes ended → AreOne bytes f g }
{}

// Looks at the front of the bytes for a head and for a size line.
fn look_here(here: &[u8])
    ensures { IsSeen here.now }
{
    let _ = look_at_head(here);
    let _ = look_at(here);
}

// Looks at each place of the bytes.
fn look_everywhere(bytes: &[u8])
    ensures { AreSeen bytes.now }
{
    let mut at = 0;
    'places: while at <= bytes.len() {
        look_here(after(bytes, at));
        at += 1;
    }
}
