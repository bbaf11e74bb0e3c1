//! Laws on requests and faults.

ghost use Rattle.std.specs.Prelude.{◌≡◌, ◌⊎◌, ℕ, ◌++◌, List, Bool, true, false};
ghost use Rattle.http_front.specs.declared.fault.FrontFault.{FrontFault};
ghost use Rattle.http_front.specs.declared.fault.FrontFault.TheVariants as fault;
ghost use Rattle.http_front.specs.declared.front.Ask.{Ask};
ghost use Rattle.httparse.specs.Grammar.{Field, IsField};
ghost use Rattle.httparse.specs.Spans.{name_and_value};
ghost use Rattle.http_front.specs.Passed.{StandsInOneLine, ArePassedLines};
ghost use Rattle.http_front.specs.Asks.{IsAsk, IsUndecided, HasFault, HoldsRequest, HoldsFault, AreOne};

use crate::head::find_head;
use httparse::spans::EMPTY_HEADER_SPAN;

/// Bytes that begin with a request have no fault but want of memory. They begin with one request, which is
/// the same with other bytes behind them.
pub fn bytes_begin_with_one_request()
    ensures no_fault { (names : List (List ℕ)) (bytes rest : List ℕ) (ended : Bool) (ask : Ask) (f : FrontFault) → IsAsk names bytes ask rest → HasFault bytes ended f → f ≡ fault.Memory }
    ensures one { (names : List (List ℕ)) (bytes rest other : List ℕ) (a b : Ask) → IsAsk names bytes a rest → IsAsk names bytes b other
        → (a.key ≡ b.key) × (a.body.items ≡ b.body.items) × (a.passed.items ≡ b.passed.items) × (a.close ≡ b.close) × (rest ≡ other) }
    ensures later { (names : List (List ℕ)) (bytes rest more : List ℕ) (ask : Ask) → IsAsk names bytes ask rest → IsAsk names (bytes ++ more) ask (rest ++ more) }
{}

/// Bytes hold a whole request, or a fault whatever comes behind them, or it takes more bytes to tell.
pub fn bytes_hold_a_request_or_a_fault(bytes: &[u8])
    ensures either { HoldsRequest bytes.now ⊎ (HoldsFault bytes.now false ⊎ IsUndecided bytes.now) }
{
    let mut headers = [EMPTY_HEADER_SPAN; 64];
    let _ = find_head(bytes, &mut headers);
}

/// What is passed on of a field stands in one line: neither its name nor its value holds CR, LF or NUL.
pub fn fields_stand_in_one_line()
    ensures { (field : Field) → IsField field → StandsInOneLine (name_and_value field) }
{}

/// What is passed on of a request is nothing but whole lines of fields that may be passed on, in the grammar of heads: no empty line
/// is among them, so that they end no head.
pub fn what_is_passed_on_is_lines_of_fields()
    ensures { (names : List (List ℕ)) (bytes rest : List ℕ) (ask : Ask) → IsAsk names bytes ask rest → ArePassedLines ask.passed.items }
{}

/// Where it takes more bytes to tell and the end is met, the bytes have a fault. Two faults of the same bytes are the
/// same, but for want of memory and what the grammar of heads leaves open.
pub fn bytes_have_one_fault()
    ensures at_end { (bytes : List ℕ) → IsUndecided bytes → HoldsFault bytes true }
    ensures one_fault { (bytes : List ℕ) (ended : Bool) (f g : FrontFault) → HasFault bytes ended f → HasFault bytes ended g → AreOne bytes f g }
{}
