//! What holds of all exchanges. This function does nothing: its contract is the law.

ghost use Rattle.std.specs.Prelude.{◌≡◌, ◌⊎◌, ℕ, ⊤};
ghost use Rattle.upstream_link.specs.declared.reply.UpstreamReply.{UpstreamReply};
ghost use Rattle.gateway_core.specs.PassedOn.{Local};
ghost use Rattle.gateway_core.specs.Measures.{Metered, HasNamedTypes};
ghost use Rattle.gateway_connections.specs.Exchanges.{Service, Exchange, WasAnswered, IsExchange};
ghost use Rattle.gateway_connections.specs.Measured.{WasExchanged, WasBrought, IsDue, WasGivenOr500, WasDueAndGiven, IsDueHere, WasGivenHere};

use gateway_core::{a_body_comes_to_one_thing, a_reply_to_a_body_has_one_measure};
use upstream_link::laws::bytes_begin_with_one_reply;

/// A response that is due is given with 200, as it was measured, and settled at its cost, or memory was wanting, and so is an answer of the gateway's own;
/// and 200 is replied only where a response
/// was due, which one dial to the upstream brought, and was given, or where the gateway answered itself. So for one body and one reply
/// of the upstream there are not both 200 and 502. The types of the schema have different names, as those of a schema that is built
/// have.
pub fn a_response_is_given_where_it_is_due()
    ensures given { (s : Service) (made : ℕ) (x : Exchange) (metered : Metered) → HasNamedTypes s.rules → IsExchange s made ⊤ x → IsDue s made x metered → WasGivenOr500 s made x metered }
    ensures given_here { (s : Service) (made : ℕ) (x : Exchange) (answer : Local) → IsExchange s made ⊤ x → IsDueHere s made x answer → WasGivenHere s x answer ⊎ (x.reply.status ≡ 500) }
    ensures due { (s : Service) (made : ℕ) (x : Exchange) → IsExchange s made ⊤ x → x.reply.status ≡ 200 → WasDueAndGiven s made x ⊎ WasAnswered s made ⊤ x }
    ensures not_both { (s : Service) (x y : Exchange) (reply : UpstreamReply) → HasNamedTypes s.rules → WasExchanged s x → WasExchanged s y
        → x.ask.body.items ≡ y.ask.body.items → WasBrought reply x → WasBrought reply y → x.reply.status ≡ 200 → y.reply.status ≡ 502 → ⊥ }
{
    a_body_comes_to_one_thing();
    a_reply_to_a_body_has_one_measure();
    bytes_begin_with_one_reply();
}
