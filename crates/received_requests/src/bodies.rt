//! What holds of the bodies that are sent.

ghost use Rattle.std.specs.Prelude.{◌≡◌, ◌<◌, ℕ, List, Some, option_map, true, codes};
ghost use Rattle.std.specs.Str.{is_utf8};
ghost use Rattle.serde_json.specs.Data.{Data, string, depth};
ghost use Rattle.serde_json.specs.Find.{get};
ghost use Rattle.serde_json.specs.Read.{max_depth, read as read_text};
ghost use Rattle.request_bodies.specs.Bodies.{RequestData as BodyData, IsRequest};
ghost use Rattle.typename_rewrite.specs.ForwardedBodies.{members_of};
ghost use Rattle.acceptance.specs.Requests.{RequestData, Prepared};
ghost use Rattle.acceptance.specs.Keys.{HasEachKeyOnce};
ghost use Rattle.acceptance.specs.Forwarding.{IsFreeIn, sent_text, sent_body, IsGivenAsRead, IsSentText};
ghost use Rattle.sent_documents.specs.SentTexts.{IsClientText};
ghost use Rattle.received_requests.specs.Received.{variables_sent, name_sent};
ghost use Rattle.received_requests.specs.Bodies.{keys_of, body_keys, request_sent, AsksForReceived};

use crate::laws::what_is_read_is_received;
use acceptance::sent_texts_are_read_alike;

/// The body that is sent has just the document, the variables and, where the operation has one, its name (GraphQL over HTTP). Where
/// what is given has each key once, so has the body.
pub fn what_the_body_holds()
    ensures query { (r : RequestData) (p : Prepared r) (alias : List ℕ) → get (codes "query") (sent_body r p alias) ≡ Some (string (sent_text r p alias)) }
    ensures variables { (r : RequestData) (p : Prepared r) (alias : List ℕ) → get (codes "variables") (sent_body r p alias) ≡ Some (variables_sent r p) }
    ensures name { (r : RequestData) (p : Prepared r) (alias : List ℕ) → get (codes "operationName") (sent_body r p alias) ≡ option_map (λ name. string name) (name_sent r p) }
    ensures keys { (r : RequestData) (p : Prepared r) (alias : List ℕ) → keys_of (members_of (sent_body r p alias)) ≡ body_keys (name_sent r p) }
    ensures once { (r : RequestData) (p : Prepared r) (alias : List ℕ) → HasEachKeyOnce r.given → HasEachKeyOnce (sent_body r p alias) }
{}

/// What a file or a client's body gives for the variables comes from a reader, as the next law asks for: a file's where it leaves a level of nesting, a body's always.
pub fn what_is_given_is_read()
    ensures of_file { (r : RequestData) (text : List ℕ) → read_text text ≡ Some r.given → depth r.given < max_depth → IsGivenAsRead r.given }
    ensures of_body { (r : RequestData) (body : List ℕ) (asked : BodyData) → IsRequest body asked → r.given ≡ asked.variables → IsGivenAsRead r.given }
{}

/// Whoever reads the text that is sent gets the body of it, and asks for just the document, the name and the variables that are
/// sent, where what is given for the variables was read.
pub fn what_a_reader_of_the_body_gets()
    ensures read { (r : RequestData) (p : Prepared r) (alias text : List ℕ) → IsGivenAsRead r.given → IsSentText r p alias text → read_text text ≡ Some (sent_body r p alias) }
    ensures request { (r : RequestData) (p : Prepared r) (alias text : List ℕ) → IsGivenAsRead r.given → IsSentText r p alias text → is_utf8 text ≡ true → IsRequest text (request_sent r p alias) }
    ensures only { (r : RequestData) (p : Prepared r) (alias text : List ℕ) (asked : BodyData) → IsGivenAsRead r.given → IsSentText r p alias text → IsRequest text asked → asked ≡ request_sent r p alias }
{
    sent_texts_are_read_alike();
}

/// Where what is given for the variables was read, what the body that is sent asks of the same schema is the request that is received.
pub fn what_comes_from_the_body_is_received()
    ensures { (r : RequestData) (p : Prepared r) (alias text body : List ℕ) → IsGivenAsRead r.given → IsFreeIn r alias → IsClientText r text → IsSentText r p alias body → AsksForReceived r p alias body }
{
    what_a_reader_of_the_body_gets();
    what_is_read_is_received();
}
