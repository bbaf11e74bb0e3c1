//! What holds of all requests that are received.

ghost use Rattle.std.specs.Prelude.{◌≡◌, ℕ, List, Some};
ghost use Rattle.document_reader.specs.declared.trees.Operation.{Operation};
ghost use Rattle.document_rules.specs.Parts.{operation_at};
ghost use Rattle.document_rules.specs.Sites.{type_of_kind};
ghost use Rattle.acceptance.specs.Requests.{RequestData, Prepared, AsksFor, AreValues};
ghost use Rattle.acceptance.specs.Forwarding.{IsFreeIn};
ghost use Rattle.sent_documents.specs.SentTexts.{IsClientText};
ghost use Rattle.received_requests.specs.Received.{IsReceived, IsReadOf, HasSelections, ReachesSent, selections_sent};

use sent_documents::laws::what_is_sent_reads_back;

/// Whoever reads the text that is sent has the document that is sent, but for the offsets of names.
pub fn what_is_read_is_received()
    ensures { (r : RequestData) (p : Prepared r) (alias text : List ℕ) (q : RequestData) → IsFreeIn r alias → IsClientText r text → IsReadOf r p alias q → IsReceived r p alias q }
{
    what_is_sent_reads_back();
}

/// Whoever receives what is sent picks an operation by the name that is sent (GraphQL October 2021, 6.1), and it is the first
/// definition of its document. Its selections are written on the type on which the client's own are, and are the rewritten
/// ones.
pub fn the_operation_that_is_sent_is_picked()
    ensures asks { (r : RequestData) (p : Prepared r) (alias : List ℕ) (q : RequestData) → IsReceived r p alias q → (o : Operation) × AsksFor q o }
    ensures first { (r : RequestData) (p : Prepared r) (alias : List ℕ) (q : RequestData) (o : Operation) → IsReceived r p alias q → AsksFor q o → operation_at q.document 0 ≡ Some o }
    ensures kind { (r : RequestData) (p : Prepared r) (alias : List ℕ) (q : RequestData) (o : Operation) → IsReceived r p alias q → AsksFor q o → type_of_kind q.schema o.kind ≡ Some p.root }
    ensures selections { (r : RequestData) (p : Prepared r) (alias : List ℕ) (q : RequestData) (o : Operation) → IsReceived r p alias q → AsksFor q o → HasSelections o (selections_sent r p alias) }
{}

/// The values of its variables are those of the client's own, though only the given values of declared variables are sent.
pub fn the_values_of_variables_are_kept()
    ensures { (r : RequestData) (p : Prepared r) (alias : List ℕ) (q : RequestData) (o : Operation) → IsReceived r p alias q → AsksFor q o → AreValues q o p.values }
{}

/// The fragments that it reaches are the rewritten ones that the client's operation reaches, in the order in which that one
/// reaches them.
pub fn the_fragments_that_are_sent_are_reached()
    ensures { (r : RequestData) (p : Prepared r) (alias : List ℕ) (q : RequestData) (o : Operation) → IsReceived r p alias q → AsksFor q o → ReachesSent r p alias q o }
{}
