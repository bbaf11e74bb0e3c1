//! What holds of the texts of all documents that are sent.

ghost use Rattle.std.specs.Prelude.{◌≡◌, ℕ, List, IsUtf8};
ghost use Rattle.plan_model.specs.Visits.{planned_well};
ghost use Rattle.sent_replies.specs.Interfaces.{KeepsInterfaces};
ghost use Rattle.acceptance.specs.Requests.{RequestData, Prepared, plan_answer};
ghost use Rattle.acceptance.specs.Forwarding.{IsFreeIn, sent_text};
ghost use Rattle.sent_documents.specs.SentTexts.{IsClientText, ReadsBack, IsOfOneDocument};
ghost use Rattle.sent_documents.specs.SentResponses.{ReadsAllByPlan};

use sent_replies::laws::replies_to_what_is_sent;

/// The text that is sent is UTF-8. It is the text of the document that is sent, but for the offsets of names, is nested no deeper than
/// documents may be, and is no other document's.
pub fn what_is_sent_reads_back()
    ensures reads_back { (r : RequestData) (p : Prepared r) (alias text : List ℕ) → IsFreeIn r alias → IsClientText r text → ReadsBack r p alias }
    ensures utf8 { (r : RequestData) (p : Prepared r) (alias text : List ℕ) → IsFreeIn r alias → IsClientText r text → IsUtf8 (sent_text r p alias) }
    ensures only { (r : RequestData) (p : Prepared r) (alias text : List ℕ) → IsFreeIn r alias → IsClientText r text → IsOfOneDocument r p alias }
{}

/// Of a request that is planned well, the JSON of a response to what is sent for it reads, by its own plan, as that response without
/// the names of types that were added. The types of its schema keep their interfaces, as they do in each schema that a text says.
pub fn replies_read_by_the_plan_of_the_request()
    ensures { (r : RequestData) (p : Prepared r) (alias : List ℕ) → KeepsInterfaces r.schema → IsFreeIn r alias → (plan_answer r p ≡ planned_well) → ReadsAllByPlan r p alias }
{
    replies_to_what_is_sent();
}
