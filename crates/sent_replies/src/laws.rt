//! What holds of all replies to what is sent.

ghost use Rattle.std.specs.Prelude.{ℕ, List, Bool, false, Ok};
ghost use Rattle.serde_json.specs.Data.{Data};
ghost use Rattle.response_model.specs.Plan.{Form, Plan};
ghost use Rattle.response_model.specs.Response.{Tree};
ghost use Rattle.schema_reader.specs.Schemas.{DefinitionTree};
ghost use Rattle.schema_model.specs.declared.schema.Schema.{Schema};
ghost use Rattle.schema_model.specs.Faults.{SchemaBuilds};
ghost use Rattle.schema_model.specs.SchemaViews.{schema_data};
ghost use Rattle.plan_model.specs.SelectedFields.{Setting, Place};
ghost use Rattle.plan_model.specs.Merging.{Position};
ghost use Rattle.stripped_responses.specs.Stripping.{stripped, SentOperation, IsSentResponse};
ghost use Rattle.sent_replies.specs.Saying.{SaysTree};
ghost use Rattle.sent_replies.specs.Interfaces.{KeepsInterfaces};
ghost use Rattle.sent_replies.specs.Asking.{TellsTypes, IsSentBy, ReadsAllSent, IsPlannedWell, own_plan, ReadsReplyTo};

/// The JSON of a response to rewritten selections reads, by the client's own plan, as that response without the names of types
/// that were added: the name stands where the plan asks for it, and nowhere else.
pub fn what_is_sent_reads_by_the_own_plan()
    ensures { (alias : List ℕ) (e : Setting) (form : Form) (asked : Bool) (place : Place) (p q : Position) (plan : Plan) → IsSentBy alias e asked place p q plan → ReadsAllSent alias e form asked place q plan }
{}

/// In a schema that a text says the types keep their interfaces.
pub fn built_schemas_keep_interfaces()
    ensures { (text : List DefinitionTree) (schema : Schema) → SchemaBuilds text (Ok schema) → KeepsInterfaces (schema_data schema) }
{}

/// An operation that is planned well asks for the names of types wherever objects of several types may stand.
pub fn plans_ask_for_names()
    ensures { (alias : List ℕ) (x : SentOperation alias) → IsPlannedWell alias x → TellsTypes false (own_plan alias x) }
{}

/// The JSON of a response to what is sent in place of an operation reads, by the operation's own plan, as that response without the
/// names of types that were added.
pub fn replies_to_what_is_sent()
    ensures { (alias : List ℕ) (x : SentOperation alias) (t : Tree) (json : Data) → IsPlannedWell alias x → IsSentResponse alias x t → SaysTree json t → ReadsReplyTo alias x json (stripped alias t) }
{}
