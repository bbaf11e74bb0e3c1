//! What holds of every plan and every reply.

ghost use Rattle.std.specs.Prelude.{◌≡◌, ℕ, List, Bool, false, Ok};
ghost use Rattle.serde_json.specs.Data.{Data};
ghost use Rattle.response_model.specs.Plan.{Plan};
ghost use Rattle.schema_model.specs.SchemaData.{has_floats};
ghost use Rattle.schema_reader.specs.Schemas.{DefinitionTree};
ghost use Rattle.schema_model.specs.declared.schema.Schema.{Schema};
ghost use Rattle.schema_model.specs.Faults.{SchemaBuilds};
ghost use Rattle.schema_model.specs.SchemaViews.{schema_data};
ghost use Rattle.plan_table.specs.declared.table.Plan.{Plan as PlanTable};
ghost use Rattle.plan_table.specs.Tables.{HasRows, setting_in};
ghost use Rattle.response_meter.specs.declared.metered.Metered.{Metered};
ghost use Rattle.response_meter.specs.Metered.{TypesDiffer, name_in, HasOneText};
ghost use Rattle.response_meter.specs.FirstFault.{AreNamed};
ghost use Rattle.response_meter.specs.Reply.{ReadsOnce, PassesWhereReadable, FailsWhereUnreadable};

use response_model::laws::one_text_without_floats;

/// A reply passes every test exactly where it reads and its data, if any, is a response of the plan. There is a first fault
/// exactly where it does not. The possible types of a position have different names here, and what fills a type name is a
/// string.
pub fn fault_or_reading()
    ensures passes { (holds : ℕ → Data → Bool) (name : ℕ → List ℕ) (alias : List ℕ) (plan : Plan) (bytes : List ℕ) → AreNamed name plan → PassesWhereReadable holds name alias plan bytes }
    ensures refused { (holds : ℕ → Data → Bool) (name : ℕ → List ℕ) (alias : List ℕ) (plan : Plan) (bytes : List ℕ) → AreNamed name plan → FailsWhereUnreadable holds name alias plan bytes }
{}

/// A reply reads as one tree or none, and with one list of errors, where the possible types of a position have different names.
pub fn one_reply()
    ensures { (name : ℕ → List ℕ) (alias : List ℕ) (plan : Plan) (bytes : List ℕ) → AreNamed name plan → ReadsOnce name alias plan bytes }
{}

/// The possible types of each position of what a table holds have different names, and what fills a type name is a string: where
/// the types of its schema have different names.
pub fn named_tables()
    ensures { (table : PlanTable) (tree : Plan) → TypesDiffer (setting_in table).schema → HasRows table tree → AreNamed (name_in table) tree }
{}

/// The types of a schema that a text says have different names. So have the possible types of each position of what a table of this
/// schema holds, and what fills a type name there is a string.
pub fn types_of_built_schemas_differ()
    ensures differ { (text : List DefinitionTree) (schema : Schema) → SchemaBuilds text (Ok schema) → TypesDiffer (schema_data schema) }
    ensures named { (text : List DefinitionTree) (table : PlanTable) (tree : Plan) → SchemaBuilds text (Ok table.schema.now) → HasRows table tree → AreNamed (name_in table) tree }
{}

/// Of an operation over a schema that lets no floats in the answer to a reply is one text, letter for letter. The possible types of its positions are named.
pub fn answers_without_floats()
    ensures { (table : PlanTable) (alias : List ℕ) (tree : Plan) (bytes : List ℕ) (metered : Metered) → has_floats (setting_in table).schema ≡ false → AreNamed (name_in table) tree → HasOneText table alias tree bytes metered }
{
    one_text_without_floats();
}
