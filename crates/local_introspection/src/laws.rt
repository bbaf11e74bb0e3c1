//! What holds of all answers. These functions do nothing: their contracts are the laws.

ghost use Rattle.std.specs.Prelude.{◌≡◌, ◌≢◌, ◌≤◌, ◌*◌, ℕ, List, Result, Ok, Err, true};
ghost use Rattle.serde_json.specs.Data.{Data};
ghost use Rattle.cost_num.specs.declared.TheConstants.{UNIT};
ghost use Rattle.gql_base.specs.printing.OneLine.{is_one_line};
ghost use Rattle.document_reader.specs.declared.trees.Definition.{Definition};
ghost use Rattle.operation_class.specs.declared.classes.Class.TheVariants.{Upstream as UpstreamClass};
ghost use Rattle.operation_class.specs.Classes.{class_at};
ghost use Rattle.response_model.specs.Cost.{Part, types, fields};
ghost use Rattle.response_model.specs.Response.{Tree};
ghost use Rattle.schema_facts.specs.Facts.{FactsData};
ghost use Rattle.schema_facts.specs.Things.{one, the_root};
ghost use Rattle.meta_schema.specs.PassedOn.{AskedNodes};
ghost use Rattle.local_introspection.specs.Answers.{Gives, values_in};
ghost use Rattle.local_introspection.specs.Counting.{answer_tree, answer_cost};
ghost use Rattle.local_introspection.specs.LocalRequests.{LocalRequest, local_request, Prepared, IsTheAnswer, cost_of_response};
ghost use Rattle.local_introspection.specs.LocalAnswers.{ComesTo, HasVerdict};
ghost use Rattle.local_introspection.specs.AskAlike.{AskAlike};
ghost use Rattle.local_introspection.specs.declared.facts.Facts.{Facts};
ghost use Rattle.local_introspection.specs.LocalTexts.{local_text};
ghost use Rattle.local_introspection.specs.declared.fault.LocalFault.{LocalFault as Fault};
ghost use Rattle.local_introspection.specs.declared.fault.LocalFault.TheVariants.{Memory as NoMemory};
ghost use Rattle.local_introspection.specs.declared.walk.Local.{Local as LocalAnswer};

use acceptance::refusal_texts_are_one_line;
use meta_schema::{a_meta_schema_has_its_form, responses_to_what_is_asked};
use operation_class::laws::equal_trees_have_one_class;

/// There is one tree whose every entry is what the schema's facts give for it, and whose lists have just the items that they
/// give. It is the one that is written.
pub fn there_is_one_answer()
    ensures some { (f : FactsData) (nodes : AskedNodes) → Gives f (one the_root) nodes (answer_tree f nodes) }
    ensures only { (f : FactsData) (nodes : AskedNodes) (t : Tree) → Gives f (one the_root) nodes t → t ≡ answer_tree f nodes }
    ensures request { (r : LocalRequest) (p : Prepared r) (t other : Tree) → IsTheAnswer r p t → IsTheAnswer r p other → t ≡ other }
{}

/// An answer costs at most one for each of its values, in each part.
pub fn a_value_costs_one_at_most()
    ensures { (f : FactsData) (nodes : AskedNodes) (part : Part) → answer_cost f nodes part ≤ UNIT * values_in (answer_tree f nodes) }
{}

/// A request is answered or refused, not both, but for want of memory. It has one answer, by its text and its cost, and is refused in one
/// way. Whatever tree answers it costs just what is told: this is the greatest cost of an answer, and the only one.
pub fn a_request_has_one_verdict()
    ensures not_both { (r : LocalRequest) (local : LocalAnswer) (fault : Fault) → fault ≢ NoMemory → ComesTo r (Ok local) → ComesTo r (Err fault) → ⊥ }
    ensures one_refusal { (r : LocalRequest) (fault other : Fault) → fault ≢ NoMemory → other ≢ NoMemory → ComesTo r (Err fault) → ComesTo r (Err other) → fault ≡ other }
    ensures one_answer { (r : LocalRequest) (local other : LocalAnswer) → ComesTo r (Ok local) → ComesTo r (Ok other) → (local.text ≡ other.text) × (local.cost ≡ other.cost) }
    ensures one_cost { (r : LocalRequest) (local : LocalAnswer) (p : Prepared r) (t : Tree) → ComesTo r (Ok local) → IsTheAnswer r p t → (local.cost.types ≡ cost_of_response r p t types) × (local.cost.fields ≡ cost_of_response r p t fields) }
{}

/// Each request whose operation isn't the upstream's has a verdict, whatever the facts are: it is answered, or refused for something else
/// than want of memory. One whose operation is the upstream's has none.
pub fn a_request_has_a_verdict()
    ensures some { (f : Facts) (ds : List Definition) (place : ℕ) (given : Data) → class_at ds place ≢ UpstreamClass → HasVerdict (local_request f ds place given) }
    ensures none { (r : LocalRequest) → class_at r.document r.place ≡ UpstreamClass → HasVerdict r → ⊥ }
{
    responses_to_what_is_asked();
    a_meta_schema_has_its_form();
}

/// What a request comes to, each that asks the same comes to: it depends on the trees of the document's definitions and the offsets of its
/// operations alone.
pub fn alike_requests_are_answered_alike()
    ensures { (r q : LocalRequest) (result : Result LocalAnswer Fault) → AskAlike r q → ComesTo r result → ComesTo q result }
{
    equal_trees_have_one_class();
}

/// The text of why an operation isn't answered is one line: no line feed and no other control character stands in it.
pub fn local_texts_are_one_line()
    ensures { (fault : Fault) → is_one_line (local_text fault) ≡ true }
{
    refusal_texts_are_one_line();
}
