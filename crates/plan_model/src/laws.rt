//! What holds of all selections, their plans and their responses.

ghost use Rattle.std.specs.Prelude.{◌≡◌, ◌↔◌, ◌≤◌, ℕ, suc, true, List, Option, None, Ok, map, length};
ghost use Rattle.gql_base.specs.declared.parts.trees.Argument.{Argument};
ghost use Rattle.gql_base.specs.parts.Trees.{named_value};
ghost use Rattle.document_reader.specs.declared.trees.Definition.{Definition};
ghost use Rattle.document_reader.specs.declared.trees.Operation.{Operation};
ghost use Rattle.input_values.specs.coercion.Literals.{Environment};
ghost use Rattle.response_model.specs.Plan.{Form, Plan};
ghost use Rattle.response_model.specs.Response.{Tree, Fits};
ghost use Rattle.response_model.specs.Cost.{Part};
ghost use Rattle.response_model.specs.Bound.{IsSound};
ghost use Rattle.schema_rules.specs.First.{first_of};
ghost use Rattle.schema_model.specs.SchemaData.{SchemaData};
ghost use Rattle.schema_reader.specs.Schemas.{DefinitionTree};
ghost use Rattle.schema_model.specs.SchemaViews.{schema_data};
ghost use Rattle.schema_model.specs.declared.schema.Schema.{Schema};
ghost use Rattle.schema_model.specs.Faults.{SchemaBuilds};
ghost use Rattle.schema_model.specs.Arguments.{ArgData};
ghost use Rattle.document_reader.specs.Documents.{SelectionTrees};
ghost use Rattle.document_rules.specs.Parts.{FragmentData};
ghost use Rattle.document_rules.specs.Checking.{first_broken};
ghost use Rattle.variable_coercion.specs.Arguments.{arguments_answer};
ghost use Rattle.plan_model.specs.SelectedFields.{Setting, HandedSize, Place, types_of, holds, coerced_arguments, place_at, hands_at};
ghost use Rattle.plan_model.specs.SameArguments.{value_of, same_arguments};
ghost use Rattle.plan_model.specs.Collecting.{CollectedField};
ghost use Rattle.plan_model.specs.Merging.{Position, first_call, selected_by, fields_at, keys_at, call_under, selected_under, below_key};
ghost use Rattle.plan_model.specs.Plans.{IsPlan, node_count};
ghost use Rattle.plan_model.specs.Responses.{FitsSelections};
ghost use Rattle.plan_model.specs.Visits.{Visit, fault_of, visits, fault_at, planned, planned_well, answer_of};
ghost use Rattle.plan_model.specs.Operations.{IsPlannedWell, planned_operation, IsOperationPlan, HasGreatestBounds};
ghost use Rattle.plan_model.specs.PlanLaws.{KeepsAsPlanned, CostsAsPlanned, IsBoundByPlan, IsFaultless, PlansSoundly, AreAcyclicBelow, IsAcyclicOperation};
ghost use Rattle.plan_model.specs.Sound.{IsSoundSetting, CanBeFilled, IsOfSchema};
ghost use Rattle.plan_model.specs.Repeats.{LeavesOutRepeats};
ghost use Rattle.plan_model.specs.MergingWalk.{IsShortened, walked, IsAcyclic};
ghost use Rattle.plan_model.specs.Likeness.{AreLike};
ghost use Rattle.plan_model.specs.Numberings.{ItemsByNumber, HaveSameMarks};
ghost use Rattle.plan_model.specs.Shortening.{with_fragments, position_on, IsShorter};

/// The arguments that a document's tree has come to what the written arguments come to.
pub fn arguments_of_trees()
    ensures { (s : SchemaData) (field : ℕ) (written : List Argument) (values : Environment) → coerced_arguments s field (map named_value written) values ≡ arguments_answer s field written values }
{}

/// Arguments are the same exactly where their values are equal, one after another.
pub fn same_arguments_are_equal()
    ensures { (args others : List ArgData) → (same_arguments args others ≡ true) ↔ (map value_of args ≡ map value_of others) }
{}

/// There is one plan of a place and its selections.
pub fn one_plan()
    ensures { (e : Setting) (place : Place) (p : Position) (a b : Plan) → IsPlan e place p a → IsPlan e place p b → a ≡ b }
{}

/// A tree fits selections exactly where it fits their plan. Where it fits, it keeps the sizes of both or of neither, and
/// costs the same, up to just above the cap.
pub fn responses_of_a_plan()
    ensures fit { (e : Setting) (form : Form) (place : Place) (p : Position) (plan : Plan) (t : Tree) → IsPlan e place p plan → FitsSelections e form place p t ↔ Fits (holds e.schema) form plan t }
    ensures keep { (e : Setting) (form : Form) (size : Option ℕ) (place : Place) (p : Position) (plan : Plan) (t : Tree) → IsPlan e place p plan → KeepsAsPlanned e form size place p plan t }
    ensures costs { (e : Setting) (part : Part) (form : Form) (place : Place) (p : Position) (plan : Plan) (t : Tree) → IsPlan e place p plan → CostsAsPlanned e part form place p plan t }
{}

/// A number within the cap is the bound of selections exactly where it is the greatest cost of their plan.
pub fn bound_of_a_plan()
    ensures { (e : Setting) (part : Part) (place : Place) (p : Position) (plan : Plan) (n : ℕ) → IsPlan e place p plan → IsSound (holds e.schema) plan → IsBoundByPlan e part place p plan n }
{}

/// Where no node has a fault, what is planned is the plan; it is sound where the setting is.
pub fn faultless_plan()
    ensures is_plan { (e : Setting) (levels : ℕ) (place : Place) (p : Position) → IsFaultless e levels place p → IsPlan e place p (planned e levels place p) }
    ensures sound { (e : Setting) (levels : ℕ) (place : Place) (p : Position) → IsSoundSetting e → PlansSoundly e levels place p }
{}

/// Where no node has a fault, what is planned has as many nodes as are visited.
pub fn nodes_are_counted()
    ensures { (e : Setting) (levels : ℕ) (place : Place) (p : Position) → IsFaultless e levels place p → node_count (planned e levels place p) ≡ length (visits e levels (types_of place) p) }
{}

/// In a schema that a text says each leaf that a field returns is an enum with a name, or a scalar. So leaves can be filled.
pub fn built_schemas_can_be_filled()
    ensures { (text : List DefinitionTree) (schema : Schema) → SchemaBuilds text (Ok schema) → CanBeFilled (schema_data schema) }
{}

/// A setting is sound where its weights are those of its schema, and leaves can be filled.
pub fn sound_settings()
    ensures { (e : Setting) (undeclared : ℕ) → IsOfSchema undeclared e → IsSoundSetting e }
{}

/// Where an answer names no fault, no node has one, and there are no more than the limit.
pub fn planned_well_is_faultless()
    ensures faultless { (limit : ℕ) (vs : List Visit) → answer_of limit vs ≡ planned_well → first_of fault_at vs ≡ None }
    ensures within { (limit : ℕ) (vs : List Visit) → answer_of limit vs ≡ planned_well → length vs ≤ limit }
{}

/// An operation that is planned well has the plan that is planned, which is sound, and a number within the cap is its bound
/// exactly where it is the greatest cost of this plan.
pub fn operations_planned_well()
    ensures plan { (e : Setting) (root : ℕ) (o : Operation) → IsPlannedWell e root o → IsOperationPlan e root o (planned_operation e root o) }
    ensures sound { (e : Setting) (root : ℕ) (o : Operation) → IsPlannedWell e root o → (undeclared : ℕ) → IsOfSchema undeclared e → IsSound (holds e.schema) (planned_operation e root o) }
    ensures bound { (e : Setting) (root : ℕ) (o : Operation) → IsPlannedWell e root o → (undeclared : ℕ) → IsOfSchema undeclared e → HasGreatestBounds e root o }
{}

/// A position where repeats are left out has the same keys, and at each key the same node, and below it again a position where
/// repeats are left out. So it has the same visits and the same plan.
pub fn repeats_change_nothing()
    ensures keys { (e : Setting) (T : ℕ) (p q : Position) → IsShortened p q → keys_at e T p ≡ keys_at e T q }
    ensures call { (e : Setting) (T : ℕ) (p q : Position) → IsShortened p q → (key : List ℕ) → call_under e T key p ≡ call_under e T key q }
    ensures selected { (e : Setting) (T : ℕ) (p q : Position) → IsShortened p q → (key : List ℕ) → selected_under e T key p ≡ selected_under e T key q }
    ensures below { (e : Setting) (T : ℕ) (p q : Position) → IsShortened p q → (key : List ℕ) → IsShortened (below_key e T key p) (below_key e T key q) }
    ensures visited { (e : Setting) (levels : ℕ) (Ts : List ℕ) (p q : Position) → IsShortened p q → visits e levels Ts p ≡ visits e levels Ts q }
    ensures planned { (e : Setting) (levels : ℕ) (place : Place) (p q : Position) → IsShortened p q → planned e levels place p ≡ planned e levels place q }
{}

/// A walk that enters each fragment once collects the fields of a position, where repeats are left out. What stands below
/// the fields of a key is again acyclic, whichever repeats are left out.
pub fn walk_leaves_out_repeats()
    ensures fields { (e : Setting) (p : Position) → IsAcyclic e p → (T : ℕ) → LeavesOutRepeats (fields_at e T p) (walked e T p.selections) }
    ensures below { (e : Setting) (p : Position) → IsAcyclic e p → (T : ℕ) (fields : List CollectedField) → LeavesOutRepeats (fields_at e T p) fields → AreAcyclicBelow e T fields }
{}

/// An operation that breaks no rule is acyclic.
pub fn checked_operations_are_acyclic()
    ensures { (s : SchemaData) (ds : List Definition) (o : Operation) → first_broken s ds o ≡ None → IsAcyclicOperation s ds o }
{}

/// Positions whose selections have the same numbers have the same visits and the same plan, wherever their fields stand and however
/// often they are repeated.
pub fn numbers_say_all()
    ensures visited { (e : Setting) (items : ItemsByNumber) (levels : ℕ) (p q : Position) → HaveSameMarks e items (suc levels) p q → (Ts : List ℕ) → visits e levels Ts p ≡ visits e levels Ts q }
    ensures planned { (e : Setting) (items : ItemsByNumber) (levels : ℕ) (p q : Position) → HaveSameMarks e items (suc levels) p q → (place : Place) → planned e levels place p ≡ planned e levels place q }
{}

/// The fields of a key make the same node as others that they are like, where later ones may be left out: with the same fault, the same
/// value, the same types below and the same size handed down.
pub fn like_fields_make_one_node()
    ensures fault { (e : Setting) (T : ℕ) (fields others : List CollectedField) → AreLike e.schema fields others → (handed : HandedSize) → fault_of e T handed fields ≡ fault_of e T handed others }
    ensures selected { (e : Setting) (T : ℕ) (fields others : List CollectedField) → AreLike e.schema fields others → (key : List ℕ) (handed : HandedSize) → selected_by e T key handed fields ≡ selected_by e T key handed others }
    ensures place { (e : Setting) (T : ℕ) (fields others : List CollectedField) → AreLike e.schema fields others → place_at e T (first_call fields) ≡ place_at e T (first_call others) }
    ensures hands { (e : Setting) (T : ℕ) (fields others : List CollectedField) → AreLike e.schema fields others → hands_at e T (first_call fields) ≡ hands_at e T (first_call others) }
{}

/// Where selections and fragments are shortened, there are the same visits, the same plan, and still no circle of fragments.
pub fn shortened_selections_come_to_the_same()
    ensures visited { (e : Setting) (root levels : ℕ) (ss ts : SelectionTrees) (fs : List FragmentData) → IsShorter e ss fs ts → (Ts : List ℕ) → visits e levels Ts (position_on root ss) ≡ visits (with_fragments e fs) levels Ts (position_on root ts) }
    ensures planned { (e : Setting) (root levels : ℕ) (ss ts : SelectionTrees) (fs : List FragmentData) → IsShorter e ss fs ts → (place : Place) → planned e levels place (position_on root ss) ≡ planned (with_fragments e fs) levels place (position_on root ts) }
    ensures acyclic { (e : Setting) (root : ℕ) (ss ts : SelectionTrees) (fs : List FragmentData) → IsShorter e ss fs ts → IsAcyclic e (position_on root ss) → IsAcyclic (with_fragments e fs) (position_on root ts) }
{}
