//! What holds of what is asked. These functions do nothing: their contracts are the laws.

ghost use Rattle.std.specs.Prelude.{◌≡◌, ℕ, List};
ghost use Rattle.document_reader.specs.declared.trees.Operation.{Operation};
ghost use Rattle.response_model.specs.Plan.{Form};
ghost use Rattle.response_model.specs.Response.{Tree};
ghost use Rattle.response_model.specs.Cost.{Part};
ghost use Rattle.plan_model.specs.SelectedFields.{Setting, Place};
ghost use Rattle.plan_model.specs.Merging.{Position};
ghost use Rattle.plan_model.specs.MergingWalk.{IsShortened};
ghost use Rattle.plan_model.specs.Visits.{planned};
ghost use Rattle.plan_model.specs.Operations.{IsPlannedWell, IsOperationPlan};
ghost use Rattle.collected_fields.specs.Groups.{GroupData};
ghost use Rattle.collected_fields.specs.Gathering.{Gathers};
ghost use Rattle.asked_fields.specs.Asked.{asked, asked_operation, plan_in, HasOneType, IsOfOneType, FitsAsAsked, CostsAsAsked, AskTheSame};

use plan_model::laws::{operations_planned_well, repeats_change_nothing, responses_of_a_plan};

/// Where repeats are left out the same is asked.
pub fn repeats_ask_the_same()
    ensures { (e : Setting) (levels : ℕ) (place : Place) (p q : Position) → IsShortened p q → asked e levels place p ≡ asked e levels place q }
{
    repeats_change_nothing();
}

/// Where objects of one type may stand at each place, what is asked is what is planned, with the arguments beside it. So it is the
/// plan of an operation that is planned well.
pub fn what_is_asked_is_planned()
    ensures planned { (e : Setting) (levels : ℕ) (place : Place) (p : Position) → HasOneType e → IsOfOneType place → plan_in (asked e levels place p) ≡ planned e levels place p }
    ensures operation { (e : Setting) (root : ℕ) (o : Operation) → HasOneType e → IsPlannedWell e root o → IsOperationPlan e root o (plan_in (asked_operation e root o)) }
{
    operations_planned_well();
}

/// A tree fits an operation that is planned well exactly where it fits what is asked, and costs the same by both, where
/// objects of one type may stand at each place.
pub fn responses_to_what_is_asked()
    ensures fit { (e : Setting) (root : ℕ) (o : Operation) (form : Form) (t : Tree) → FitsAsAsked e root o form t }
    ensures costs { (e : Setting) (root : ℕ) (o : Operation) (part : Part) (form : Form) (t : Tree) → CostsAsAsked e root o part form t }
{
    what_is_asked_is_planned();
    responses_of_a_plan();
}

/// The groups of fields that are gathered at a position ask what the position asks.
pub fn what_is_gathered_is_asked()
    ensures { (e : Setting) (levels T : ℕ) (p : Position) (groups : List GroupData) → Gathers e T p groups → AskTheSame e levels T p groups }
{
    repeats_change_nothing();
}
