//! The plan of an operation.

ghost use Rattle.std.specs.Prelude.{◌≡◌, IfOk, map};
ghost use Rattle.document_reader.specs.Trees.{set_tree};
ghost use Rattle.schema_model.specs.SchemaViews.{schema_data};
ghost use Rattle.document_rules.specs.Parts.{fragment_data};
ghost use Rattle.document_rules.specs.Checking.{IsChecked};
ghost use Rattle.collected_fields.specs.Views.{fragment_seen};
ghost use Rattle.merged_selections.specs.Faults.{AnswersPlan};
ghost use Rattle.merged_selections.specs.Building.{answer_for, IsPlanned, setting_beside, AnswersSelections};

use crate::NODE_LIMIT;
use crate::building::Building;
use crate::calls::Calls;
use crate::fault::PlanFault;
use crate::few::are_few;
use crate::keys::Keys;
use crate::known::Known;
use crate::stop::fault_of;
use collected_fields::{Collector, Planning};
use cost_directives::Weights;
use counted_work::Work;
use distinct_selections::distinct_of;
use document_reader::{Fragment, Selection};
use document_rules::Checked;
use input_values::TypeId;
use plan_table::Plan;
use schema_model::Schema;
use std::alloc::{AllocError, Global};
use variable_coercion::Variables;

/// Fragments, each lent.
fn lent(alloc: Global, fragments: &[Fragment]) -> Result<Vec<&Fragment>, AllocError>
    ensures { IfOk result (λ lent. map fragment_seen lent.items ≡ map fragment_data fragments.now) }
{
    let mut lent = Vec::new(alloc);
    for fragment in fragments {
        lent.push(fragment)?;
    }
    Ok(lent)
}

/// The plan of selections that are written on the type `root`, beside fragments.
fn build_from<'a, 'b>(
    alloc: Global,
    work: Work<'b>,
    schema: &'a Schema,
    weights: &'a Weights,
    variables: &'b Variables,
    fragments: &'b [&'b Fragment],
    root: TypeId,
    selections: &'b [Selection],
) -> Result<Plan<'a>, PlanFault>
    ensures answer { AnswersSelections (setting_beside schema.now weights.now variables.now (map fragment_seen fragments.now)) root.number (set_tree selections.now) result }
    ensures schema { IfOk result (λ plan. plan.schema.now ≡ schema.now) }
    ensures weights { IfOk result (λ plan. plan.weights.now ≡ weights.now) }
{
    let planning = Planning {
        schema,
        weights,
        variables,
        fragments,
        work,
    };
    let (collector, list) = Collector::prepare(alloc, planning, root, selections)?;
    let mut building = Building {
        collector,
        plan: Plan::new(alloc, schema, weights, root),
        left: NODE_LIMIT,
        calls: Calls::new(alloc, &planning),
        keys: Keys::new(alloc),
        known: Known::new(alloc, work),
    };
    match building.build_types(alloc, 1, &[root], &[list], None) {
        Ok(()) => Ok(building.into_plan()),
        Err(stop) => Err(fault_of(alloc, stop)),
    }
}

/// The plan of an operation that was checked: at each place the possible types of objects, and for each of them one node for
/// each response key, whose fields are merged (GraphQL October 2021, 6.3.2 and 6.4.3). The answer is the first fault in
/// depth-first order among the first `NODE_LIMIT` nodes. Where there is none and there are more nodes, it is `TooLarge`.
///
/// It asks that the operation breaks no rule of this schema. The weights are to be the schema's, and the variables those
/// of the operation, coerced by the schema.
///
/// What is written as something before it, and what is left out, is left out before the nodes are looked at.
pub fn build_plan<'a>(
    alloc: Global,
    work: Work<'_>,
    schema: &'a Schema,
    weights: &'a Weights,
    checked: &Checked,
    variables: &Variables,
) -> Result<Plan<'a>, PlanFault>
    requires checked { IsChecked (schema_data schema.now) checked.now }
    ensures answer { AnswersPlan (IsPlanned schema.now weights.now checked.now variables.now) result (answer_for schema.now weights.now checked.now variables.now) }
    ensures schema { IfOk result (λ plan. plan.schema.now ≡ schema.now) }
    ensures weights { IfOk result (λ plan. plan.weights.now ≡ weights.now) }
{
    let selections = checked.operation().selections.as_slice();
    let reached = checked.fragments();
    work.count(reached.len());
    if are_few(selections, reached) {
        return build_from(
            alloc,
            work,
            schema,
            weights,
            variables,
            reached,
            checked.root(),
            selections,
        );
    }
    let distinct = distinct_of(alloc, work, variables, selections, reached)?;
    let fragments = lent(alloc, distinct.fragments.as_slice())?;
    build_from(
        alloc,
        work,
        schema,
        weights,
        variables,
        fragments.as_slice(),
        checked.root(),
        distinct.selections.as_slice(),
    )
}
