//! What an operation asks of a schema.

ghost use Rattle.std.specs.Prelude.{◌≡◌, IfOk};
ghost use Rattle.schema_model.specs.SchemaViews.{schema_data};
ghost use Rattle.document_rules.specs.Checking.{IsChecked};
ghost use Rattle.gql_base.specs.names.Names.{place_of_name};
ghost use Rattle.asked_fields.specs.AskedNodes.{asked_nodes};
ghost use Rattle.asked_fields.specs.Asking.{kept_below, asked_for};

use crate::LEVEL_LIMIT;
use crate::asked::AskedNode;
use crate::asking::ask_type;
use collected_fields::{Collector, Planning};
use cost_directives::Weights;
use counted_work::Work;
use document_rules::Checked;
use gql_base::{Indexed, Named};
use schema_model::Schema;
use std::alloc::{AllocError, Global};
use variable_coercion::Variables;

/// What an operation that was checked asks, node by node, with what is kept of the arguments of each node beside some names. The nodes
/// are those of its plan where it is planned well and objects of one type may stand at each place. Of a field with an argument that is refused
/// nothing is kept. It fails for want of memory alone, or of steps where they are counted.
///
/// It asks that the operation breaks no rule of this schema. The weights are to be the schema's, and the variables those
/// of the operation, coerced by the schema.
pub fn ask<N: Named + Drop>(
    alloc: Global,
    work: Work<'_>,
    names: &Indexed<N>,
    schema: &Schema,
    weights: &Weights,
    checked: &Checked,
    variables: &Variables,
) -> Result<Vec<AskedNode>, AllocError>
    requires checked { IsChecked (schema_data schema.now) checked.now }
    ensures { IfOk result (λ nodes. asked_nodes nodes.items ≡ kept_below (place_of_name N.name_of names.now.items.items) (asked_for schema.now weights.now checked.now variables.now)) }
{
    let planning = Planning {
        schema,
        weights,
        variables,
        fragments: checked.fragments(),
        work,
    };
    let root = checked.root();
    let selections = checked.operation().selections.as_slice();
    let (mut collector, list) = Collector::prepare(alloc, planning, root, selections)?;
    let nodes = ask_type(alloc, names, &mut collector, root, &[list], LEVEL_LIMIT)?;
    Ok(nodes)
}
