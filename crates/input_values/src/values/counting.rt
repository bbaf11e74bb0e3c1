//! How many nodes a coerced value has, counted up to one above a limit.

ghost use Rattle.std.specs.Prelude.{◌≡◌, ◌+◌, map};
ghost use Rattle.input_values.specs.values.Coerced.{coerced_tree, named_tree, is_coerced_null, nodes, item_nodes, field_nodes, trees_from, named_trees_from};
ghost use Rattle.input_values.specs.values.Counting.{counted};

use crate::values::coerced::{Coerced, CoercedField};

/// Whether a coerced value is null.
#[tactic(auto, unfolding(crate::specs::values::Coerced::coerced_tree))]
pub fn is_null(value: &Coerced) -> bool
    ensures { result ≡ is_coerced_null (coerced_tree value.now) }
{
    match value {
        Coerced::Null => true,
        Coerced::Int(_) => false,
        Coerced::Float(_) => false,
        Coerced::Str(_) => false,
        Coerced::Bool(_) => false,
        Coerced::EnumName(_) => false,
        Coerced::List(_) => false,
        Coerced::Object(_) => false,
        Coerced::Shared(held) => is_null(held),
    }
}

/// One more node, where the limit is not passed already.
pub fn count_node(limit: u32, count: &mut u64)
    ensures { count.new ≡ counted limit (count.old + 1) }
{
    *count = if *count < u64::from(limit) {
        *count + 1
    } else {
        u64::from(limit) + 1
    };
}

/// No further node: a count past the limit is one above it.
pub fn count_no_node(limit: u32, count: &mut u64)
    ensures { count.new ≡ counted limit count.old }
{
    if *count > u64::from(limit) {
        *count = u64::from(limit) + 1;
    }
}

/// Adds the nodes of a value to a count, which stops one above the limit.
#[cycle(counts)]
#[tactic(auto, unfolding(crate::specs::values::Coerced::coerced_tree))]
pub fn count_nodes(value: &Coerced, limit: u32, count: &mut u64)
    ensures { count.new ≡ counted limit (count.old + nodes (coerced_tree value.now)) }
{
    match value {
        Coerced::Shared(held) => count_nodes(held, limit, count),
        Coerced::List(items) => {
            count_node(limit, count);
            count_items(items.as_slice(), limit, count);
        }
        Coerced::Object(fields) => {
            count_node(limit, count);
            count_fields(fields.as_slice(), limit, count);
        }
        Coerced::Null => count_node(limit, count),
        Coerced::Int(_) => count_node(limit, count),
        Coerced::Float(_) => count_node(limit, count),
        Coerced::Str(_) => count_node(limit, count),
        Coerced::Bool(_) => count_node(limit, count),
        Coerced::EnumName(_) => count_node(limit, count),
    }
}

#[cycle(counts)]
fn count_items(items: &[Coerced], limit: u32, count: &mut u64)
    ensures { count.new ≡ counted limit (count.old + item_nodes (trees_from (map coerced_tree items.now))) }
{
    'items: for item in items {
        count_nodes(item, limit, count);
    }
    count_no_node(limit, count);
}

#[cycle(counts)]
fn count_fields(fields: &[CoercedField], limit: u32, count: &mut u64)
    ensures { count.new ≡ counted limit (count.old + field_nodes (named_trees_from (map named_tree fields.now))) }
{
    'fields: for field in fields {
        count_nodes(&field.value, limit, count);
    }
    count_no_node(limit, count);
}
