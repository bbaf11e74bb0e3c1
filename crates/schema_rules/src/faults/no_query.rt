//! There is a type of queries (GraphQL October 2021, 3.3.1).

ghost use Rattle.std.specs.Prelude.{◌≡◌, map};
ghost use Rattle.schema_rules.specs.NoQuery.{has_no_query};
ghost use Rattle.schema_rules.specs.Views.{item_tree, named_kind};

use crate::items::Item;
use crate::roots::root_name;
use crate::type_names::TypeName;
use gql_base::{NameIndex, OperationKind};

/// Whether there is no type of queries.
pub fn has_no_query(types: &NameIndex<'_, TypeName<'_>>, items: &[Item<'_>]) -> bool
    ensures { result ≡ has_no_query (map named_kind types.now.items.now) (map item_tree items.now) }
{
    match root_name(items, types, OperationKind::Query) {
        Some(_) => false,
        None => true,
    }
}
