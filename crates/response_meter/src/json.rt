//! What stands in a JSON value.

ghost use Rattle.std.specs.Prelude.{◌≡◌, ◌<◌, ◌≤◌, option_map, IfSome};
ghost use Rattle.serde_json.specs.Data.{depth, items_depth, members_depth};
ghost use Rattle.serde_json.specs.Find.{as_array, as_object, get_member};
ghost use Rattle.serde_json.specs.View.{view, items_view, members_view};

use serde_json::{Map, Value};

/// The members of an object.
pub(crate) fn members_of(value: &Value) -> Option<&Map<String, Value>>
    ensures found { option_map (λ m. members_view m.now.entries) result ≡ as_object (view value.now) }
    ensures below { IfSome result (λ m. members_depth (members_view m.now.entries) < depth (view value.now)) }
{
    value.as_object()
}

/// The items of a list.
pub(crate) fn items_of(value: &Value) -> Option<&[Value]>
    ensures found { option_map (λ items. items_view items.now) result ≡ as_array (view value.now) }
    ensures below { IfSome result (λ items. items_depth (items_view items.now) < depth (view value.now)) }
{
    match value.as_array() {
        Some(items) => Some(items.as_slice()),
        None => None,
    }
}

/// The value that an object has under a key.
pub(crate) fn member<'a>(members: &'a Map<String, Value>, key: &str) -> Option<&'a Value>
    ensures found { option_map (λ v. view v.now) result ≡ get_member key.now (members_view members.now.entries) }
    ensures below { IfSome result (λ v. depth (view v.now) ≤ members_depth (members_view members.now.entries)) }
{
    members.get(key)
}
