//! The members of JSON objects, by their names.

ghost use Rattle.std.specs.Prelude.{◌≡◌, option_map};
ghost use Rattle.serde_json.specs.Find.{get_member};
ghost use Rattle.serde_json.specs.View.{view, members_view};
ghost use Rattle.variable_coercion.specs.Members.{unknown_member};

use counted_work::{Work, steps_of_text};
use input_values::{InputTypes, TypeId};
use serde_json::{Map, Value};

/// The value that an object has under a name.
pub(crate) fn member<'a>(members: &'a Map<String, Value>, name: &str) -> Option<&'a Value>
    ensures { option_map (λ v. view v.now) result ≡ get_member name.now (members_view members.now.entries) }
{
    members.get(name)
}

/// The first name of an object that is no field's.
pub(crate) fn unknown_name<'a, T: InputTypes>(
    work: Work<'_>,
    types: &T,
    of: TypeId,
    members: &'a Map<String, Value>,
) -> Option<&'a str>
    ensures { option_map (λ n. n.now) result ≡ unknown_member (T.forms types.now) (members_view members.now.entries) of.number }
{
    'names: for (name, _value) in members.iter() {
        work.count(steps_of_text(name.len()));
        if !types.has_field(of, name.as_str()) {
            return Some(name.as_str());
        }
    }
    None
}
