//! Arguments by their names, and the places of slicing arguments.

ghost use Rattle.std.specs.Prelude.{◌≡◌, ◌++◌, ◌∷◌, [], map, nat_eq, IfOk};
ghost use Rattle.std.specs.List.{list_any, filter_map};
ghost use Rattle.gql_base.specs.names.Names.{first_of_name};
ghost use Rattle.input_values.specs.inputs.Definitions.{input_data};
ghost use Rattle.cost_directives.specs.Weights.{input_name, place_in, places_of, each_once};
ghost use Rattle.cost_directives.specs.WeightViews.{maybe_argument};

use gql_base::Text;
use input_values::InputDef;
use std::alloc::{AllocError, Global};

/// The first argument of this name.
pub fn argument_named<'a>(arguments: &'a [InputDef], name: &str) -> Option<&'a InputDef>
    ensures { maybe_argument result ≡ first_of_name input_name (map input_data arguments.now) name.now }
{
    for argument in arguments {
        if argument.name.as_str() == name {
            return Some(argument);
        }
    }
    None
}

// The place of the first argument of this name.
fn place_in(arguments: &[InputDef], name: &str) -> Option<usize>
    ensures { result ≡ place_in (map input_data arguments.now) name.now }
{
    for at in 0..arguments.len() {
        if arguments[at].name.as_str() == name {
            return Some(at);
        }
    }
    None
}

fn is_among(place: usize, places: &[usize]) -> bool
    ensures { result ≡ list_any (nat_eq place) places.now }
{
    for other in places {
        if place == *other {
            return true;
        }
    }
    false
}

fn add_once(places: &mut Vec<usize>, place: usize) -> Result<(), AllocError>
    ensures { IfOk result (λ _. places.new.items ≡ places.old.items ++ each_once places.old.items (place ∷ [])) }
{
    if !is_among(place, places) {
        places.push(place)?;
    }
    Ok(())
}

/// The places of the arguments of these names, each once. It fails for want of memory alone.
pub fn places_of(
    alloc: Global,
    arguments: &[InputDef],
    names: &[Text],
) -> Result<Vec<usize>, AllocError>
    ensures { IfOk result (λ places. places.items ≡ places_of (map input_data arguments.now) names.now) }
{
    let mut places = Vec::new(alloc);
    for name in names {
        if let Some(place) = place_in(arguments, name.as_str()) {
            add_once(&mut places, place)?;
        }
    }
    Ok(places)
}
