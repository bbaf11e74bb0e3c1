//! What is kept of a field's arguments.

ghost use Rattle.std.specs.Prelude.{◌≡◌, Some, option_map};
ghost use Rattle.gql_base.specs.names.Names.{place_of_name};
ghost use Rattle.input_values.specs.values.Coerced.{coerced_tree};
ghost use Rattle.schema_model.specs.Arguments.{args_data};
ghost use Rattle.asked_fields.specs.Arguments.{first_value, is_true_value, place_of_value, argument_kept};

use crate::asked::Argument;
use counted_work::{Work, steps_of_text};
use gql_base::{Indexed, Named};
use input_values::Coerced;
use schema_model::Args;

fn first_value(args: &Args) -> Option<&Coerced>
    ensures { option_map (λ v. coerced_tree v.now) result ≡ first_value (args_data args.now) }
{
    match args.list.first() {
        Some(arg) => arg.value.as_ref(),
        None => None,
    }
}

#[tactic(auto, using(crate::proofs::Opened::coerced_parts))]
fn is_true(value: &Coerced) -> bool
    ensures { result ≡ is_true_value (Some (coerced_tree value.now)) }
{
    match value {
        Coerced::Bool(is) => *is,
        Coerced::Null => false,
        Coerced::Int(_) => false,
        Coerced::Float(_) => false,
        Coerced::Str(_) => false,
        Coerced::EnumName(_) => false,
        Coerced::List(_) => false,
        Coerced::Object(_) => false,
        Coerced::Shared(held) => is_true(held),
    }
}

fn is_true_value(value: Option<&Coerced>) -> bool
    ensures { result ≡ is_true_value (option_map (λ v. coerced_tree v.now) value.entry) }
{
    match value {
        Some(value) => is_true(value),
        None => false,
    }
}

#[tactic(auto, using(crate::proofs::Opened::coerced_parts))]
fn place_named<N: Named + Drop>(
    work: Work<'_>,
    names: &Indexed<N>,
    value: &Coerced,
) -> Option<usize>
    ensures { result ≡ place_of_value (place_of_name N.name_of names.now.items.items) (Some (coerced_tree value.now)) }
{
    match value {
        Coerced::Str(name) => {
            work.count(steps_of_text(name.as_str().len()));
            names.position(name.as_str())
        }
        Coerced::Null => None,
        Coerced::Int(_) => None,
        Coerced::Float(_) => None,
        Coerced::Bool(_) => None,
        Coerced::EnumName(_) => None,
        Coerced::List(_) => None,
        Coerced::Object(_) => None,
        Coerced::Shared(held) => place_named(work, names, held),
    }
}

fn place_of_value<N: Named + Drop>(
    work: Work<'_>,
    names: &Indexed<N>,
    value: Option<&Coerced>,
) -> Option<usize>
    ensures { result ≡ place_of_value (place_of_name N.name_of names.now.items.items) (option_map (λ v. coerced_tree v.now) value.entry) }
{
    match value {
        Some(value) => place_named(work, names, value),
        None => None,
    }
}

/// What is kept of these arguments, beside some names.
pub fn argument_kept<N: Named + Drop>(work: Work<'_>, names: &Indexed<N>, args: &Args) -> Argument
    ensures { result ≡ argument_kept (place_of_name N.name_of names.now.items.items) (args_data args.now) }
{
    let first = first_value(args);
    Argument {
        is_true: is_true_value(first),
        place: place_of_value(work, names, first),
    }
}
