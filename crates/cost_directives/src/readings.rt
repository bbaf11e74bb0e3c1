//! What the texts of weights spell.

ghost use Rattle.std.specs.Prelude.{◌≡◌};
ghost use Rattle.schema_model.specs.Entries.{maybe_text};
ghost use Rattle.cost_directives.specs.Readings.{reading, weight_in};

use cost_num::{WeightFault, read_weight};
use gql_base::Text;

/// A text as a weight in millionths, or its first fault.
pub fn reading(text: &str) -> Result<u64, WeightFault>
    ensures { result ≡ reading text.now }
{
    read_weight(text)
}

/// The weight that a text of `@cost` spells.
pub fn weight_in(text: Option<&Text>) -> Option<u64>
    ensures { result ≡ weight_in (maybe_text text.entry) }
{
    match text {
        Some(text) => match reading(text.as_str()) {
            Ok(weight) => Some(weight),
            Err(_) => None,
        },
        None => None,
    }
}
