//! What a field of a thing holds.

ghost use Rattle.std.specs.Prelude.{◌≡◌};
ghost use Rattle.schema_rules.specs.Views.{maybe_name};
ghost use Rattle.schema_facts.specs.Things.{held_data, word, maybe_word};

use crate::things::Thing;
use gql_base::Text;

/// Nothing, one thing, or a list.
#[derive(Drop)]
pub enum Held<'f> {
    Nothing,
    One(Thing<'f>),
    Many(Vec<Thing<'f>>),
}

pub fn word<'f>(text: &'f str) -> Held<'f>
    ensures { held_data result ≡ word text.now }
{
    Held::One(Thing::Word(text))
}

/// A text, if there is one.
pub fn maybe_word<'f>(text: Option<&'f str>) -> Held<'f>
    ensures { held_data result ≡ maybe_word (maybe_name text.entry) }
{
    match text {
        Some(text) => word(text),
        None => Held::Nothing,
    }
}

/// A description, if there is one.
pub fn described<'f>(description: &'f Option<Text>) -> Held<'f>
    ensures { held_data result ≡ maybe_word description.now }
{
    match description {
        Some(text) => word(text.as_str()),
        None => Held::Nothing,
    }
}
