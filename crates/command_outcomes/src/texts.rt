//! The texts of refusals.

ghost use Rattle.std.specs.Prelude.{◌++◌};
ghost use Rattle.local_introspection.specs.PassedOn.{placed, naming, lexical_text};
ghost use Rattle.command_outcomes.specs.Outcomes.{IsRefusedAs};

use crate::outcome::Outcome;
use gql_base::{LexFault, Text};
use local_introspection::{lexical_place, named, named_twice, placed, placed_in};
use std::alloc::Global;

/// The outcome of a refusal with this text.
pub fn refused_as(alloc: Global, text: &str) -> Outcome
    ensures { IsRefusedAs text.now result }
{
    match Text::copy_of(alloc, text) {
        Ok(text) => Outcome::Refused(text),
        Err(_) => Outcome::Memory,
    }
}

/// The outcome of a refusal with this text and a place or a number.
pub fn refused_at(alloc: Global, text: &str, at: usize) -> Outcome
    ensures { IsRefusedAs (placed text.now at) result }
{
    match placed(alloc, text, at) {
        Ok(text) => Outcome::Refused(Text::from(text)),
        Err(_) => Outcome::Memory,
    }
}

/// The outcome of a refusal with this text and a name, or the place of something that has one.
pub fn refused_naming(alloc: Global, text: &str, name: &Text) -> Outcome
    ensures { IsRefusedAs (naming text.now name.now) result }
{
    match named(alloc, text, name) {
        Ok(text) => Outcome::Refused(Text::from(text)),
        Err(_) => Outcome::Memory,
    }
}

/// The outcome of a refusal with this text, a place and a name.
pub fn refused_naming_both(alloc: Global, text: &str, place: &Text, name: &Text) -> Outcome
    ensures { IsRefusedAs (naming (naming text.now place.now) name.now) result }
{
    match named_twice(alloc, text, place, name) {
        Ok(text) => Outcome::Refused(Text::from(text)),
        Err(_) => Outcome::Memory,
    }
}

/// The outcome of a text that isn't made of tokens, in this stage.
pub fn refused_lexical(alloc: Global, stage: &str, fault: LexFault) -> Outcome
    ensures { IsRefusedAs (stage.now ++ lexical_text fault) result }
{
    let Some((text, at)) = lexical_place(fault) else {
        return Outcome::Memory;
    };
    match placed_in(alloc, stage, text, at) {
        Ok(text) => Outcome::Refused(Text::from(text)),
        Err(_) => Outcome::Memory,
    }
}
