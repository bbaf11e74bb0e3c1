//! Places in a schema text, as its faults name them.

ghost use Rattle.std.specs.Prelude.{◌≡◌, ◌++◌, [], ◌∷◌, IfOk, string_bytes};
ghost use Rattle.schema_rules.specs.Places.{place_text};
ghost use Rattle.schema_rules.specs.Views.{place_tree};

use gql_base::Text;
use std::alloc::{AllocError, Global};

/// A place in a schema text.
#[derive(Clone, Copy)]
pub enum Place<'a> {
    Type {
        name: &'a str,
    },
    /// A field, an enum value or an input field.
    Field {
        of: &'a str,
        name: &'a str,
    },
    Argument {
        of: &'a str,
        field: &'a str,
        name: &'a str,
    },
    Directive {
        name: &'a str,
    },
    DirectiveArgument {
        directive: &'a str,
        name: &'a str,
    },
    Schema,
}

fn add(text: &mut String, piece: &str) -> Result<(), AllocError>
    ensures { IfOk result (λ _. string_bytes text.new ≡ string_bytes text.old ++ piece.now) }
{
    text.push_str(piece)
}

fn add_argument(text: &mut String, name: &str) -> Result<(), AllocError>
    ensures { IfOk result (λ _. string_bytes text.new ≡ string_bytes text.old ++ (40 ∷ (name.now ++ (41 ∷ [])))) }
{
    add(text, "(")?;
    add(text, name)?;
    add(text, ")")
}

fn add_dotted(text: &mut String, of: &str, name: &str) -> Result<(), AllocError>
    ensures { IfOk result (λ _. string_bytes text.new ≡ string_bytes text.old ++ (of.now ++ (46 ∷ name.now))) }
{
    add(text, of)?;
    add(text, ".")?;
    add(text, name)
}

fn add_place(text: &mut String, place: Place<'_>) -> Result<(), AllocError>
    ensures { IfOk result (λ _. string_bytes text.new ≡ string_bytes text.old ++ place_text (place_tree place.entry)) }
{
    match place {
        Place::Type { name } => add(text, name),
        Place::Field { of, name } => add_dotted(text, of, name),
        Place::Argument { of, field, name } => {
            add_dotted(text, of, field)?;
            add_argument(text, name)
        }
        Place::Directive { name } => {
            add(text, "@")?;
            add(text, name)
        }
        Place::DirectiveArgument { directive, name } => {
            add(text, "@")?;
            add(text, directive)?;
            add_argument(text, name)
        }
        Place::Schema => add(text, "schema"),
    }
}

/// The text of a place. It fails for want of memory alone.
pub fn place_text(alloc: Global, place: Place<'_>) -> Result<Text, AllocError>
    ensures { IfOk result (λ text. text ≡ place_text (place_tree place.entry)) }
{
    let mut text = String::new(alloc);
    add_place(&mut text, place)?;
    Ok(Text::from(text))
}
