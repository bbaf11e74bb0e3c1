//! The byte at which a thing is defined.

ghost use Rattle.std.specs.Prelude.{◌≡◌, ◌≢◌, None, IfOk};
ghost use Rattle.gql_base.specs.declared.lexical.lexing.LexFault.TheVariants.{Memory as NoMemory};
ghost use Rattle.schema_rules.specs.Views.{maybe_place};
ghost use Rattle.definition_places.specs.Sites.{at_first, is_place, first_site, IsDefinedAt};

use crate::walk::{at_first, site_of, walk_after};
use gql_base::{LexFault, Token, lex};
use schema_rules::{Place, place_text};
use std::alloc::{AllocError, Global};

fn is_place(alloc: Global, place: &str, site: Option<Place<'_>>) -> Result<bool, AllocError>
    ensures { IfOk result (λ is. is ≡ is_place place.now (maybe_place site.entry)) }
{
    match site {
        Some(site) => Ok(place_text(alloc, site)?.as_str() == place),
        None => Ok(false),
    }
}

fn first_site(
    alloc: Global,
    text: &str,
    place: &str,
    tokens: &[Token],
) -> Result<Option<usize>, AllocError>
    ensures { IfOk result (λ at. at ≡ first_site text.now place.now at_first tokens.now) }
{
    let mut walk = at_first();
    for at in 0..tokens.len() {
        let token = tokens[at];
        let word = token.text(text);
        if is_place(alloc, place, site_of(walk, token.kind, word))? {
            return Ok(Some(token.span.start));
        }
        walk = walk_after(walk, token.kind, word);
    }
    Ok(None)
}

// What is found in a text without tokens.
fn no_site(fault: LexFault) -> Result<Option<usize>, AllocError>
    ensures { IfOk result (λ at. (at ≡ None) × (fault ≢ NoMemory)) }
{
    match fault {
        LexFault::BadChar { .. }
        | LexFault::BadNumber { .. }
        | LexFault::OpenText { .. }
        | LexFault::BadEscape { .. }
        | LexFault::FloatValue { .. } => Ok(None),
        LexFault::Memory => Err(AllocError),
    }
}

/// The byte of a schema's text at which the name of the thing with this place stands, if it is one of the text: `Type`, `Type.field`,
/// `Type.field(argument)`, `@directive`, `@directive(argument)` or `schema`.
///
/// # Errors
///
/// `AllocError` where there was not enough memory.
pub fn defined_at(alloc: Global, text: &str, place: &str) -> Result<Option<usize>, AllocError>
    ensures { IfOk result (IsDefinedAt text.now place.now) }
{
    match lex(alloc, text, true) {
        Ok(tokens) => first_site(alloc, text, place, &tokens),
        Err(fault) => no_site(fault),
    }
}
