//! The alias that no name of a document is equal to.

ghost use Rattle.std.specs.Prelude.{◌≡◌, map, IfOk};
ghost use Rattle.gql_base.specs.names.Names.{has_name};
ghost use Rattle.document_reader.specs.Trees.{definition_tree};
ghost use Rattle.typename_rewrite.specs.AddedNames.{names_of_document, IsAlias};
ghost use Rattle.typename_rewrite.specs.Views.{word_text};

use crate::names::names_of;
use crate::words::Word;
use document_reader::Document;
use gql_base::Text;
use std::alloc::{AllocError, Global};

/// Whether a name is among these. No index is made of them: but for documents that are written to delay it, it is asked once.
fn is_taken(taken: &[Word<'_>], name: &str) -> bool
    ensures { result ≡ has_name word_text taken.now name.now }
{
    taken.iter().any(|word| word.text == name)
}

/// The alias beside these names. As all that are shorter stand among the names, their number bounds its length.
fn alias_beside(alloc: Global, taken: &[Word<'_>]) -> Result<Text, AllocError>
    ensures { IfOk result (λ alias. IsAlias (map word_text taken.now) alias) }
{
    let mut alias = String::from_str(alloc, "gateway_typename")?;
    'longer: while is_taken(taken, alias.as_str()) {
        alias.push_str("_")?;
    }
    Ok(Text::from(alias))
}

/// `gateway_typename` with the fewest underscores that make it differ from every name in a document. It fails for want of
/// memory alone.
pub fn alias_for(alloc: Global, document: &Document) -> Result<Text, AllocError>
    ensures { IfOk result (λ alias. IsAlias (names_of_document (map definition_tree document.now.definitions.items)) alias) }
{
    let words = names_of(alloc, document.definitions.as_slice())?;
    alias_beside(alloc, words.as_slice())
}
