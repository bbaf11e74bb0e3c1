//! What threads may share.

use crate::lexical::lexing::LexFault;
use crate::lexical::text::Text;
use crate::lexical::token::Token;
use crate::names::hashed::Hashed;
use crate::names::index::NameIndex;
use crate::names::named::Named;
use crate::names::owned_index::Indexed;
use crate::parts::readers::ValueFault;
use crate::parts::trees::{Argument, Directive, Name, OperationKind, TypeRef, Value};

fn is_shared<T: Send + Sync>() {}

/// Threads may share texts, tokens, the trees of values, types and directives, and the faults of texts.
pub fn texts_and_trees_are_shared() {
    is_shared::<Text>();
    is_shared::<Token>();
    is_shared::<Name>();
    is_shared::<Value>();
    is_shared::<Argument>();
    is_shared::<Directive>();
    is_shared::<TypeRef>();
    is_shared::<OperationKind>();
    is_shared::<LexFault>();
    is_shared::<ValueFault>();
}

/// Threads may share an index of things that they may share.
pub fn an_index_is_shared<T: Named + Send + Sync + 'static>() {
    is_shared::<NameIndex<'static, T>>();
}

/// Threads may share a list of things that they may share, with its index.
pub fn an_owned_index_is_shared<T: Named + Drop + Send + Sync>() {
    is_shared::<Indexed<T>>();
}

/// Threads may share a list of things that they may share, with the hashes of its names.
pub fn hashed_names_are_shared<T: Named + Drop + Send + Sync>() {
    is_shared::<Hashed<T>>();
}
