//! What readers of all grammars look at: the tokens of a text, one by one.

pub mod source;
