//! What every reader of GraphQL texts stands on: texts, the tokens that they are made of, the ways of which grammars
//! are put together, the parts that documents and schemas share, and their printed forms.
#![tactic(auto)]

mod lexical;
mod names;
mod parts;
mod printing;
mod sharing;
mod ways;

pub use lexical::blocks::block_value;
pub use lexical::laws::{
    a_directive_is_used_or_not, a_text_lexes_in_one_way, a_text_lexes_or_has_one_fault,
    lexemes_are_tokens_without_places, strings_stand_for_their_characters,
    tokens_lie_in_their_text,
};
pub use lexical::lexing::{LexFault, lex};
pub use lexical::literals::{integer_at, string_at, string_value};
pub use lexical::text::Text;
pub use lexical::token::{Span, Token, TokenKind};
pub use lexical::uses::uses_directive;
pub use names::hashed::{Hashed, hashed_by_name};
pub use names::index::{NameIndex, index_of};
pub use names::laws::{distinct_names_stand_once, the_first_repeated_name_ends_distinct_ones};
pub use names::named::Named;
pub use names::owned_index::{Indexed, index_owned};
pub use names::repeated::first_repeated;
pub use parts::arguments::{directives, maybe_arguments, maybe_default, operation_kind};
pub use parts::fault_laws::{a_read_value_has_no_fault, a_value_has_one_fault};
pub use parts::ints::is_int;
pub use parts::readers::{LEVEL_LIMIT, ValueFault, read_type_ref, read_value};
pub use parts::tree_laws::{
    a_text_is_one_value, offsets_change_no_nesting, offsets_change_no_tree,
    what_is_printed_has_the_symbols_of_its_text,
};
pub use parts::trees::{Argument, Directive, Name, OperationKind, TypeRef, Value};
pub use parts::types::type_reference;
pub use parts::values::{argument, value};
pub use printing::lines::{push_shown, shown_in_line, what_is_shown_is_one_line};
pub use printing::printed_parts::{
    print_type_ref, print_value, write_arguments, write_type, write_value,
};
pub use printing::printed_texts::{
    symbols_of_a_text_are_textual, what_is_printed_has_the_same_tokens,
};
pub use printing::printer::Printer;
pub use printing::printing_laws::what_is_printed_is_written_as_the_same_tree;
pub use printing::reading_back::what_is_printed_reads_back;
pub use sharing::{
    an_index_is_shared, an_owned_index_is_shared, hashed_names_are_shared,
    texts_and_trees_are_shared,
};
pub use ways::source::{Halt, Source};
