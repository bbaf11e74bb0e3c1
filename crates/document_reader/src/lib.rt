//! Reading of executable GraphQL documents (GraphQL October 2021, 2.2 to 2.12).
#![tactic(auto)]

mod definitions;
mod document;
mod fault_laws;
mod picking;
mod printing;
mod printing_laws;
mod reading_back;
mod selections;
mod tree_laws;
mod trees;

pub use document::{DocFault, read_document};
pub use fault_laws::a_text_is_a_document_or_has_one_fault;
pub use picking::{PickFault, pick};
pub use printing::{
    kind_name, print_document, write_argument_list, write_condition, write_directives,
    write_maybe_name, write_names, write_variable_list,
};
pub use printing_laws::what_is_printed_is_written_as_the_same_document;
pub use reading_back::what_is_printed_reads_back_as_the_same_document;
pub use tree_laws::{a_text_is_one_document, offsets_change_no_document};
pub use trees::{Definition, Document, Field, Fragment, Operation, Selection, VariableDef};
