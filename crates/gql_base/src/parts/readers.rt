//! Reading one value or one type among the tokens of a text.

ghost use Rattle.std.specs.Prelude.{◌≡◌, ◌++◌, ◌<◌, ◌≤◌, length, IfOk, IfErr, false};
ghost use Rattle.gql_base.specs.ways.Symbols.{Symbols, symbols_from};
ghost use Rattle.gql_base.specs.ways.Grammar.{Nested, plain, Within};
ghost use Rattle.gql_base.specs.ways.FirstFaults.{level_limit, IsWritten};
ghost use Rattle.gql_base.specs.parts.Values.{ValueTree, IsValue};
ghost use Rattle.gql_base.specs.parts.TypeReferences.{TypeTree, IsType};
ghost use Rattle.gql_base.specs.parts.Trees.{value_tree, type_tree};
ghost use Rattle.gql_base.specs.parts.Answers.{Gives, IsFault, EndsBefore, told_of_value};
ghost use Rattle.gql_base.specs.ways.Halting.{fault_of_halt};

use crate::lexical::token::Token;
use crate::parts::trees::{TypeRef, Value};
use crate::parts::types::type_reference;
use crate::parts::values::value;
use crate::ways::source::{Halt, Source};
use std::alloc::Global;
use thiserror::Error;

/// The number of levels that may be open at once: selection sets, lists, objects and list types.
pub const LEVEL_LIMIT: usize = 50;

/// Why no value or type is read.
#[derive(Clone, Copy, Debug, PartialEq, Eq, Error)]
pub enum ValueFault {
    /// The first token with which no value goes on begins at `at`; there is none, and `at` is the text's length.
    #[error("no value or type goes on with what stands at byte {at}")]
    Unexpected { at: usize },
    /// The token at `at` opens a level above the limit.
    #[error("more than {LEVEL_LIMIT} levels are open at byte {at}")]
    TooDeep { at: usize },
    /// There was no memory for the value.
    #[error("there was not enough memory for the value")]
    Memory,
}

/// The fault of reading that halted.
fn fault_of(source: &Source, halt: Halt) -> ValueFault
    ensures { told_of_value result ≡ fault_of_halt source.now halt }
{
    match halt {
        Halt::Unexpected(place) => ValueFault::Unexpected {
            at: source.offset(place),
        },
        Halt::TooDeep(place) => ValueFault::TooDeep {
            at: source.offset(place),
        },
        Halt::Memory => ValueFault::Memory,
    }
}

/// The value that begins with token `from`, and the number of the token after it (GraphQL October 2021, 2.9). The
/// tokens are those of `text`.
pub fn read_value(
    alloc: Global,
    tokens: &[Token],
    text: &str,
    from: usize,
) -> Result<(Value, usize), ValueFault>
    ensures found { IfOk result (λ x. IsWritten (IsValue false 0) level_limit (symbols_from text.now tokens.now from) (value_tree x.0) (symbols_from text.now tokens.now x.1)) }
    ensures within { IfOk result (λ x. (from < x.1) × (x.1 ≤ length tokens.now)) }
    ensures only { (t : ValueTree) (front : Nested) (rest : Symbols) → IsValue false 0 t front → Within level_limit front → symbols_from text.now tokens.now from ≡ plain front ++ rest → Gives value_tree text.now tokens.now t rest result }
    ensures fault { IfErr result (λ f. IsFault (IsValue false 0) text.now tokens.now from f) }
{
    let source = Source { text, tokens };
    match value(alloc, &source, from, false, LEVEL_LIMIT) {
        Ok((value, end)) => Ok((value, end)),
        Err(halt) => Err(fault_of(&source, halt)),
    }
}

/// The type that begins with token `from`, and the number of the token after it (GraphQL October 2021, 2.11). A `!`
/// that follows a nullable type belongs to it. The tokens are those of `text`.
pub fn read_type_ref(
    alloc: Global,
    tokens: &[Token],
    text: &str,
    from: usize,
) -> Result<(TypeRef, usize), ValueFault>
    ensures found { IfOk result (λ x. IsWritten (IsType 0) level_limit (symbols_from text.now tokens.now from) (type_tree x.0) (symbols_from text.now tokens.now x.1)) }
    ensures within { IfOk result (λ x. (from < x.1) × (x.1 ≤ length tokens.now)) }
    ensures only { (t : TypeTree) (front : Nested) (rest : Symbols) → IsType 0 t front → Within level_limit front → EndsBefore t rest → symbols_from text.now tokens.now from ≡ plain front ++ rest → Gives type_tree text.now tokens.now t rest result }
    ensures fault { IfErr result (λ f. IsFault (IsType 0) text.now tokens.now from f) }
{
    let source = Source { text, tokens };
    match type_reference(alloc, &source, from, LEVEL_LIMIT) {
        Ok((of, end)) => Ok((of, end)),
        Err(halt) => Err(fault_of(&source, halt)),
    }
}
