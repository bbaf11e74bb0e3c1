//! The texts of why a schema is refused.

ghost use Rattle.command_outcomes.specs.SchemaTexts.{schema_text_text, schema_fault_text, weight_fault_text, directive_fault_text, schema_refusal_text};
ghost use Rattle.std.specs.Prelude.{◌≡◌, IfOk, string_bytes};
ghost use Rattle.command_outcomes.specs.Outcomes.{IsRefusedAs};

use crate::checked::SchemaRefusal;
use crate::outcome::Outcome;
use crate::texts::{refused_as, refused_at, refused_lexical, refused_naming, refused_naming_both};
use cost_directives::DirectiveFault;
use cost_num::WeightFault;
use gql_base::Text;
use local_introspection::placed;
use schema_model::SchemaFault;
use schema_reader::SchemaTextFault;
use std::alloc::{AllocError, Global};

// The outcome of a text that is no schema text.
fn refused_text(alloc: Global, fault: SchemaTextFault) -> Outcome
    ensures { IsRefusedAs (schema_text_text fault) result }
{
    match fault {
        SchemaTextFault::Lex(fault) => refused_lexical(alloc, "text ", fault),
        SchemaTextFault::Unexpected { at } => refused_at(alloc, "text 2 Unexpected", at),
        SchemaTextFault::Extension { at } => refused_at(alloc, "text 3 Extension", at),
        SchemaTextFault::TooDeep { at } => refused_at(alloc, "text 4 TooDeep", at),
        SchemaTextFault::Memory => Outcome::Memory,
    }
}

// The outcome of a schema that doesn't pass a test.
fn refused_test(alloc: Global, fault: SchemaFault) -> Outcome
    ensures { IsRefusedAs (schema_fault_text fault) result }
{
    match fault {
        SchemaFault::TooMany { counted } => refused_at(alloc, "schema 1 TooMany", counted),
        SchemaFault::Repeated { place } => refused_naming(alloc, "schema 2 Repeated", &place),
        SchemaFault::Reserved { place } => refused_naming(alloc, "schema 3 Reserved", &place),
        SchemaFault::UnknownType { name } => refused_naming(alloc, "schema 4 UnknownType", &name),
        SchemaFault::NoQuery => refused_as(alloc, "schema 5 NoQuery"),
        SchemaFault::WrongKind { place } => refused_naming(alloc, "schema 6 WrongKind", &place),
        SchemaFault::FloatScalar { place } => refused_naming(alloc, "schema 7 FloatScalar", &place),
        SchemaFault::NestedList { place } => refused_naming(alloc, "schema 8 NestedList", &place),
        SchemaFault::EmptyType { name } => refused_naming(alloc, "schema 9 EmptyType", &name),
        SchemaFault::NotImplemented { place } => {
            refused_naming(alloc, "schema 10 NotImplemented", &place)
        }
        SchemaFault::BadDirective { place } => {
            refused_naming(alloc, "schema 11 BadDirective", &place)
        }
        SchemaFault::BadDefault { place } => refused_naming(alloc, "schema 12 BadDefault", &place),
        SchemaFault::Memory => Outcome::Memory,
    }
}

// What is wrong with the text of a weight.
fn weight_told(alloc: Global, fault: WeightFault) -> Result<Text, AllocError>
    ensures { IfOk result (λ told. told ≡ weight_fault_text fault) }
{
    match fault {
        WeightFault::Empty => Text::copy_of(alloc, "1 Empty"),
        WeightFault::Negative => Text::copy_of(alloc, "2 Negative"),
        WeightFault::Exponent => Text::copy_of(alloc, "3 Exponent"),
        WeightFault::BadDigit { at } => Ok(Text::from(placed(alloc, "4 BadDigit", at)?)),
        WeightFault::TooFine { at } => Ok(Text::from(placed(alloc, "5 TooFine", at)?)),
        WeightFault::TooLarge => Text::copy_of(alloc, "6 TooLarge"),
    }
}

// The outcome of a weight at this place that is none.
fn refused_weight(alloc: Global, place: &Text, fault: WeightFault) -> Outcome
    ensures { IsRefusedAs (directive_fault_text (DirectiveFault.Weight place.now fault)) result }
{
    match weight_told(alloc, fault) {
        Ok(told) => refused_naming_both(alloc, "directive 1 Weight", place, &told),
        Err(_) => Outcome::Memory,
    }
}

// The outcome of a schema whose cost directives don't pass a test.
fn refused_directive(alloc: Global, fault: DirectiveFault) -> Outcome
    ensures { IsRefusedAs (directive_fault_text fault) result }
{
    match fault {
        DirectiveFault::Weight { place, fault } => refused_weight(alloc, &place, fault),
        DirectiveFault::NotAList { place } => {
            refused_naming(alloc, "directive 2 NotAList", &place)
        }
        DirectiveFault::Dotted { place } => refused_naming(alloc, "directive 3 Dotted", &place),
        DirectiveFault::SlicingUnknown { place, name } => {
            refused_naming_both(alloc, "directive 4 SlicingUnknown", &place, &name)
        }
        DirectiveFault::SlicingNotInt { place, name } => {
            refused_naming_both(alloc, "directive 5 SlicingNotInt", &place, &name)
        }
        DirectiveFault::SizedOnList { place } => {
            refused_naming(alloc, "directive 6 SizedOnList", &place)
        }
        DirectiveFault::SizedUnknown { place, name } => {
            refused_naming_both(alloc, "directive 7 SizedUnknown", &place, &name)
        }
        DirectiveFault::NegativeSize { place } => {
            refused_naming(alloc, "directive 8 NegativeSize", &place)
        }
        DirectiveFault::Disagree { place } => {
            refused_naming(alloc, "directive 9 Disagree", &place)
        }
        DirectiveFault::Memory => Outcome::Memory,
    }
}

/// The outcome of a schema file of this name that is refused.
pub fn refused_schema(alloc: Global, name: &Text, refusal: SchemaRefusal) -> Outcome
    ensures { IsRefusedAs (schema_refusal_text name.now refusal) result }
{
    match refusal {
        SchemaRefusal::TooLarge => refused_naming(alloc, "input 1 TooLarge", name),
        SchemaRefusal::NotText => refused_naming(alloc, "input 2 NotText", name),
        SchemaRefusal::NoSchemaText(fault) => refused_text(alloc, fault),
        SchemaRefusal::Fails(fault) => refused_test(alloc, fault),
        SchemaRefusal::Misuses(fault) => refused_directive(alloc, fault),
    }
}
