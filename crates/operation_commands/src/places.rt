//! Where a refusal is: in which text, and at which byte.

ghost use Rattle.std.specs.Prelude.{◌≡◌, IfOk, option_map};
ghost use Rattle.told_refusals.specs.Told.{spot_seen};
ghost use Rattle.operation_commands.specs.Places.{lexical_at, document_at, schema_text_at, rule_at, refusal_at, own_at, fault_place, misuse_place, spot_at, IsSite, IsSchemaSpot, IsAskedSpot, IsSpotIn};

use crate::asked::AskedTexts;
use crate::asking::AskedRefusal;
use crate::own_answers::OwnRefusal;
use acceptance::Refusal;
use command_outcomes::{LocalFault, SchemaRefusal};
use cost_directives::DirectiveFault;
use definition_places::defined_at;
use document_reader::DocFault;
use document_rules::RuleFault;
use gql_base::{LexFault, Text};
use schema_model::SchemaFault;
use schema_reader::SchemaTextFault;
use std::alloc::{AllocError, Global};
use told_refusals::Place;

fn lexical_at(fault: LexFault) -> Option<usize>
    ensures { result ≡ lexical_at fault }
{
    match fault {
        LexFault::BadChar { at }
        | LexFault::BadNumber { at }
        | LexFault::OpenText { at }
        | LexFault::BadEscape { at }
        | LexFault::FloatValue { at } => Some(at),
        LexFault::Memory => None,
    }
}

fn document_at(fault: DocFault) -> Option<usize>
    ensures { result ≡ document_at fault }
{
    match fault {
        DocFault::Lex(fault) => lexical_at(fault),
        DocFault::Unexpected { at } | DocFault::TooDeep { at } => Some(at),
        DocFault::Memory => None,
    }
}

fn schema_text_at(fault: SchemaTextFault) -> Option<usize>
    ensures { result ≡ schema_text_at fault }
{
    match fault {
        SchemaTextFault::Lex(fault) => lexical_at(fault),
        SchemaTextFault::Unexpected { at }
        | SchemaTextFault::Extension { at }
        | SchemaTextFault::TooDeep { at } => Some(at),
        SchemaTextFault::Memory => None,
    }
}

fn rule_at(fault: RuleFault) -> Option<usize>
    ensures { result ≡ rule_at fault }
{
    match fault {
        RuleFault::Broken { at, .. } => Some(at),
        RuleFault::Memory => None,
    }
}

/// The byte of a document that a refusal names.
fn refusal_at(refusal: &Refusal) -> Option<usize>
    ensures { result ≡ refusal_at refusal.now }
{
    match refusal {
        Refusal::Document(fault) => document_at(*fault),
        Refusal::Rule(fault) => rule_at(*fault),
        _ => None,
    }
}

/// The byte of a document that is named where what it asks of the schema isn't answered.
fn own_at(fault: &LocalFault) -> Option<usize>
    ensures { result ≡ own_at fault.now }
{
    match fault {
        LocalFault::Mixed { at } => Some(*at),
        LocalFault::Rule(fault) => rule_at(*fault),
        _ => None,
    }
}

/// The thing of a schema of which it is told what is wrong.
fn fault_place(fault: &SchemaFault) -> Option<&Text>
    ensures { option_map (λ place. place.now) result ≡ fault_place fault.now }
{
    match fault {
        SchemaFault::Reserved { place }
        | SchemaFault::WrongKind { place }
        | SchemaFault::FloatScalar { place }
        | SchemaFault::NestedList { place }
        | SchemaFault::EmptyType { name: place }
        | SchemaFault::NotImplemented { place }
        | SchemaFault::BadDirective { place }
        | SchemaFault::BadDefault { place } => Some(place),
        _ => None,
    }
}

/// The thing of a schema whose cost directives are wrong.
fn misuse_place(fault: &DirectiveFault) -> Option<&Text>
    ensures { option_map (λ place. place.now) result ≡ misuse_place fault.now }
{
    match fault {
        DirectiveFault::Weight { place, .. }
        | DirectiveFault::NotAList { place }
        | DirectiveFault::Dotted { place }
        | DirectiveFault::SlicingUnknown { place, .. }
        | DirectiveFault::SlicingNotInt { place, .. }
        | DirectiveFault::SizedOnList { place }
        | DirectiveFault::SizedUnknown { place, .. }
        | DirectiveFault::NegativeSize { place }
        | DirectiveFault::Disagree { place } => Some(place),
        DirectiveFault::Memory => None,
    }
}

/// A place in a text, if a byte is named.
fn place_at(text: &Text, at: Option<usize>) -> Option<Place<'_>>
    ensures { spot_seen result ≡ spot_at text.now at }
{
    match at {
        Some(offset) => Some(Place {
            text: text.as_str(),
            offset,
        }),
        None => None,
    }
}

/// Where the thing with a place is defined in a text, if that is told and the text defines it.
fn site_in<'a>(
    alloc: Global,
    text: &'a Text,
    place: Option<&Text>,
) -> Result<Option<Place<'a>>, AllocError>
    ensures { IfOk result (λ p. IsSite text.now (option_map (λ name. name.now) place.entry) (spot_seen p)) }
{
    match place {
        Some(place) => Ok(place_at(text, defined_at(alloc, text.as_str(), place.as_str())?)),
        None => Ok(None),
    }
}

/// Where a refusal of a schema is in its text, if it names a byte or a thing.
pub(crate) fn schema_place<'a>(
    alloc: Global,
    text: &'a Text,
    refusal: &SchemaRefusal,
) -> Result<Option<Place<'a>>, AllocError>
    ensures { IfOk result (λ p. IsSchemaSpot text.now refusal.now (spot_seen p)) }
{
    match refusal {
        SchemaRefusal::NoSchemaText(fault) => Ok(place_at(text, schema_text_at(*fault))),
        SchemaRefusal::Fails(fault) => site_in(alloc, text, fault_place(fault)),
        SchemaRefusal::Misuses(fault) => site_in(alloc, text, misuse_place(fault)),
        _ => Ok(None),
    }
}

fn asked_place<'a>(
    alloc: Global,
    texts: &'a AskedTexts,
    refusal: &AskedRefusal,
) -> Result<Option<Place<'a>>, AllocError>
    ensures { IfOk result (λ p. IsAskedSpot texts.now refusal.now (spot_seen p)) }
{
    match refusal {
        AskedRefusal::NoSchema(refusal) => schema_place(alloc, &texts.schema, refusal),
        AskedRefusal::NoOperation(refusal) => Ok(place_at(&texts.document, refusal_at(refusal))),
        _ => Ok(None),
    }
}

/// Where a refusal is in the texts of an operation's files, if it names a byte or a thing.
///
/// # Errors
///
/// `AllocError` where there was not enough memory.
pub(crate) fn place_of<'a>(
    alloc: Global,
    texts: &'a AskedTexts,
    refusal: &OwnRefusal,
) -> Result<Option<Place<'a>>, AllocError>
    ensures { IfOk result (λ p. IsSpotIn texts.now refusal.now (spot_seen p)) }
{
    match refusal {
        OwnRefusal::Asked(refusal) => asked_place(alloc, texts, refusal),
        OwnRefusal::NotAnswered(fault) => Ok(place_at(&texts.document, own_at(fault))),
        OwnRefusal::NotLocal => Ok(None),
    }
}
