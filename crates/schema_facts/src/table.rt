//! What each field of the schema of schemas gives (GraphQL October 2021, 4.2).

ghost use Rattle.std.specs.Prelude.{◌≡◌, ◌++◌, [], IfOk, map, option_map, Some, None};
ghost use Rattle.schema_reader.specs.Trees.{definition_tree, body_tree};
ghost use Rattle.schema_facts.specs.FactsViews.{facts_data};
ghost use Rattle.schema_facts.specs.Things.{thing_data, held_data, a_directive};
ghost use Rattle.schema_facts.specs.Table.{held, type_name, types_from, maybe_type, of_body};

use crate::bodies::{
    enum_values, fields, input_fields, interfaces, kind_of, possible, specified_by,
};
use crate::facts::SchemaFacts;
use crate::held::{Held, word};
use crate::members::{
    arguments, default_of, deprecated, description, field_type, locations, name, of_type, reason,
    repeatable,
};
use crate::things::Thing;
use schema_reader::SchemaDef;
use std::alloc::{AllocError, Global};

/// A field of the schema of schemas, with what its arguments ask.
#[derive(Clone, Copy)]
pub enum What {
    /// `__typename`.
    TypeName,
    Schema,
    /// `__type`, by the number of the type of that name, if there is one.
    Named { of: Option<usize> },
    Description,
    Types,
    QueryType,
    MutationType,
    SubscriptionType,
    Directives,
    Kind,
    Name,
    /// `fields` and `enumValues`, all of them or without those that are deprecated.
    Fields { all: bool },
    Interfaces,
    PossibleTypes,
    EnumValues { all: bool },
    InputFields,
    OfType,
    SpecifiedByUrl,
    Args,
    FieldType,
    IsDeprecated,
    DeprecationReason,
    DefaultValue,
    Locations,
    IsRepeatable,
}

fn type_name<'f>(facts: &'f SchemaFacts, of: Thing<'f>) -> &'f str
    ensures { result.now ≡ type_name (facts_data facts.now) (thing_data of.entry) }
{
    match of {
        Thing::Root => facts.query_name.as_str(),
        Thing::Schema => "__Schema",
        Thing::TypeAt(_) | Thing::ListOf(_) | Thing::NonNull(_) => "__Type",
        Thing::Field(_) => "__Field",
        Thing::Input(_) => "__InputValue",
        Thing::EnumValue(_) => "__EnumValue",
        Thing::Directive(_) => "__Directive",
        Thing::Word(_) | Thing::Flag(_) | Thing::Default(_) => "",
    }
}

fn all_types<'f>(alloc: Global, facts: &'f SchemaFacts) -> Result<Vec<Thing<'f>>, AllocError>
    ensures { IfOk result (λ things. map thing_data things.items ≡ types_from 0 (facts_data facts.now).types) }
{
    let mut things = Vec::new(alloc);
    'types: for number in 0..facts.types.items().len() {
        things.push(Thing::TypeAt(number))?;
    }
    Ok(things)
}

fn maybe_type<'f>(of: Option<usize>) -> Held<'f>
    ensures { held_data result ≡ maybe_type of }
{
    match of {
        Some(number) => Held::One(Thing::TypeAt(number)),
        None => Held::Nothing,
    }
}

fn directives<'f>(alloc: Global, of: &'f [SchemaDef]) -> Result<Vec<Thing<'f>>, AllocError>
    ensures { IfOk result (λ things. map thing_data things.items ≡ map a_directive (map definition_tree of.now)) }
{
    let mut things = Vec::new(alloc);
    'of: for directive in of {
        things.push(Thing::Directive(directive))?;
    }
    Ok(things)
}

/// What a field of the schema of schemas holds at a thing. It fails for want of memory alone.
#[tactic(auto, unfolding(crate::specs::Table::held))]
pub fn look_up<'f>(
    alloc: Global,
    facts: &'f SchemaFacts,
    of: Thing<'f>,
    what: What,
) -> Result<Held<'f>, AllocError>
    ensures { IfOk result (λ found. held_data found ≡ held (facts_data facts.now) (thing_data of.entry) what) }
{
    Ok(match what {
        What::TypeName => word(type_name(facts, of)),
        What::Schema => Held::One(Thing::Schema),
        What::Named { of } => maybe_type(of),
        What::Description => description(facts, of),
        What::Types => Held::Many(all_types(alloc, facts)?),
        What::QueryType => Held::One(Thing::TypeAt(facts.query)),
        What::MutationType => maybe_type(facts.mutation),
        What::SubscriptionType => maybe_type(facts.subscription),
        What::Directives => Held::Many(directives(alloc, &facts.directives)?),
        What::Kind => kind_of(facts, of),
        What::Name => name(facts, of),
        What::Fields { all } => return fields(alloc, facts, all, of),
        What::Interfaces => return interfaces(alloc, facts, of),
        What::PossibleTypes => return possible(alloc, facts, of),
        What::EnumValues { all } => return enum_values(alloc, facts, all, of),
        What::InputFields => return input_fields(alloc, facts, of),
        What::OfType => of_type(facts, of),
        What::SpecifiedByUrl => specified_by(facts, of),
        What::Args => return arguments(alloc, of),
        What::FieldType => field_type(facts, of),
        What::IsDeprecated => deprecated(of),
        What::DeprecationReason => reason(of),
        What::DefaultValue => default_of(of),
        What::Locations => return locations(alloc, of),
        What::IsRepeatable => repeatable(of),
    })
}
