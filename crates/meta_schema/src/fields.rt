//! What the fields of the schema of schemas ask (GraphQL October 2021, 4.2).

ghost use Rattle.std.specs.Prelude.{◌≡◌};
ghost use Rattle.meta_schema.specs.Fields.{member_asked, of_type_asked, of_schema_asked, what_asked};

use asked_fields::Argument;
use schema_facts::What;

fn member_asked(name: &str) -> What
    ensures { result ≡ member_asked name.now }
{
    if name == "name" {
        What::Name
    } else if name == "description" {
        What::Description
    } else if name == "type" {
        What::FieldType
    } else if name == "args" {
        What::Args
    } else if name == "isDeprecated" {
        What::IsDeprecated
    } else if name == "deprecationReason" {
        What::DeprecationReason
    } else if name == "defaultValue" {
        What::DefaultValue
    } else if name == "locations" {
        What::Locations
    } else if name == "isRepeatable" {
        What::IsRepeatable
    } else {
        What::TypeName
    }
}

fn of_type_asked(name: &str) -> What
    ensures { result ≡ of_type_asked name.now }
{
    if name == "kind" {
        What::Kind
    } else if name == "ofType" {
        What::OfType
    } else if name == "interfaces" {
        What::Interfaces
    } else if name == "possibleTypes" {
        What::PossibleTypes
    } else if name == "inputFields" {
        What::InputFields
    } else if name == "specifiedByURL" {
        What::SpecifiedByUrl
    } else {
        member_asked(name)
    }
}

fn of_schema_asked(name: &str) -> What
    ensures { result ≡ of_schema_asked name.now }
{
    if name == "__schema" {
        What::Schema
    } else if name == "types" {
        What::Types
    } else if name == "queryType" {
        What::QueryType
    } else if name == "mutationType" {
        What::MutationType
    } else if name == "subscriptionType" {
        What::SubscriptionType
    } else if name == "directives" {
        What::Directives
    } else {
        of_type_asked(name)
    }
}

/// What a field of the schema of schemas asks, by its name and what is kept of its arguments.
pub fn what_asked(name: &str, argument: Argument) -> What
    ensures { result ≡ what_asked name.now argument }
{
    if name == "__type" {
        What::Named { of: argument.place }
    } else if name == "fields" {
        What::Fields {
            all: argument.is_true,
        }
    } else if name == "enumValues" {
        What::EnumValues {
            all: argument.is_true,
        }
    } else {
        of_schema_asked(name)
    }
}
