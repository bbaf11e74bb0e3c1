//! The texts of what every schema has: the schema of schemas (GraphQL October 2021, 4.2), and the directives that are built in
//! (3.13).

ghost use Rattle.std.specs.Prelude.{◌≡◌, ◌++◌, IfOk, OnOk, string_bytes};
ghost use Rattle.schema_facts.specs.MetaText.{schema_types, type_types, part_types, directive_types, meta_text, built_in_directives};

use gql_base::Text;
use std::alloc::{AllocError, Global};

// The fields of the type of queries, and `__Schema`.
#[tactic(auto, unfolding(crate::specs::MetaText::schema_types))]
fn push_schema_types(text: &mut String) -> Result<(), AllocError>
    ensures { OnOk result (string_bytes text.new ≡ string_bytes text.old ++ schema_types) }
{
    text.push_str(" { __schema: __Schema! __type(name: String!): __Type }")?;
    text.push_str(
        " type __Schema { description: String types: [__Type!]! queryType: __Type! mutationType: __Type subscriptionType: __Type directives: [__Directive!]! }",
    )?;
    Ok(())
}

// `__Type` and the kinds of types.
#[tactic(auto, unfolding(crate::specs::MetaText::type_types))]
fn push_type_types(text: &mut String) -> Result<(), AllocError>
    ensures { OnOk result (string_bytes text.new ≡ string_bytes text.old ++ type_types) }
{
    text.push_str(
        " type __Type { kind: __TypeKind! name: String description: String fields(includeDeprecated: Boolean = false): [__Field!] interfaces: [__Type!]",
    )?;
    text.push_str(
        " possibleTypes: [__Type!] enumValues(includeDeprecated: Boolean = false): [__EnumValue!] inputFields: [__InputValue!] ofType: __Type specifiedByURL:",
    )?;
    text.push_str(" String }")?;
    text.push_str(
        " enum __TypeKind { SCALAR OBJECT INTERFACE UNION ENUM INPUT_OBJECT LIST NON_NULL }",
    )?;
    Ok(())
}

// `__Field`, `__InputValue` and `__EnumValue`.
#[tactic(auto, unfolding(crate::specs::MetaText::part_types))]
fn push_part_types(text: &mut String) -> Result<(), AllocError>
    ensures { OnOk result (string_bytes text.new ≡ string_bytes text.old ++ part_types) }
{
    text.push_str(
        " type __Field { name: String! description: String args: [__InputValue!]! type: __Type! isDeprecated: Boolean! deprecationReason: String }",
    )?;
    text.push_str(
        " type __InputValue { name: String! description: String type: __Type! defaultValue: String }",
    )?;
    text.push_str(
        " type __EnumValue { name: String! description: String isDeprecated: Boolean! deprecationReason: String }",
    )?;
    Ok(())
}

// `__Directive` and the places at which directives may stand.
#[tactic(auto, unfolding(crate::specs::MetaText::directive_types))]
fn push_directive_types(text: &mut String) -> Result<(), AllocError>
    ensures { OnOk result (string_bytes text.new ≡ string_bytes text.old ++ directive_types) }
{
    text.push_str(
        " type __Directive { name: String! description: String locations: [__DirectiveLocation!]! args: [__InputValue!]! isRepeatable: Boolean! }",
    )?;
    text.push_str(
        " enum __DirectiveLocation { QUERY MUTATION SUBSCRIPTION FIELD FRAGMENT_DEFINITION FRAGMENT_SPREAD INLINE_FRAGMENT VARIABLE_DEFINITION SCHEMA SCALAR",
    )?;
    text.push_str(
        " OBJECT FIELD_DEFINITION ARGUMENT_DEFINITION INTERFACE UNION ENUM ENUM_VALUE INPUT_OBJECT INPUT_FIELD_DEFINITION }",
    )?;
    Ok(())
}

/// The text of the schema of schemas, whose type of queries has this name. It fails for want of memory alone.
pub fn meta_text(alloc: Global, query: &str) -> Result<Text, AllocError>
    ensures { IfOk result (λ text. text ≡ meta_text query.now) }
{
    let mut text = String::new(alloc);
    text.push_str("schema { query: ")?;
    text.push_str(query)?;
    text.push_str(" } type ")?;
    text.push_str(query)?;
    push_schema_types(&mut text)?;
    push_type_types(&mut text)?;
    push_part_types(&mut text)?;
    push_directive_types(&mut text)?;
    Ok(Text::from(text))
}

/// The text of the directives that are built in. None of them has a description. It fails for want of memory alone.
#[tactic(auto, unfolding(crate::specs::MetaText::built_in_directives))]
pub fn built_in_directives(alloc: Global) -> Result<Text, AllocError>
    ensures { IfOk result (λ text. text ≡ built_in_directives) }
{
    let mut text = String::new(alloc);
    text.push_str("directive @skip(if: Boolean!) on FIELD | FRAGMENT_SPREAD | INLINE_FRAGMENT ")?;
    text.push_str(
        "directive @include(if: Boolean!) on FIELD | FRAGMENT_SPREAD | INLINE_FRAGMENT ",
    )?;
    text.push_str(
        "directive @deprecated(reason: String = \"No longer supported\") on FIELD_DEFINITION | ENUM_VALUE ",
    )?;
    text.push_str("directive @specifiedBy(url: String!) on SCALAR")?;
    Ok(Text::from(text))
}
