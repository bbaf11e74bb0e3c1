//! The definitions of texts, sorted into types and directives.

ghost use Rattle.std.specs.Prelude.{◌≡◌, ◌++◌, [], map, IfOk};
ghost use Rattle.schema_reader.specs.Trees.{definition_tree, body_tree};
ghost use Rattle.schema_rules.specs.Reserved.{begins_reserved};
ghost use Rattle.schema_facts.specs.Facts.{known_type, is_type_body, is_directive_body, before_types, types_in, before_directives, directives_in, before_reserved, reserved_in};

use crate::known::KnownType;
use schema_reader::{DefBody, SchemaDef};
use std::alloc::AllocError;

fn is_type_body(body: &DefBody) -> bool
    ensures { result ≡ is_type_body (body_tree body.now) }
{
    match body {
        DefBody::Schema(_) => false,
        DefBody::Directive { .. } => false,
        _ => true,
    }
}

fn is_directive_body(body: &DefBody) -> bool
    ensures { result ≡ is_directive_body (body_tree body.now) }
{
    match body {
        DefBody::Directive { .. } => true,
        _ => false,
    }
}

fn sort_one(
    definition: SchemaDef,
    types: &mut Vec<KnownType>,
    directives: &mut Vec<SchemaDef>,
) -> Result<(), AllocError>
    ensures types { IfOk result (λ _. map known_type types.new.items ≡ map known_type types.old.items ++ before_types (definition_tree definition) []) }
    ensures directives { IfOk result (λ _. map definition_tree directives.new.items ≡ map definition_tree directives.old.items ++ before_directives (definition_tree definition) []) }
{
    if is_type_body(&definition.body) {
        types.push(KnownType::Defined(definition))?;
    } else if is_directive_body(&definition.body) {
        directives.push(definition)?;
    }
    Ok(())
}

/// Adds the types and the directives of a text to others.
pub fn sort_definitions(
    definitions: Vec<SchemaDef>,
    types: &mut Vec<KnownType>,
    directives: &mut Vec<SchemaDef>,
) -> Result<(), AllocError>
    ensures types { IfOk result (λ _. map known_type types.new.items ≡ map known_type types.old.items ++ types_in (map definition_tree definitions.items)) }
    ensures directives { IfOk result (λ _. map definition_tree directives.new.items ≡ map definition_tree directives.old.items ++ directives_in (map definition_tree definitions.items)) }
{
    'definitions: for definition in definitions {
        sort_one(definition, types, directives)?;
    }
    Ok(())
}

fn begins_reserved(name: &str) -> bool
    ensures { result ≡ begins_reserved name.now }
{
    match name.as_bytes() {
        [first, second, ..] => *first == b'_' && *second == b'_',
        _ => false,
    }
}

fn add_reserved(definition: SchemaDef, types: &mut Vec<KnownType>) -> Result<(), AllocError>
    ensures { IfOk result (λ _. map known_type types.new.items ≡ map known_type types.old.items ++ before_reserved (definition_tree definition) []) }
{
    if begins_reserved(definition.name.as_str()) {
        types.push(KnownType::Defined(definition))?;
    }
    Ok(())
}

/// Adds the types of the schema of schemas but for its type of queries.
pub fn add_meta_types(
    definitions: Vec<SchemaDef>,
    types: &mut Vec<KnownType>,
) -> Result<(), AllocError>
    ensures { IfOk result (λ _. map known_type types.new.items ≡ map known_type types.old.items ++ reserved_in (map definition_tree definitions.items)) }
{
    'definitions: for definition in definitions {
        add_reserved(definition, types)?;
    }
    Ok(())
}
