//! The directives that a schema has.

ghost use Rattle.std.specs.Prelude.{◌≡◌, ◌++◌, [], map, IfOk};
ghost use Rattle.schema_reader.specs.Trees.{definition_tree};
ghost use Rattle.schema_facts.specs.Facts.{defines_directive, has_directive, unless_defined, not_defined};

use schema_reader::{DefBody, SchemaDef};
use std::alloc::AllocError;

fn defines_directive(name: &str, definition: &SchemaDef) -> bool
    ensures { result ≡ defines_directive name.now (definition_tree definition.now) }
{
    match definition.body {
        DefBody::Directive { .. } => definition.name.as_str() == name,
        _ => false,
    }
}

fn has_directive(text: &[SchemaDef], name: &str) -> bool
    ensures { result ≡ has_directive (map definition_tree text.now) name.now }
{
    'text: for definition in text {
        if defines_directive(name, definition) {
            return true;
        }
    }
    false
}

fn add_unless_defined(
    text: &[SchemaDef],
    definition: SchemaDef,
    directives: &mut Vec<SchemaDef>,
) -> Result<(), AllocError>
    ensures { IfOk result (λ _. map definition_tree directives.new.items ≡ map definition_tree directives.old.items ++ unless_defined (map definition_tree text.now) (definition_tree definition) []) }
{
    if !has_directive(text, definition.name.as_str()) {
        directives.push(definition)?;
    }
    Ok(())
}

/// Adds the definitions of directives that a text doesn't define itself.
pub fn add_not_defined(
    text: &[SchemaDef],
    definitions: Vec<SchemaDef>,
    directives: &mut Vec<SchemaDef>,
) -> Result<(), AllocError>
    ensures { IfOk result (λ _. map definition_tree directives.new.items ≡ map definition_tree directives.old.items ++ not_defined (map definition_tree text.now) (map definition_tree definitions.items)) }
{
    'definitions: for definition in definitions {
        add_unless_defined(text, definition, directives)?;
    }
    Ok(())
}
