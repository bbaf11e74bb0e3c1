//! The types of a schema by their names (GraphQL October 2021, 3.5).

ghost use Rattle.std.specs.Prelude.{◌≡◌, ◌++◌, [], map, IfOk, codes};
ghost use Rattle.gql_base.specs.names.Names.{has_name};
ghost use Rattle.schema_rules.specs.TypeNames.{name_of, is_built_in, types_defined, with_type, with_scalar, types_of, kind_named};
ghost use Rattle.schema_rules.specs.Views.{item_tree, named_kind};

use crate::items::Item;
use crate::kind::Kind;
use gql_base::{NameIndex, Named};
use std::alloc::{AllocError, Global};

/// A type by its name and its kind.
#[derive(Clone, Copy)]
pub struct TypeName<'a> {
    pub name: &'a str,
    pub kind: Kind,
}

impl<'a> Named for TypeName<'a> {
    ghost name_of = { λ t. t.name.now };

    fn name(&self) -> &str {
        self.name
    }
}

/// Whether a name is that of a built-in scalar.
pub fn is_built_in(name: &str) -> bool
    ensures { result ≡ is_built_in name.now }
{
    name == "Int" || name == "Float" || name == "String" || name == "Boolean" || name == "ID"
}

fn add_type<'a>(types: &mut Vec<TypeName<'a>>, item: Item<'a>) -> Result<(), AllocError>
    ensures { IfOk result (λ _. map named_kind types.new.items ≡ map named_kind types.old.items ++ with_type (item_tree item.entry) []) }
{
    match item {
        Item::Type {
            name,
            kind,
            is_empty: _,
            directives: _,
        } => {
            types.push(TypeName { name, kind })?;
            Ok(())
        }
        _ => Ok(()),
    }
}

fn types_defined<'a>(alloc: Global, items: &[Item<'a>]) -> Result<Vec<TypeName<'a>>, AllocError>
    ensures { IfOk result (λ types. map named_kind types.items ≡ types_defined (map item_tree items.now)) }
{
    let mut types = Vec::new(alloc);
    for item in items {
        add_type(&mut types, *item)?;
    }
    Ok(types)
}

fn is_among(types: &[TypeName<'_>], name: &str) -> bool
    ensures { result ≡ has_name name_of (map named_kind types.now) name.now }
{
    for known in types {
        if known.name == name {
            return true;
        }
    }
    false
}

fn add_scalar<'a>(types: &mut Vec<TypeName<'a>>, name: &'a str) -> Result<(), AllocError>
    ensures { IfOk result (λ _. map named_kind types.new.items ≡ with_scalar name.now (map named_kind types.old.items)) }
{
    if is_among(types, name) {
        return Ok(());
    }
    types.push(TypeName {
        name,
        kind: Kind::Scalar,
    })?;
    Ok(())
}

/// The types that a text defines, in their order, and then the built-in scalars that it doesn't define. It fails for want
/// of memory alone.
pub fn types_of<'a>(alloc: Global, items: &[Item<'a>]) -> Result<Vec<TypeName<'a>>, AllocError>
    ensures { IfOk result (λ types. map named_kind types.items ≡ types_of (map item_tree items.now)) }
{
    let mut types = types_defined(alloc, items)?;
    add_scalar(&mut types, "Int")?;
    add_scalar(&mut types, "Float")?;
    add_scalar(&mut types, "String")?;
    add_scalar(&mut types, "Boolean")?;
    add_scalar(&mut types, "ID")?;
    Ok(types)
}

/// Whether a type has this name.
pub fn has_type(types: &NameIndex<'_, TypeName<'_>>, name: &str) -> bool
    ensures { result ≡ has_name name_of (map named_kind types.now.items.now) name.now }
{
    types.has(name)
}

/// The kind of the type of this name, and of a scalar where no type has it.
pub fn kind_named(types: &NameIndex<'_, TypeName<'_>>, name: &str) -> Kind
    ensures { result ≡ kind_named (map named_kind types.now.items.now) name.now }
{
    match types.first_named(name) {
        Some(found) => found.kind,
        None => Kind::Scalar,
    }
}
