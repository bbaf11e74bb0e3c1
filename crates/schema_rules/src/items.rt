//! The things of a schema text, in the order in which they are written.

ghost use Rattle.std.specs.Prelude.{◌≡◌, ◌++◌, [], ◌∷◌, map, IfOk};
ghost use Rattle.std.specs.List.{flat_map};
ghost use Rattle.gql_base.specs.parts.Trees.{type_tree, directive_tree};
ghost use Rattle.schema_reader.specs.Trees.{root_tree, input_tree, field_tree, enum_value_tree, body_tree, definition_tree, schema_trees};
ghost use Rattle.schema_rules.specs.Items.{items_of, definition_items, body_items, fielded_items, field_items, is_none_of, root_item_of, interface_item, member_item, argument_item, enum_value_of, input_field_item, directive_argument_item, place_of, innermost, type_mentioned};
ghost use Rattle.schema_rules.specs.Views.{item_tree, place_tree, maybe_name};

use crate::kind::Kind;
use crate::place::Place;
use gql_base::{Directive, OperationKind, Text, TypeRef};
use schema_reader::{DefBody, EnumValueDef, FieldDef, InputValue, RootDef, SchemaDef, SchemaText};
use std::alloc::{AllocError, Global};

/// A thing of a schema text.
#[derive(Clone, Copy)]
pub enum Item<'a> {
    /// A schema definition, before its roots.
    Schema {
        directives: &'a [Directive],
    },
    /// The type of the operations of a kind.
    Root {
        kind: OperationKind,
        name: &'a str,
    },
    /// A type, before all that it has; whether it has nothing of what its kind must have.
    Type {
        name: &'a str,
        kind: Kind,
        is_empty: bool,
        directives: &'a [Directive],
    },
    /// An interface that a type names.
    Interface {
        of: &'a str,
        name: &'a str,
    },
    /// A type that a union names.
    Member {
        of: &'a str,
        name: &'a str,
    },
    /// A field by its name, before its arguments.
    Field {
        of: &'a str,
        name: &'a str,
    },
    Argument {
        of: &'a str,
        field: &'a str,
        input: &'a InputValue,
    },
    /// The type of a field and its directives, after its arguments.
    FieldType {
        of: &'a str,
        field: &'a FieldDef,
    },
    EnumValue {
        of: &'a str,
        value: &'a EnumValueDef,
    },
    InputField {
        of: &'a str,
        input: &'a InputValue,
    },
    /// A directive, before its arguments.
    Directive {
        name: &'a str,
    },
    DirectiveArgument {
        directive: &'a str,
        input: &'a InputValue,
    },
}

/// Where a thing stands.
pub fn place_of<'a>(item: Item<'a>) -> Place<'a>
    ensures { place_tree result ≡ place_of (item_tree item.entry) }
{
    match item {
        Item::Schema { directives: _ } => Place::Schema,
        Item::Root { kind: _, name: _ } => Place::Schema,
        Item::Type {
            name,
            kind: _,
            is_empty: _,
            directives: _,
        } => Place::Type { name },
        Item::Interface { of, name: _ } => Place::Type { name: of },
        Item::Member { of, name: _ } => Place::Type { name: of },
        Item::Field { of, name } => Place::Field { of, name },
        Item::Argument { of, field, input } => Place::Argument {
            of,
            field,
            name: input.name.as_str(),
        },
        Item::FieldType { of, field } => Place::Field {
            of,
            name: field.name.as_str(),
        },
        Item::EnumValue { of, value } => Place::Field {
            of,
            name: value.name.as_str(),
        },
        Item::InputField { of, input } => Place::Field {
            of,
            name: input.name.as_str(),
        },
        Item::Directive { name } => Place::Directive { name },
        Item::DirectiveArgument { directive, input } => Place::DirectiveArgument {
            directive,
            name: input.name.as_str(),
        },
    }
}

/// The name of the named type inside of a type.
#[tactic(auto, using(crate::proofs::OpenedTrees::innermost_levels))]
pub fn innermost(of: &TypeRef) -> &str
    ensures { result.now ≡ innermost (type_tree of.now) }
{
    match of {
        TypeRef::Named(name) => name.text.as_str(),
        TypeRef::ListOf(item) => innermost(item),
        TypeRef::NonNull(inner) => innermost(inner),
    }
}

/// The name of the type that a thing names, if it names one.
pub fn type_mentioned<'a>(item: Item<'a>) -> Option<&'a str>
    ensures { maybe_name result ≡ type_mentioned (item_tree item.entry) }
{
    match item {
        Item::Root { kind: _, name } => Some(name),
        Item::Interface { of: _, name } => Some(name),
        Item::Member { of: _, name } => Some(name),
        Item::Argument {
            of: _,
            field: _,
            input,
        } => Some(innermost(&input.of)),
        Item::FieldType { of: _, field } => Some(innermost(&field.of)),
        Item::InputField { of: _, input } => Some(innermost(&input.of)),
        Item::DirectiveArgument {
            directive: _,
            input,
        } => Some(innermost(&input.of)),
        Item::Schema { directives: _ }
        | Item::Type {
            name: _,
            kind: _,
            is_empty: _,
            directives: _,
        }
        | Item::Field { of: _, name: _ }
        | Item::EnumValue { of: _, value: _ }
        | Item::Directive { name: _ } => None,
    }
}

fn add<'a>(items: &mut Vec<Item<'a>>, item: Item<'a>) -> Result<(), AllocError>
    ensures { IfOk result (λ _. map item_tree items.new.items ≡ map item_tree items.old.items ++ (item_tree item.entry ∷ [])) }
{
    items.push(item)?;
    Ok(())
}

fn add_roots<'a>(items: &mut Vec<Item<'a>>, roots: &'a [RootDef]) -> Result<(), AllocError>
    ensures { IfOk result (λ _. map item_tree items.new.items ≡ map item_tree items.old.items ++ map root_item_of (map root_tree roots.now)) }
{
    for root in roots {
        add(
            items,
            Item::Root {
                kind: root.kind,
                name: root.name.as_str(),
            },
        )?;
    }
    Ok(())
}

fn add_interfaces<'a>(
    items: &mut Vec<Item<'a>>,
    of: &'a str,
    names: &'a [Text],
) -> Result<(), AllocError>
    ensures { IfOk result (λ _. map item_tree items.new.items ≡ map item_tree items.old.items ++ map (interface_item of.now) names.now) }
{
    for name in names {
        add(
            items,
            Item::Interface {
                of,
                name: name.as_str(),
            },
        )?;
    }
    Ok(())
}

fn add_members<'a>(
    items: &mut Vec<Item<'a>>,
    of: &'a str,
    names: &'a [Text],
) -> Result<(), AllocError>
    ensures { IfOk result (λ _. map item_tree items.new.items ≡ map item_tree items.old.items ++ map (member_item of.now) names.now) }
{
    for name in names {
        add(
            items,
            Item::Member {
                of,
                name: name.as_str(),
            },
        )?;
    }
    Ok(())
}

fn add_arguments<'a>(
    items: &mut Vec<Item<'a>>,
    of: &'a str,
    field: &'a str,
    inputs: &'a [InputValue],
) -> Result<(), AllocError>
    ensures { IfOk result (λ _. map item_tree items.new.items ≡ map item_tree items.old.items ++ map (argument_item of.now field.now) (map input_tree inputs.now)) }
{
    for input in inputs {
        add(items, Item::Argument { of, field, input })?;
    }
    Ok(())
}

fn add_field<'a>(
    items: &mut Vec<Item<'a>>,
    of: &'a str,
    field: &'a FieldDef,
) -> Result<(), AllocError>
    ensures { IfOk result (λ _. map item_tree items.new.items ≡ map item_tree items.old.items ++ field_items of.now (field_tree field.now)) }
{
    let name = field.name.as_str();
    add(items, Item::Field { of, name })?;
    add_arguments(items, of, name, &field.arguments)?;
    add(items, Item::FieldType { of, field })
}

fn add_fields<'a>(
    items: &mut Vec<Item<'a>>,
    of: &'a str,
    fields: &'a [FieldDef],
) -> Result<(), AllocError>
    ensures { IfOk result (λ _. map item_tree items.new.items ≡ map item_tree items.old.items ++ flat_map (field_items of.now) (map field_tree fields.now)) }
{
    for field in fields {
        add_field(items, of, field)?;
    }
    Ok(())
}

fn add_values<'a>(
    items: &mut Vec<Item<'a>>,
    of: &'a str,
    values: &'a [EnumValueDef],
) -> Result<(), AllocError>
    ensures { IfOk result (λ _. map item_tree items.new.items ≡ map item_tree items.old.items ++ map (enum_value_of of.now) (map enum_value_tree values.now)) }
{
    for value in values {
        add(items, Item::EnumValue { of, value })?;
    }
    Ok(())
}

fn add_input_fields<'a>(
    items: &mut Vec<Item<'a>>,
    of: &'a str,
    inputs: &'a [InputValue],
) -> Result<(), AllocError>
    ensures { IfOk result (λ _. map item_tree items.new.items ≡ map item_tree items.old.items ++ map (input_field_item of.now) (map input_tree inputs.now)) }
{
    for input in inputs {
        add(items, Item::InputField { of, input })?;
    }
    Ok(())
}

fn add_directive_arguments<'a>(
    items: &mut Vec<Item<'a>>,
    directive: &'a str,
    inputs: &'a [InputValue],
) -> Result<(), AllocError>
    ensures { IfOk result (λ _. map item_tree items.new.items ≡ map item_tree items.old.items ++ map (directive_argument_item directive.now) (map input_tree inputs.now)) }
{
    for input in inputs {
        add(items, Item::DirectiveArgument { directive, input })?;
    }
    Ok(())
}

fn type_item<'a>(def: &'a SchemaDef, kind: Kind, is_empty: bool) -> Item<'a>
    ensures { item_tree result ≡ Rattle.schema_rules.specs.Items.type_item def.now.name kind is_empty (map directive_tree def.now.directives.items) }
{
    Item::Type {
        name: def.name.as_str(),
        kind,
        is_empty,
        directives: &def.directives,
    }
}

fn add_fielded<'a>(
    items: &mut Vec<Item<'a>>,
    def: &'a SchemaDef,
    kind: Kind,
    interfaces: &'a [Text],
    fields: &'a [FieldDef],
) -> Result<(), AllocError>
    ensures { IfOk result (λ _. map item_tree items.new.items ≡ map item_tree items.old.items ++ fielded_items def.now.name kind (map directive_tree def.now.directives.items) interfaces.now (map field_tree fields.now)) }
{
    add(items, type_item(def, kind, fields.is_empty()))?;
    add_interfaces(items, def.name.as_str(), interfaces)?;
    add_fields(items, def.name.as_str(), fields)
}

fn add_definition<'a>(items: &mut Vec<Item<'a>>, def: &'a SchemaDef) -> Result<(), AllocError>
    ensures { IfOk result (λ _. map item_tree items.new.items ≡ map item_tree items.old.items ++ definition_items (definition_tree def.now)) }
{
    let name = def.name.as_str();
    match &def.body {
        DefBody::Schema(roots) => {
            add(
                items,
                Item::Schema {
                    directives: &def.directives,
                },
            )?;
            add_roots(items, roots)
        }
        DefBody::Scalar => add(items, type_item(def, Kind::Scalar, false)),
        DefBody::Object { interfaces, fields } => {
            add_fielded(items, def, Kind::Object, interfaces, fields)
        }
        DefBody::Interface { interfaces, fields } => {
            add_fielded(items, def, Kind::Interface, interfaces, fields)
        }
        DefBody::Union(members) => {
            add(items, type_item(def, Kind::Union, members.is_empty()))?;
            add_members(items, name, members)
        }
        DefBody::Enum(values) => {
            add(items, type_item(def, Kind::Enum, values.is_empty()))?;
            add_values(items, name, values)
        }
        DefBody::Input(fields) => {
            add(items, type_item(def, Kind::Input, fields.is_empty()))?;
            add_input_fields(items, name, fields)
        }
        DefBody::Directive {
            arguments,
            repeatable: _,
            locations: _,
        } => {
            add(items, Item::Directive { name })?;
            add_directive_arguments(items, name, arguments)
        }
    }
}

/// All things of a schema text, in their order. It fails for want of memory alone.
pub fn items_of(alloc: Global, text: &SchemaText) -> Result<Vec<Item<'_>>, AllocError>
    ensures { IfOk result (λ items. map item_tree items.items ≡ items_of (schema_trees text.now)) }
{
    let mut items = Vec::new(alloc);
    for def in &text.definitions {
        add_definition(&mut items, def)?;
    }
    Ok(items)
}
