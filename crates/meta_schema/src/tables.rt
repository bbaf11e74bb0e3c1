//! What the schema of schemas says of its fields (GraphQL October 2021, 4.2). Its types have their numbers in it.

ghost use Rattle.std.specs.Prelude.{◌≡◌};
ghost use Rattle.meta_schema.specs.MetaTypes.{weight_of};
ghost use Rattle.meta_schema.specs.MetaForms.{form_of, below_of, leaf_type_of, is_of, meta_name};
ghost use Rattle.schema_facts.specs.declared.table.What.TheVariants as what;
ghost use Rattle.meta_schema.specs.MetaTests.{form_seen, leaf_seen};

use cost_num::UNIT;
use schema_facts::What;

/// One value or a list, and whether null may stand for it. No item of a list is null.
#[derive(Clone, Copy)]
pub(crate) enum FieldForm {
    Single { nullable: bool },
    Listed { nullable: bool },
}

/// What a field weighs: one where objects stand below it.
pub fn weight_of(what: What) -> u64
    ensures { result ≡ weight_of what }
{
    match what {
        What::Schema => UNIT,
        What::Named { of: _ } => UNIT,
        What::Types => UNIT,
        What::QueryType => UNIT,
        What::MutationType => UNIT,
        What::SubscriptionType => UNIT,
        What::Directives => UNIT,
        What::Fields { all: _ } => UNIT,
        What::Interfaces => UNIT,
        What::PossibleTypes => UNIT,
        What::EnumValues { all: _ } => UNIT,
        What::InputFields => UNIT,
        What::OfType => UNIT,
        What::Args => UNIT,
        What::FieldType => UNIT,
        _ => 0,
    }
}

/// How a field's values may be.
pub(crate) fn form_of(of: usize, what: What) -> FieldForm
    ensures { form_seen result ≡ form_of of what }
{
    match what {
        What::TypeName | What::Schema | What::QueryType | What::Kind | What::FieldType => {
            FieldForm::Single { nullable: false }
        }
        What::IsDeprecated | What::IsRepeatable => FieldForm::Single { nullable: false },
        What::Name => FieldForm::Single { nullable: of == 2 },
        What::Types | What::Directives | What::Args | What::Locations => {
            FieldForm::Listed { nullable: false }
        }
        What::Fields { all: _ } | What::Interfaces | What::PossibleTypes => {
            FieldForm::Listed { nullable: true }
        }
        What::EnumValues { all: _ } | What::InputFields => FieldForm::Listed { nullable: true },
        What::Named { of: _ } | What::Description => FieldForm::Single { nullable: true },
        What::MutationType | What::SubscriptionType | What::OfType => {
            FieldForm::Single { nullable: true }
        }
        What::SpecifiedByUrl | What::DeprecationReason | What::DefaultValue => {
            FieldForm::Single { nullable: true }
        }
    }
}

/// The object type below a field, if objects stand there.
pub(crate) fn below_of(what: What) -> Option<usize>
    ensures { result ≡ below_of what }
{
    match what {
        What::Schema => Some(1),
        What::Named { of: _ } => Some(2),
        What::Types | What::QueryType | What::MutationType | What::SubscriptionType => Some(2),
        What::Directives => Some(7),
        What::Fields { all: _ } => Some(4),
        What::Interfaces | What::PossibleTypes | What::OfType | What::FieldType => Some(2),
        What::EnumValues { all: _ } => Some(6),
        What::InputFields | What::Args => Some(5),
        _ => None,
    }
}

/// The type of a field's leaves, but for those that name a type.
pub(crate) fn leaf_type_of(what: What) -> Option<usize>
    ensures { leaf_seen result ≡ leaf_type_of what }
{
    match what {
        What::TypeName => None,
        What::Kind => Some(3),
        What::Locations => Some(8),
        What::IsDeprecated | What::IsRepeatable => Some(12),
        _ => Some(11),
    }
}

fn has_parts(of: usize) -> bool
    ensures { result ≡ is_of of what.Name }
{
    of == 2 || of == 4 || of == 5 || of == 6 || of == 7
}

/// Whether the object type of a number has the field.
pub(crate) fn is_of(of: usize, what: What) -> bool
    ensures { result ≡ is_of of what }
{
    match what {
        What::TypeName => true,
        What::Schema | What::Named { of: _ } => of == 0,
        What::Description => of == 1 || has_parts(of),
        What::Name => has_parts(of),
        What::Types | What::QueryType | What::MutationType | What::SubscriptionType => of == 1,
        What::Directives => of == 1,
        What::Kind | What::Fields { all: _ } | What::Interfaces | What::PossibleTypes => of == 2,
        What::EnumValues { all: _ } | What::InputFields | What::OfType => of == 2,
        What::SpecifiedByUrl => of == 2,
        What::Args => of == 4 || of == 7,
        What::FieldType => of == 4 || of == 5,
        What::IsDeprecated | What::DeprecationReason => of == 4 || of == 6,
        What::DefaultValue => of == 5,
        What::Locations | What::IsRepeatable => of == 7,
    }
}

/// The name of an object type. That of the type of queries is the schema's own.
pub(crate) fn meta_name<'a>(query: &'a str, of: usize) -> &'a str
    ensures { result.now ≡ meta_name query.now of }
{
    match of {
        0 => query,
        1 => "__Schema",
        2 => "__Type",
        4 => "__Field",
        5 => "__InputValue",
        6 => "__EnumValue",
        7 => "__Directive",
        _ => "",
    }
}
