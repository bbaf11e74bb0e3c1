//! What may be deprecated, with the place where it is said.

ghost use Rattle.std.specs.Prelude.{◌≡◌, map, codes};
ghost use Rattle.gql_base.specs.parts.Trees.{directive_tree};
ghost use Rattle.schema_facts.specs.Deprecations.{place_of};

use schema_reader::{EnumValueDef, FieldDef};

/// A field, and the place of `@deprecated` among its directives.
#[derive(Clone, Copy)]
pub struct FieldThing<'f> {
    pub(crate) of: &'f FieldDef,
    pub(crate) place: usize,
    ghost is: { place ≡ place_of (codes "deprecated") (map directive_tree of.now.directives.items) },
}

/// An enum value, and the place of `@deprecated` among its directives.
#[derive(Clone, Copy)]
pub struct ValueThing<'f> {
    pub(crate) of: &'f EnumValueDef,
    pub(crate) place: usize,
    ghost is: { place ≡ place_of (codes "deprecated") (map directive_tree of.now.directives.items) },
}
