//! The kinds of types (GraphQL October 2021, 3.4).

ghost use Rattle.std.specs.Prelude.{◌≡◌};
ghost use Rattle.schema_rules.specs.Kinds.{is_scalar, is_object, is_interface, is_input_only, is_output_only};

/// A kind of type.
#[derive(Clone, Copy, Debug, PartialEq, Eq)]
pub enum Kind {
    Scalar,
    Object,
    Interface,
    Union,
    Enum,
    Input,
}

impl Kind {
    pub fn is_scalar(self) -> bool
        ensures { result ≡ is_scalar self }
    {
        matches!(self, Kind::Scalar)
    }

    pub fn is_object(self) -> bool
        ensures { result ≡ is_object self }
    {
        matches!(self, Kind::Object)
    }

    pub fn is_interface(self) -> bool
        ensures { result ≡ is_interface self }
    {
        matches!(self, Kind::Interface)
    }

    /// Whether values of these types are given alone: input object types.
    pub fn is_input_only(self) -> bool
        ensures { result ≡ is_input_only self }
    {
        matches!(self, Kind::Input)
    }

    /// Whether values of these types are answered alone: object, interface and union types.
    pub fn is_output_only(self) -> bool
        ensures { result ≡ is_output_only self }
    {
        matches!(self, Kind::Object | Kind::Interface | Kind::Union)
    }
}
