//! Why a text is no schema.

ghost use Rattle.std.specs.Prelude.{◌≡◌};

use gql_base::Text;
use std::alloc::AllocError;
use thiserror::Error;

/// Why a text is no schema: the first test that it doesn't pass, in their order, and the first place in the order of the
/// text. A place is written `Type`, `Type.field`, `Type.field(argument)`, `@directive`, `@directive(argument)` or `schema`.
#[derive(Drop, Debug, Error)]
pub enum SchemaFault {
    /// There are more than 5,000 types, or more than 50,000 fields of object and interface types.
    #[error("there are {counted} types or fields, which are too many")]
    TooMany { counted: usize },
    /// Something has the name of another thing in its scope, or of a built-in scalar.
    #[error("{place} repeats a name")]
    Repeated { place: Text },
    /// A name begins with two underscores.
    #[error("{place} has a reserved name")]
    Reserved { place: Text },
    /// No type has this name.
    #[error("no type is named {name}")]
    UnknownType { name: Text },
    /// There is no type of queries.
    #[error("there is no type of queries")]
    NoQuery,
    /// A type stands where its kind may not.
    #[error("{place} has a type of a wrong kind")]
    WrongKind { place: Text },
    /// Something has the type Float, which the text doesn't let in.
    #[error("{place} has the type Float")]
    FloatScalar { place: Text },
    /// A field has a list of lists.
    #[error("{place} has a list of lists")]
    NestedList { place: Text },
    /// A type has nothing of what its kind must have.
    #[error("the type {name} is empty")]
    EmptyType { name: Text },
    /// A type lacks something of an interface that it implements.
    #[error("{place} is not as an interface wants it")]
    NotImplemented { place: Text },
    /// A cost directive is used wrongly.
    #[error("{place} uses a cost directive wrongly")]
    BadDirective { place: Text },
    /// A default is no value of its type.
    #[error("{place} has a bad default")]
    BadDefault { place: Text },
    /// There was no memory for the schema.
    #[error("there was not enough memory for the schema")]
    Memory,
}

impl From<AllocError> for SchemaFault {
    ghost use Rattle.schema_model.specs.declared.fault.SchemaFault.TheVariants.{Memory};

    ghost from_gives = { λ _ fault. fault ≡ Memory };

    fn from(_: AllocError) -> SchemaFault {
        SchemaFault::Memory
    }
}
