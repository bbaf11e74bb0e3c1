//! Why the cost directives of a schema have no meaning.

ghost use Rattle.std.specs.Prelude.{◌≡◌};

use cost_num::WeightFault;
use gql_base::Text;
use std::alloc::AllocError;
use thiserror::Error;

/// Why the cost directives of a schema have no meaning: the first test that they don't pass, in their order, and the first
/// place in the order of the text. A place is written `Type`, `Type.field` or `Type.field(argument)`.
#[derive(Drop, Debug, Error)]
pub enum DirectiveFault {
    /// The text of a weight spells none.
    #[error("the weight at {place} is none: {fault}")]
    Weight { place: Text, fault: WeightFault },
    /// A size is declared for a field that is no list and hands it to no field below.
    #[error("{place} declares a size and is no list")]
    NotAList { place: Text },
    /// A name in `slicingArguments` or `sizedFields` has a dot.
    #[error("{place} names a path with a dot")]
    Dotted { place: Text },
    /// The field has no argument of a name in `slicingArguments`.
    #[error("{place} has no argument {name}, by which it is sliced")]
    SlicingUnknown { place: Text, name: Text },
    /// An argument in `slicingArguments` isn't of the type Int.
    #[error("the argument {name} of {place} slices and is no Int")]
    SlicingNotInt { place: Text, name: Text },
    /// A list has `sizedFields`.
    #[error("{place} is a list and hands its size down")]
    SizedOnList { place: Text },
    /// The type of the field has no list field of a name in `sizedFields`.
    #[error("the type of {place} has no list field {name}")]
    SizedUnknown { place: Text, name: Text },
    /// An `assumedSize` is negative.
    #[error("{place} assumes a negative size")]
    NegativeSize { place: Text },
    /// The interfaces of a type say different things of a field that says nothing of its own.
    #[error("the interfaces disagree about {place}")]
    Disagree { place: Text },
    /// There was no memory for the weights.
    #[error("there was not enough memory for the weights")]
    Memory,
}

impl From<AllocError> for DirectiveFault {
    ghost use Rattle.cost_directives.specs.declared.fault.DirectiveFault.TheVariants.{Memory};

    ghost from_gives = { λ _ fault. fault ≡ Memory };

    fn from(_: AllocError) -> DirectiveFault {
        DirectiveFault::Memory
    }
}
