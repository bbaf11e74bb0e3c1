//! What a node may be at fault with.

use cost_directives::SizeFault;
use variable_coercion::ArgFault;

/// What a node is at fault with.
#[derive(Drop)]
pub enum Why {
    /// It stands below more fields than may nest.
    TooDeep,
    /// Its fields have different names or arguments.
    Conflict,
    Argument(ArgFault),
    Size(SizeFault),
    NoPossibleType,
}
