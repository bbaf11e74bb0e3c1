//! How many steps a text is.

ghost use Rattle.std.specs.Prelude.{◌≡◌, ◌/◌};

/// So many bytes of a text that is copied, compared or written are one step.
pub const BYTES_IN_A_STEP: usize = 64;

/// How many steps it is to copy, compare or write so many bytes, less the one that the node, name or pair with this text is.
pub fn steps_of_text(bytes: usize) -> usize
    ensures { result ≡ bytes / 64 }
{
    bytes / BYTES_IN_A_STEP
}
