//! What is told of a request in a line.

use cost_num::Cost;
use gateway_core::{Denial, Finished};

/// What is told of a request in a line.
#[derive(Debug, Drop)]
pub(crate) enum Told {
    /// It was granted at this bound.
    Granted { bound: Cost },
    /// The gateway answered it itself.
    Answered(Finished),
    /// It was denied.
    Denied(Denial),
    /// It was finished.
    Finished(Finished),
    /// None of its id was open.
    NotOpen,
    /// It was left open to the end, and charged its bound.
    Abandoned { bound: Cost },
}
