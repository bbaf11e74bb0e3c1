//! What is known of the schema that a text holds.

ghost use Rattle.std.specs.Prelude.{IfOk};
ghost use Rattle.command_outcomes.specs.Reading.{IsText};
ghost use Rattle.command_outcomes.specs.Known.{AreKnownOf};

use crate::limits::SCHEMA_LIMIT;
use local_introspection::Facts;
use schema_reader::read_schema_text;
use std::alloc::{AllocError, Global};

/// What is known of the schema that a text holds. It asks for a text that was checked: then it fails for want of memory alone.
pub fn known_of(alloc: Global, text: &str) -> Result<Facts, AllocError>
    requires text { IsText SCHEMA_LIMIT text.now }
    ensures { IfOk result (AreKnownOf text.now) }
{
    let definitions = match read_schema_text(alloc, text) {
        Ok(definitions) => definitions,
        Err(_) => return Err(AllocError),
    };
    match Facts::make(alloc, definitions) {
        Ok(facts) => Ok(facts),
        Err(AllocError) => Err(AllocError),
    }
}
