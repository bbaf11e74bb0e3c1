//! What is measured of a reply.

ghost use Rattle.std.specs.Prelude.{◌≡◌};

use cost_num::Cost;
use gql_base::Text;

/// What a reply to an operation cost, and what its client is answered.
#[derive(Drop)]
pub struct Metered {
    /// The cost of the reply's data, value by value.
    pub cost: Cost,
    /// The answer text: the reply's error messages and paths and its data, as JSON without spaces.
    pub text: Text,
}

/// The text that a client is answered with for what was measured (GraphQL October 2021, 7.1): of the errors their messages and
/// paths, and the data with the keys in plan order, as JSON without spaces. It was written in the walk that measured
/// the reply, so this takes no memory.
pub fn print_answer(of: Metered) -> Text
    ensures { result ≡ of.text }
{
    of.text
}
