//! An operation without a name is the only one of its document (GraphQL October 2021, 5.2.2.1).

ghost use Rattle.std.specs.Prelude.{◌≡◌, length};
ghost use Rattle.schema_rules.specs.First.{first_of};
ghost use Rattle.document_rules.specs.Parts.{operations_of};
ghost use Rattle.document_rules.specs.Rules.{anonymous_at, lone_anonymous};

use crate::site_rule::fault_where;
use document_reader::Definition;

fn operation_count(definitions: &[Definition]) -> usize
    ensures { result ≡ length (operations_of definitions.now) }
{
    let mut count = 0;
    for definition in definitions {
        if let Definition::Op(_) = definition {
            count += 1;
        }
    }
    count
}

fn first_anonymous(definitions: &[Definition]) -> Option<usize>
    ensures { result ≡ first_of anonymous_at (operations_of definitions.now) }
{
    for definition in definitions {
        if let Definition::Op(operation) = definition {
            if operation.name.is_none() {
                return Some(operation.at);
            }
        }
    }
    None
}

/// The offset of the first operation without a name, where there are more operations than one.
pub fn lone_anonymous(definitions: &[Definition]) -> Option<usize>
    ensures { result ≡ lone_anonymous definitions.now }
{
    if 1 < operation_count(definitions) {
        first_anonymous(definitions)
    } else {
        None
    }
}
