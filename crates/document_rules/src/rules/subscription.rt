//! The operation is no subscription: none of them is answered here (GraphQL October 2021, 5.2.3).

ghost use Rattle.std.specs.Prelude.{◌≡◌};
ghost use Rattle.document_rules.specs.Rules.{subscription};

use crate::site_rule::fault_where;
use document_reader::Operation;
use gql_base::OperationKind;

/// The offset of a subscription.
pub fn subscription(operation: &Operation) -> Option<usize>
    ensures { result ≡ subscription operation.now }
{
    match operation.kind {
        OperationKind::Subscription => fault_where(true, operation.at),
        OperationKind::Query | OperationKind::Mutation => None,
    }
}
