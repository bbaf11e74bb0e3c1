//! Names that stand twice.

ghost use Rattle.std.specs.Prelude.{◌≡◌, ◌<◌, length, map, IfOk, IfSome};
ghost use Rattle.gql_base.specs.names.Names.{first_repeated};

use crate::names::named::Named;
use std::alloc::{AllocError, Global};
use std::collections::BTreeMap;

/// The place of the first thing whose name stands before it. It fails for want of memory alone.
pub fn first_repeated<T: Named>(alloc: Global, items: &[T]) -> Result<Option<usize>, AllocError>
    ensures place { IfOk result (λ place. place ≡ first_repeated (map T.name_of items.now)) }
    ensures within { IfOk result (λ place. IfSome place (λ at. at < length items.now)) }
{
    let mut seen = BTreeMap::new(alloc);
    for at in 0..items.len() {
        let before = seen.insert(items[at].name(), at)?;
        if before.is_some() {
            return Ok(Some(at));
        }
    }
    Ok(None)
}
